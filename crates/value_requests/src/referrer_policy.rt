// The referrer policy that headers name (Referrer Policy, section 8.1).
ghost use Rattle.std.specs.Prelude.{◌≡◌, map, unwrap_or, IfOk, None};
ghost use Rattle.std.specs.List.{filter_map, find, last_or};
ghost use Rattle.std.specs.Str.{str_eq_ignore_ascii_case};
ghost use Rattle.value_text.specs.Trims.{tab_or_space, trimmed};
ghost use Rattle.value_requests.specs.Names.{policy_name};
ghost use Rattle.value_requests.specs.ReferrerPolicies as spec;
ghost use Rattle.value_requests.specs.declared.mode.ReferrerPolicy.TheVariants.{Empty};

use crate::mode::ReferrerPolicy;
use std::alloc::Global;
use value_bytes::OutOfMemory;
use value_headers::HeaderList;
use value_text::{eq_fold, parts_between, trim_tab_or_space};

// The policies that a token names.
const NAMED_POLICIES: [ReferrerPolicy; 8] = [
    ReferrerPolicy::NoReferrer,
    ReferrerPolicy::NoReferrerWhenDowngrade,
    ReferrerPolicy::SameOrigin,
    ReferrerPolicy::Origin,
    ReferrerPolicy::StrictOrigin,
    ReferrerPolicy::OriginWhenCrossOrigin,
    ReferrerPolicy::StrictOriginWhenCrossOrigin,
    ReferrerPolicy::UnsafeUrl,
];

// The first of these policies that has the token's name, in any ASCII case.
fn first_named(policies: &[ReferrerPolicy], token: &[u8]) -> Option<ReferrerPolicy>
    ensures { result ≡ find (λ named. str_eq_ignore_ascii_case (policy_name named) token.now) policies.now }
{
    for policy in policies {
        if eq_fold(policy.name().as_bytes(), token) {
            return Some(*policy);
        }
    }
    None
}

// The policy that a token names.
fn policy_named(token: &[u8]) -> Option<ReferrerPolicy>
    ensures { result ≡ spec.policy_named token.now }
{
    first_named(&NAMED_POLICIES, token)
}

// The last policy that one of the parts names, without tabs and spaces around it; empty where none
// does.
fn last_named(parts: &[&[u8]]) -> ReferrerPolicy
    ensures { result ≡ unwrap_or (last_or None (filter_map spec.policy_named
        (map (trimmed tab_or_space) (map (λ part. part.now) parts.now)))) Empty }
{
    let mut last = ReferrerPolicy::Empty;
    for part in parts {
        if let Some(policy) = policy_named(trim_tab_or_space(part)) {
            last = policy;
        }
    }
    last
}

// The last policy that a token of the value names.
fn policy_of_value(alloc: Global, value: &[u8]) -> Result<ReferrerPolicy, OutOfMemory>
    ensures { IfOk result (λ policy. policy ≡ spec.policy_of_value value.now) }
{
    let parts = parts_between(alloc, value, b',')?;
    Ok(last_named(parts.as_slice()))
}

/// The referrer policy of a header list (Referrer Policy, section 8.1, "parse a referrer policy from a
/// `Referrer-Policy` header"): the last known token of the combined value, which is cut at commas;
/// `Empty` where none is known or there is no such header. Tokens are known in any ASCII case (this
/// project's own choice).
pub fn policy_of_header(alloc: Global, headers: &HeaderList) -> Result<ReferrerPolicy, OutOfMemory>
    ensures { IfOk result (λ policy. policy ≡ spec.policy_of_header headers.now) }
{
    match headers.get(alloc, b"Referrer-Policy")? {
        None => Ok(ReferrerPolicy::Empty),
        Some(value) => policy_of_value(alloc, value.as_slice()),
    }
}

/// The policy, or another one where it is empty. It takes no memory.
pub fn policy_or(policy: ReferrerPolicy, other: ReferrerPolicy) -> ReferrerPolicy
    ensures { result ≡ spec.policy_or policy other }
{
    match policy {
        ReferrerPolicy::Empty => other,
        _ => policy,
    }
}
