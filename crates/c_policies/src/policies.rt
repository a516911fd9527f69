// The policies of an answer.
ghost use Rattle.std.specs.Prelude.{◌≡◌, ◌≢◌};
ghost use Rattle.c_policies.specs.Headers.{HasPolicies, upgrades_code};

use c_checks::policies_in;
use c_handle::{Handle, OUT_OF_MEMORY, Thing, WRONG_HANDLE, yes_or_no};
use std::alloc::Global;

/// Makes in a handle the policies of a header list, parsed and read once (CSP 3, section 2.2, "parse a response's
/// Content Security Policies"): those of Content-Security-Policy, which are enforced, and then those of
/// Content-Security-Policy-Report-Only. They are numbered from 0 on in this order. What the handle held is freed.
///
/// `OK`; `WRONG_HANDLE`, of the header list; `OUT_OF_MEMORY`. Except for `OK` the handle holds what it held.
#[unsafe(no_mangle)]
pub extern "C" fn fiorrudda_policies(
    alloc: Global,
    policies: &mut Handle,
    headers: &mut Handle,
) -> u32
    ensures told { result ≢ OUT_OF_MEMORY → HasPolicies headers.old.held result policies.old.held policies.new.held }
    ensures out_of_memory { result ≡ OUT_OF_MEMORY → policies.new.held ≡ policies.old.held }
    ensures headers { headers.new.held ≡ headers.old.held }
{
    let Some(list) = headers.headers() else {
        return WRONG_HANDLE;
    };
    match policies_in(alloc, list) {
        Ok(found) => policies.fill(alloc, Thing::Policies(found)),
        Err(_) => OUT_OF_MEMORY,
    }
}

/// Whether an enforced policy has `upgrade-insecure-requests`: the page's requests for http URLs are then made for
/// https ones (Upgrade Insecure Requests, section 4.1, "upgrade request to a potentially trustworthy URL, if
/// appropriate").
///
/// `OK` where one has; `NO`, which alone leaves an http URL as it is; `WRONG_HANDLE`.
#[unsafe(no_mangle)]
pub extern "C" fn fiorrudda_upgrades(policies: &mut Handle) -> u32
    ensures told { result ≡ upgrades_code policies.old.held }
    ensures held { policies.new.held ≡ policies.old.held }
{
    let Some(compiled) = policies.policies() else {
        return WRONG_HANDLE;
    };
    yes_or_no(compiled.upgrades())
}
