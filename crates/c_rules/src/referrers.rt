// The referrer that a request tells.
ghost use Rattle.c_rules.specs.Answers.{IsUnlessMemory};
ghost use Rattle.c_rules.specs.Referrers as spec;

use crate::reading::read_web_url;
use crate::refusal::Refusal;
use policy_checks::determine;
use std::alloc::Global;
use value_bytes::Bytes;
use value_requests::{ReferrerPolicy, policy_or};

/// The referrer that a policy tells the URL `target` of the page `source`, as a text, or none (Referrer Policy, section
/// 8.3, "determine request's Referrer"). The empty policy is as the default one, strict-origin-when-cross-origin.
/// `NotUrl` or `NotHttp`, of the first URL that is refused; a URL of 4 GB is want of memory.
pub fn told_referrer(
    alloc: Global,
    policy: ReferrerPolicy,
    source: &[u8],
    target: &[u8],
) -> Result<Option<Bytes>, Refusal>
    ensures { IsUnlessMemory result (spec.told_referrer policy source.now target.now) }
{
    let policy = policy_or(policy, ReferrerPolicy::StrictOriginWhenCrossOrigin);
    let source = read_web_url(alloc, source)?;
    let target = read_web_url(alloc, target)?;
    match determine(alloc, policy, &source, &target)? {
        None => Ok(None),
        Some(referrer) => Ok(Some(Bytes::of(alloc, referrer.as_str().as_bytes())?)),
    }
}
