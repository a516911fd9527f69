// The referrer that a policy tells of a URL (Referrer Policy, section 8.3 "determine request's Referrer").
ghost use Rattle.std.specs.Prelude.{◌≡◌, IfOk, IfSome, IsTrue};
ghost use Rattle.policy_checks.specs.Referrer as spec;
ghost use Rattle.value_requests.specs.Requests.{is_http_url, is_policy};

use crate::strip::{origin_only, whole};
use std::alloc::Global;
use url::Url;
use value_bytes::OutOfMemory;
use value_origins::{have_same_origin, is_trustworthy_url};
use value_requests::ReferrerPolicy;

// Whether it goes from a potentially trustworthy URL to one that is not.
fn is_downgrade(source: &Url, target: &Url) -> bool
    ensures { result ≡ spec.is_downgrade source.now target.now }
{
    is_trustworthy_url(source) && !is_trustworthy_url(target)
}

/// The referrer that a policy tells a target URL of a source URL, or none (Referrer Policy, section
/// 8.3, "determine request's Referrer"): the source without user name, password and fragment, which
/// is cut to its origin where its text is longer than 4,096 bytes, or the source's origin with the
/// path `/`; it is http or https. The policy is not the empty one, and both URLs are. The only error is want
/// of memory, which a URL of 4 GB counts as.
pub fn determine(
    alloc: Global,
    policy: ReferrerPolicy,
    source: &Url,
    target: &Url,
) -> Result<Option<Url>, OutOfMemory>
    requires policy { IsTrue (is_policy policy) }
    requires source { IsTrue (is_http_url source.now) }
    requires target { IsTrue (is_http_url target.now) }
    ensures value { IfOk result (λ referrer. referrer ≡ spec.determine policy source.now target.now) }
    ensures http { IfOk result (λ referrer. IfSome referrer (λ url. IsTrue (is_http_url url))) }
{
    match policy {
        ReferrerPolicy::Empty | ReferrerPolicy::NoReferrer => Ok(None),
        ReferrerPolicy::Origin => origin_only(source),
        ReferrerPolicy::UnsafeUrl => whole(source),
        ReferrerPolicy::SameOrigin => {
            if have_same_origin(source, target) {
                whole(source)
            } else {
                Ok(None)
            }
        }
        ReferrerPolicy::OriginWhenCrossOrigin => {
            if have_same_origin(source, target) {
                whole(source)
            } else {
                origin_only(source)
            }
        }
        ReferrerPolicy::StrictOrigin => {
            if is_downgrade(source, target) {
                Ok(None)
            } else {
                origin_only(source)
            }
        }
        ReferrerPolicy::StrictOriginWhenCrossOrigin => {
            if have_same_origin(source, target) {
                whole(source)
            } else if is_downgrade(source, target) {
                Ok(None)
            } else {
                origin_only(source)
            }
        }
        ReferrerPolicy::NoReferrerWhenDowngrade => {
            if is_downgrade(source, target) {
                Ok(None)
            } else {
                whole(source)
            }
        }
    }
}
