// The values of Origin (Fetch, section 3.2) and of Referer (Fetch, section 4.6).
ghost use Rattle.std.specs.Prelude.{◌≡◌, option_copied, IfOk};
ghost use Rattle.policy_checks.specs.OriginHeader as spec;

use crate::request_origin::serialized_origin;
use std::alloc::Global;
use url::Url;
use value_bytes::{Bytes, OutOfMemory};
use value_origins::{Origin, is_origin_of};
use value_requests::{Referrer, ReferrerPolicy, Request, is_get_or_head};

// Whether it goes from an https origin to a URL that is not https.
fn is_downgrade(origin: &Origin, url: &Url) -> bool
    ensures { result ≡ spec.is_downgrade origin.now url.now }
{
    origin.scheme.as_slice() == b"https".as_slice() && url.scheme() != "https"
}

// Whether the policy keeps the origin from a URL.
fn hides_origin(policy: ReferrerPolicy, origin: &Origin, url: &Url) -> bool
    ensures { result ≡ spec.hides_origin policy origin.now url.now }
{
    match policy {
        ReferrerPolicy::NoReferrer => true,
        ReferrerPolicy::NoReferrerWhenDowngrade
        | ReferrerPolicy::StrictOrigin
        | ReferrerPolicy::StrictOriginWhenCrossOrigin => is_downgrade(origin, url),
        ReferrerPolicy::SameOrigin => !is_origin_of(origin, url),
        ReferrerPolicy::Empty
        | ReferrerPolicy::Origin
        | ReferrerPolicy::OriginWhenCrossOrigin
        | ReferrerPolicy::UnsafeUrl => false,
    }
}

// The origin as it is told to a URL, where the tainting is not cors.
fn told_origin(alloc: Global, request: &Request, url: &Url) -> Result<Bytes, OutOfMemory>
    ensures { IfOk result (λ text. text ≡ spec.told_origin request.now url.now) }
{
    if !request.mode.is_cors() && hides_origin(request.policy, &request.origin, url) {
        Bytes::of(alloc, b"null")
    } else {
        serialized_origin(alloc, request)
    }
}

/// The value of Origin in a request that is sent to a URL, where it has one ("append a request
/// `Origin` header", Fetch, section 3.2): the serialised request origin where the tainting is cors;
/// none for another GET or HEAD; else the same text, or `null` where the mode is not cors and the
/// referrer policy keeps the origin from the URL.
pub fn origin_value(
    alloc: Global,
    request: &Request,
    url: &Url,
) -> Result<Option<Bytes>, OutOfMemory>
    ensures { IfOk result (λ value. value ≡ spec.origin_value request.now url.now) }
{
    if request.tainting.is_cors() {
        Ok(Some(serialized_origin(alloc, request)?))
    } else if is_get_or_head(request.method.as_slice()) {
        Ok(None)
    } else {
        Ok(Some(told_origin(alloc, request, url)?))
    }
}

/// The value of Referer: the text of a referrer that is a URL (Fetch, section 4.6). It takes no
/// memory.
pub fn referrer_value(referrer: &Referrer) -> Option<&[u8]>
    ensures { option_copied result ≡ spec.referrer_value referrer.now }
{
    match referrer {
        Referrer::Address(url) => Some(url.as_str().as_bytes()),
        Referrer::NoReferrer | Referrer::Client => None,
    }
}
