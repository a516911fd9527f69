// The serialised origin of a request (Fetch, section 2.2.5 "serializing a request origin").
ghost use Rattle.std.specs.Prelude.{◌≡◌, IfOk};
ghost use Rattle.policy_checks.specs.RequestOrigins as spec;

use std::alloc::Global;
use url::Url;
use value_bytes::{Bytes, OutOfMemory};
use value_origins::{Origin, have_same_origin, is_origin_of, serialize};
use value_requests::Request;

// Whether a redirect from one URL to the next taints the request's origin.
fn taints(origin: &Origin, url: &Url, next: &Url) -> bool
    ensures { result ≡ spec.taints origin.now url.now next.now }
{
    !have_same_origin(url, next) && !is_origin_of(origin, url)
}

// Whether a URL and those after it taint the request's origin.
fn tainted_from(origin: &Origin, url: &Url, urls: &[Url]) -> bool
    ensures { result ≡ spec.tainted_from origin.now url.now urls.now }
{
    let mut earlier = url;
    for next in urls {
        if taints(origin, earlier, next) {
            return true;
        }
        earlier = next;
    }
    false
}

// Whether a URL list has a tainted origin.
fn has_tainted_origin(origin: &Origin, urls: &[Url]) -> bool
    ensures { result ≡ spec.has_tainted_origin origin.now urls.now }
{
    match urls.split_first() {
        None => false,
        Some((url, rest)) => tainted_from(origin, url, rest),
    }
}

/// "serializing a request origin": `null` where the request has a redirect-tainted origin, and else
/// the serialization of its origin (Fetch, section 2.2.5).
///
/// The origin is tainted where two successive URLs of the URL list have different origins and the
/// request's origin is not that of the earlier one.
pub fn serialized_origin(alloc: Global, request: &Request) -> Result<Bytes, OutOfMemory>
    ensures { IfOk result (λ text. text ≡ spec.serialized_request_origin request.now) }
{
    if has_tainted_origin(&request.origin, request.urls.as_slice()) {
        Bytes::of(alloc, b"null")
    } else {
        serialize(alloc, &request.origin)
    }
}
