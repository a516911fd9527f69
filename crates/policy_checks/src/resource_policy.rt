// Which responses a cross-origin resource policy blocks (Fetch, "cross-origin resource policy check").
ghost use Rattle.std.specs.Prelude.{◌≡◌, IfOk};
ghost use Rattle.policy_checks.specs.OriginHeader.{is_https};
ghost use Rattle.value_requests.specs.Requests.{IsRequest};
ghost use Rattle.policy_checks.specs.ResourcePolicy as spec;

use std::alloc::Global;
use value_bytes::OutOfMemory;
use value_headers::HeaderList;
use value_origins::{Origin, same_origin, same_site, tuple_origin};
use value_requests::Request;

// Whether Cross-Origin-Resource-Policy is this text.
fn has_resource_policy(headers: &HeaderList, text: &[u8]) -> bool
    ensures { result ≡ spec.has_resource_policy text.now headers.now }
{
    headers.has_value(b"Cross-Origin-Resource-Policy", text)
}

// Whether the scheme is https.
fn is_https(scheme: &[u8]) -> bool
    ensures { result ≡ is_https scheme.now }
{
    scheme == b"https".as_slice()
}

// Whether the origin of a URL is of one site with the request's, and the request's is no insecure origin
// that looks into a secure one.
fn is_within_site(origin: &Origin, url: &Origin) -> bool
    ensures { result ≡ spec.is_within_site origin.now url.now }
{
    same_site(origin, url)
        && (is_https(origin.scheme.as_slice()) || !is_https(url.scheme.as_slice()))
}

/// Whether Cross-Origin-Resource-Policy keeps an answer from a request of this origin, for the origin of the
/// URL that answered (Fetch, "cross-origin resource policy check"). `same-origin` blocks where that is not the
/// request's origin. `same-site` blocks where the two are not of one site, and where the request's
/// origin is not https and the other is. `cross-origin` blocks nothing, and so does every other value,
/// several joined values among them, and the absence of the header. It takes no memory.
pub fn corp_blocks(origin: &Origin, url: &Origin, headers: &HeaderList) -> bool
    ensures { result ≡ spec.corp_blocks origin.now url.now headers.now }
{
    if has_resource_policy(headers, b"same-origin") {
        !same_origin(origin, url)
    } else if has_resource_policy(headers, b"same-site") {
        !is_within_site(origin, url)
    } else {
        false
    }
}

/// Whether Cross-Origin-Resource-Policy keeps an answer from a request, whose current URL answered. The only
/// error is want of memory.
pub fn is_blocked(
    alloc: Global,
    request: &Request,
    headers: &HeaderList,
) -> Result<bool, OutOfMemory>
    requires { IsRequest request.now }
    ensures { IfOk result (λ blocked. blocked ≡ spec.is_blocked request.now headers.now) }
{
    let url = tuple_origin(alloc, request.current_url())?;
    Ok(corp_blocks(&request.origin, &url, headers))
}
