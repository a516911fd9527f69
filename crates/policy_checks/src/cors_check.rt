// The CORS check of a response (Fetch, section 4.10 "CORS check").
ghost use Rattle.std.specs.Prelude.{◌≡◌, IfOk};
ghost use Rattle.policy_checks.specs.CorsCheck as spec;

use crate::request_origin::serialized_origin;
use std::alloc::Global;
use value_bytes::OutOfMemory;
use value_headers::HeaderList;
use value_requests::Request;

// Whether any origin is allowed.
fn allows_any(headers: &HeaderList) -> bool
    ensures { result ≡ spec.allows_any headers.now }
{
    headers.has_value(b"Access-Control-Allow-Origin", b"*")
}

// Whether this origin is allowed, by its own name.
fn allows_origin(origin: &[u8], headers: &HeaderList) -> bool
    ensures { result ≡ spec.allows_origin origin.now headers.now }
{
    headers.has_value(b"Access-Control-Allow-Origin", origin)
}

// Whether credentials are allowed.
fn allows_credentials(headers: &HeaderList) -> bool
    ensures { result ≡ spec.allows_credentials headers.now }
{
    headers.has_value(b"Access-Control-Allow-Credentials", b"true")
}

/// "CORS check" of an answer's header list, for the serialised origin of a request and whether its
/// credentials mode is include (Fetch, "CORS check"). It fails where Access-Control-Allow-Origin is
/// absent. Without include it succeeds for `*` and for the origin, byte for byte. With include it
/// succeeds for the origin alone, and only where Access-Control-Allow-Credentials is `true`. It takes
/// no memory.
pub fn passes_cors_check(origin: &[u8], include: bool, headers: &HeaderList) -> bool
    ensures { result ≡ spec.passes_cors_check origin.now include headers.now }
{
    if include {
        allows_origin(origin, headers) && allows_credentials(headers)
    } else {
        allows_any(headers) || allows_origin(origin, headers)
    }
}

/// "CORS check" of an answer's header list, for a request. The only error is want of memory.
pub fn passes_check(
    alloc: Global,
    request: &Request,
    headers: &HeaderList,
) -> Result<bool, OutOfMemory>
    ensures { IfOk result (λ passes. passes ≡ spec.passes_check request.now headers.now) }
{
    let origin = serialized_origin(alloc, request)?;
    let include = request.credentials.is_include();
    Ok(passes_cors_check(origin.as_slice(), include, headers))
}
