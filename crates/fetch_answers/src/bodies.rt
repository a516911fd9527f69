// Which answers have a null body (Fetch, "main fetch", step 21), and which a coded one (RFC 9110, section 8.4).
ghost use Rattle.std.specs.Prelude.{◌≡◌, IfOk};
ghost use Rattle.std.specs.List.{list_any};
ghost use Rattle.fetch_answers.specs.Bodies as spec;

use std::alloc::Global;
use value_bytes::{Bytes, OutOfMemory};
use value_lists::split_values;
use value_requests::{Head, Request, is_null_body_status};

/// Whether the answer to a request has no body: the method is HEAD, or the status a null body status
/// (Fetch, "main fetch"). It takes no memory.
pub fn has_null_body(request: &Request, head: &Head) -> bool
    ensures { result ≡ spec.has_null_body request.now head.now }
{
    request.method.as_slice() == b"HEAD".as_slice() || is_null_body_status(head.status)
}

// Whether a coding changes the body.
fn is_other_coding(coding: &[u8]) -> bool
    ensures { result ≡ spec.is_other_coding coding.now }
{
    !coding.is_empty() && coding != b"identity".as_slice()
}

// Whether one of the codings changes the body.
fn any_changes(codings: &[Bytes]) -> bool
    ensures { result ≡ list_any spec.is_other_coding codings.now }
{
    codings
        .iter()
        .any(|coding| is_other_coding(coding.as_slice()))
}

/// Whether the body of an answer is coded: a value of Content-Encoding, after it was got, decoded and
/// split, is neither empty nor `identity`, byte for byte (RFC 9110, section 8.4; that no coding is
/// decoded is this project's own choice).
pub fn is_coded(alloc: Global, head: &Head) -> Result<bool, OutOfMemory>
    ensures { IfOk result (λ coded. coded ≡ spec.is_coded head.now) }
{
    let codings = split_values(alloc, &head.headers, b"Content-Encoding")?;
    Ok(match codings {
        None => false,
        Some(codings) => any_changes(codings.as_slice()),
    })
}
