// Forbidden and CORS-safelisted response-header names (Fetch, section 2.2.2).
ghost use Rattle.std.specs.Prelude.{◌≡◌};
ghost use Rattle.policy_filter.specs.Names as spec;
ghost use Rattle.policy_checks.specs.PermittedNames as permitted;

use policy_checks::has_name_among;
use value_bytes::Bytes;
use value_headers::Field;
use value_text::eq_fold;

// The forbidden response-header names.
const FORBIDDEN_NAMES: [&[u8]; 2] = [b"Set-Cookie", b"Set-Cookie2"];

// The names that are CORS-safelisted whatever is exposed.
const SAFELISTED_NAMES: [&[u8]; 7] = [
    b"Cache-Control",
    b"Content-Language",
    b"Content-Length",
    b"Content-Type",
    b"Expires",
    b"Last-Modified",
    b"Pragma",
];

// Whether the header has one of these names.
fn has_name_in(names: &[Bytes], header: &Field) -> bool
    ensures { result ≡ permitted.has_name_among names.now header.now }
{
    names
        .iter()
        .any(|name| eq_fold(header.name(), name.as_slice()))
}

// Whether the header has a forbidden response-header name (Fetch, section 2.2.2).
pub fn is_forbidden(header: &Field) -> bool
    ensures { result ≡ spec.is_forbidden header.now }
{
    has_name_among(&FORBIDDEN_NAMES, header)
}

// Whether the header has a name that is CORS-safelisted whatever is exposed.
pub fn has_safelisted_name(header: &Field) -> bool
    ensures { result ≡ permitted.has_name_among spec.safelisted_names header.now }
{
    has_name_among(&SAFELISTED_NAMES, header)
}

// Whether the header has a CORS-safelisted response-header name, given a list of exposed names
// (Fetch, section 2.2.2).
pub fn is_safelisted(exposed: &[Bytes], header: &Field) -> bool
    ensures { result ≡ spec.is_safelisted exposed.now header.now }
{
    has_safelisted_name(header) || (has_name_in(exposed, header) && !is_forbidden(header))
}
