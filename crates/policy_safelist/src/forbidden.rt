// Forbidden methods and forbidden request-headers (Fetch, sections 2.2.1 and 2.2.2).
ghost use Rattle.std.specs.Prelude.{◌≡◌, IfOk};
ghost use Rattle.std.specs.List.{list_any};
ghost use Rattle.policy_safelist.specs.Forbidden as spec;

use std::alloc::Global;
use value_bytes::{BytesList, OutOfMemory};
use value_lists::split_value;
use value_text::{eq_fold, is_among_fold};

// The forbidden methods.
const FORBIDDEN_METHODS: [&[u8]; 3] = [b"CONNECT", b"TRACE", b"TRACK"];

// The names of headers that only the user agent sets.
const FORBIDDEN_NAMES: [&[u8]; 21] = [
    b"Accept-Charset",
    b"Accept-Encoding",
    b"Access-Control-Request-Headers",
    b"Access-Control-Request-Method",
    b"Connection",
    b"Content-Length",
    b"Cookie",
    b"Cookie2",
    b"Date",
    b"DNT",
    b"Expect",
    b"Host",
    b"Keep-Alive",
    b"Origin",
    b"Referer",
    b"Set-Cookie",
    b"TE",
    b"Trailer",
    b"Transfer-Encoding",
    b"Upgrade",
    b"Via",
];

// The prefixes for which a name is forbidden.
const FORBIDDEN_PREFIXES: [&[u8]; 2] = [b"proxy-", b"sec-"];

// The names of headers whose values override the method.
const OVERRIDE_NAMES: [&[u8]; 3] = [
    b"X-HTTP-Method",
    b"X-HTTP-Method-Override",
    b"X-Method-Override",
];

/// Whether a method is forbidden: CONNECT, TRACE or TRACK, in any ASCII case (Fetch, section
/// 2.2.1, "forbidden method"). It takes no memory.
pub fn is_forbidden_method(method: &[u8]) -> bool
    ensures { result ≡ spec.is_forbidden_method method.now }
{
    is_among_fold(&FORBIDDEN_METHODS, method)
}

// Whether the text begins with the prefix, ASCII case aside.
fn begins_with(prefix: &[u8], text: &[u8]) -> bool
    ensures { result ≡ spec.begins_with prefix.now text.now }
{
    text.len() >= prefix.len() && eq_fold(text.split_at(prefix.len()).0, prefix)
}

// Whether the text begins with one of the prefixes.
fn begins_with_any(prefixes: &[&[u8]], text: &[u8]) -> bool
    ensures { result ≡ list_any (λ prefix. spec.begins_with prefix.now text.now) prefixes.now }
{
    prefixes.iter().any(|prefix| begins_with(prefix, text))
}

// Whether one of the methods is forbidden.
fn has_forbidden_method(methods: &BytesList) -> bool
    ensures { result ≡ list_any spec.is_forbidden_method methods.now }
{
    for index in 0..methods.len() {
        if is_forbidden_method(methods.at(index)) {
            return true;
        }
    }
    false
}

/// Whether a name and a value are a forbidden request-header (Fetch, section 2.2.2, "forbidden request-header").
pub fn is_forbidden_header(alloc: Global, name: &[u8], value: &[u8]) -> Result<bool, OutOfMemory>
    ensures { IfOk result (λ forbidden. forbidden ≡ spec.is_forbidden_header name.now value.now) }
{
    if is_among_fold(&FORBIDDEN_NAMES, name) || begins_with_any(&FORBIDDEN_PREFIXES, name) {
        return Ok(true);
    }
    if !is_among_fold(&OVERRIDE_NAMES, name) {
        return Ok(false);
    }
    let methods = split_value(alloc, value)?;
    Ok(has_forbidden_method(&methods))
}
