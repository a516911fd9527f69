// CORS-safelisted request-headers (Fetch, section 2.2.2).
ghost use Rattle.std.specs.Prelude.{◌≡◌, not};
ghost use Rattle.std.specs.List.{list_all, list_any};
ghost use Rattle.value_text.specs.Mime.{has_essence};
ghost use Rattle.policy_safelist.specs.Safelisted as spec;

use crate::range::is_simple_range;
use value_text::{essence_is, is_among_fold};

// How many bytes a safelisted value has at most.
const LONGEST_VALUE: usize = 128;

// The CORS-unsafe request-header bytes that are neither control bytes nor DEL.
const UNSAFE_MARKS: &[u8] = b"\"():<>?@[\\]{}";

// The bytes of a language list that are neither letters nor digits.
const LANGUAGE_MARKS: &[u8] = b" *,-.;=";

// The essences of the types that a form sends.
const FORM_TYPES: [&[u8]; 3] = [
    b"application/x-www-form-urlencoded",
    b"multipart/form-data",
    b"text/plain",
];

// Whether the byte is a CORS-unsafe request-header byte.
fn is_unsafe_byte(byte: u8) -> bool
    ensures { result ≡ spec.is_unsafe_byte byte }
{
    (byte < b' ' && byte != b'\t') || UNSAFE_MARKS.contains(&byte) || byte == 0x7f
}

// Whether no byte of the value is a CORS-unsafe request-header byte.
fn has_no_unsafe_byte(value: &[u8]) -> bool
    ensures { result ≡ spec.has_no_unsafe_byte value.now }
{
    value.iter().all(|byte| !is_unsafe_byte(*byte))
}

// Whether a language list may have the byte.
fn is_language_byte(byte: u8) -> bool
    ensures { result ≡ spec.is_language_byte byte }
{
    byte.is_ascii_alphanumeric() || LANGUAGE_MARKS.contains(&byte)
}

// Whether each byte of the value is one that a language list may have.
fn is_language_list(value: &[u8]) -> bool
    ensures { result ≡ list_all spec.is_language_byte value.now }
{
    value.iter().all(|byte| is_language_byte(*byte))
}

// Whether the value is a MIME type with one of these essences.
fn has_essence_among(value: &[u8], essences: &[&[u8]]) -> bool
    ensures { result ≡ list_any (λ essence. has_essence value.now essence.now) essences.now }
{
    essences.iter().any(|essence| essence_is(value, essence))
}

// Whether the value is one that is safelisted for the name, however long.
fn has_safelisted_form(name: &[u8], value: &[u8]) -> bool
    ensures { result ≡ spec.has_safelisted_form name.now value.now }
{
    if is_among_fold(&[b"Accept"], name) {
        has_no_unsafe_byte(value)
    } else if is_among_fold(&[b"Accept-Language", b"Content-Language"], name) {
        is_language_list(value)
    } else if is_among_fold(&[b"Content-Type"], name) {
        has_no_unsafe_byte(value) && has_essence_among(value, &FORM_TYPES)
    } else if is_among_fold(&[b"Range"], name) {
        is_simple_range(value)
    } else {
        false
    }
}

/// Whether a name and a value are a CORS-safelisted request-header (Fetch, section 2.2.2).
///
/// The value has at most 128 bytes. By the name, in any ASCII case: `Accept` has no CORS-unsafe byte;
/// `Accept-Language` and `Content-Language` have letters, digits, spaces and `*,-.;=` alone;
/// `Content-Type` has no CORS-unsafe byte, and the essence of a type that a form sends; `Range` is
/// `bytes=`, a start, a dash, and an end that is not below the start or is left out. No other name is
/// safelisted. It takes no memory.
pub fn is_safelisted(name: &[u8], value: &[u8]) -> bool
    ensures { result ≡ spec.is_safelisted name.now value.now }
{
    value.len() <= LONGEST_VALUE && has_safelisted_form(name, value)
}
