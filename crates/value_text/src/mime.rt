// The essence of a MIME type (MIME Sniffing, sections 4.1 and 4.4).
ghost use Rattle.std.specs.Prelude.{◌≡◌, ◌==◌, map, option_copied};
ghost use Rattle.std.specs.Char.{to_ascii_lowercase};
ghost use Rattle.std.specs.List.{list_all, zip};
ghost use Rattle.std.specs.Str.{bytes_eq, str_to_ascii_lowercase};
ghost use Rattle.value_text.specs.Mime.{has_essence, subtype_of, type_and_subtype, type_of, written_essence};

use crate::find::{after_byte, before_byte};
use crate::token::is_token;
use crate::trim::{trim_http, trim_http_end};

/// The type, slash and subtype of a MIME type, in the case that they are written in. `None` exactly
/// where the value is no MIME type (MIME Sniffing, section 4.4).
pub fn written_essence(value: &[u8]) -> Option<&[u8]>
    ensures { option_copied result ≡ written_essence value.now }
{
    type_and_subtype(trim_http(value))
}

/// Whether the value is a MIME type with this essence, which is in lower case.
pub fn essence_is(value: &[u8], essence: &[u8]) -> bool
    ensures { result ≡ has_essence value.now essence.now }
{
    match written_essence(value) {
        Some(written) => is_lower_case_of(essence, written),
        None => false,
    }
}

// The type and the subtype with the slash between, where both are tokens.
fn type_and_subtype(text: &[u8]) -> Option<&[u8]>
    ensures { option_copied result ≡ type_and_subtype text.now }
{
    let kind = type_of(text);
    let subtype = subtype_of(text);
    if is_token(kind) && is_token(subtype) {
        Some(text.split_at(kind.len() + 1 + subtype.len()).0)
    } else {
        None
    }
}

// What is before the slash.
fn type_of(text: &[u8]) -> &[u8]
    ensures { result.now ≡ type_of text.now }
{
    before_byte(text, b'/')
}

// What is after the slash, up to a semicolon or the end, without whitespace at its end.
fn subtype_of(text: &[u8]) -> &[u8]
    ensures { result.now ≡ subtype_of text.now }
{
    trim_http_end(before_byte(after_byte(text, b'/'), b';'))
}

// Whether the bytes of the text in lower case are these.
fn is_lower_case_of(lower: &[u8], text: &[u8]) -> bool
    ensures { result ≡ bytes_eq (str_to_ascii_lowercase text.now) lower.now }
{
    lower.len() == text.len() && are_lowered(lower, text)
}

// Whether each byte of the text in lower case is that of the other; both are of one length.
fn are_lowered(lower: &[u8], text: &[u8]) -> bool
    ensures { result ≡ list_all (λ pair. to_ascii_lowercase pair.0 == pair.1) (zip text.now lower.now) }
{
    text.iter()
        .zip(lower)
        .all(|(byte, low)| byte.to_ascii_lowercase() == *low)
}
