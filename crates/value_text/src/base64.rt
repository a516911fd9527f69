// Base64 values, as nonces and hashes have them (CSP 3, section 2.3.1 "base64-value").
ghost use Rattle.std.specs.Prelude.{◌≡◌};
ghost use Rattle.std.specs.List.{list_all};
ghost use Rattle.value_text.specs.Base64 as spec;

use crate::among::is_among;
use crate::find::{after_byte, before_byte};

// The bytes of a base64 value beside letters and digits.
const MARKS: &[u8] = b"+/-_";

// What may follow the first `=` of a base64 value.
const PADDING_ENDS: [&[u8]; 2] = [b"", b"="];

// Whether the byte is a letter, a digit or a mark.
fn is_symbol(byte: u8) -> bool
    ensures { result ≡ spec.is_symbol byte }
{
    byte.is_ascii_alphanumeric() || MARKS.contains(&byte)
}

// Whether each byte is a symbol.
fn all_symbols(text: &[u8]) -> bool
    ensures { result ≡ list_all spec.is_symbol text.now }
{
    text.iter().all(|byte| is_symbol(*byte))
}

// Whether the text is one symbol or more.
fn are_symbols(text: &[u8]) -> bool
    ensures { result ≡ spec.are_symbols text.now }
{
    !text.is_empty() && all_symbols(text)
}

/// Whether the text is a base64 value: one or more of letters, digits, `+`, `/`, `-` and `_`, and then
/// at most two `=` (CSP 3, section 2.3.1, "base64-value"). It takes no memory.
pub fn is_base64_value(text: &[u8]) -> bool
    ensures { result ≡ spec.is_base64_value text.now }
{
    are_symbols(before_byte(text, b'=')) && is_among(&PADDING_ENDS, after_byte(text, b'='))
}
