// Values of Range that are safelisted (Fetch, section 2.2.2 "parse a single range header value").
ghost use Rattle.std.specs.Prelude.{◌≡◌, IsTrue};
ghost use Rattle.value_text.specs.Digits.{is_digits};
ghost use Rattle.policy_safelist.specs.Ranges as spec;

use value_text::{digits_at_most, is_digits, position_of};

// Whether the end is left out, or is digits and not below the start.
fn is_end_of(start: &[u8], end: &[u8]) -> bool
    requires { IsTrue (is_digits start.now) }
    ensures { result ≡ spec.is_end_of start.now end.now }
{
    end.is_empty() || (is_digits(end) && digits_at_most(start, end))
}

// Whether the text is digits, a dash, and an end.
fn is_span(text: &[u8]) -> bool
    ensures { result ≡ spec.is_span text.now }
{
    let Some(dash) = position_of(text, b'-') else {
        return false;
    };
    let start = text.split_at(dash).0;
    let end = text.split_at(dash + 1).1;
    is_digits(start) && is_end_of(start, end)
}

// Whether the value of a Range is `bytes=`, a start, a dash, and an end that is not below the start
// or is left out.
pub(crate) fn is_simple_range(value: &[u8]) -> bool
    ensures { result ≡ spec.is_simple_range value.now }
{
    match value.strip_prefix(b"bytes=") {
        Some(span) => is_span(span),
        None => false,
    }
}
