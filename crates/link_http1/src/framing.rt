// How the body of an answer is framed (RFC 9112, section 6.3).
ghost use Rattle.std.specs.Prelude.{◌≡◌, ◌==◌, IfOk, IfSome, IsTrue, option_copied};
ghost use Rattle.std.specs.List.{list_all};
ghost use Rattle.std.specs.Str.Parse.{digits_value};
ghost use Rattle.value_text.specs.Digits.{is_digits, writes};
ghost use Rattle.link_http1.specs.Framings as spec;
ghost use Rattle.link_http1.specs.Private.Lengths.{first_value, shortened};

use std::alloc::Global;
use value_bytes::{BytesList, OutOfMemory};
use value_headers::{Field, HeaderList};
use value_lists::split_values;
use value_requests::Head;
use value_text::{digits_at_most, eq_fold, parse_digits, trim_tab_or_space};

/// How the body of an answer is framed (RFC 9112, section 6.3).
#[derive(Clone, Copy, Debug, PartialEq, Eq)]
pub enum Framing {
    /// The answer has no body on the wire: its status is 204 or 304.
    Nothing,
    /// In chunks.
    Chunked,
    /// So many bytes; a greater number is the greatest one of 64 bits.
    Length(u64),
    /// All bytes up to the end of the answer.
    ToEnd,
    /// The head names another coding than chunked, or lengths that differ or are no numbers.
    Broken,
}

/// The framing that a head tells: by its status, then by Transfer-Encoding, then by Content-Length, and
/// else up to the end (RFC 9112, section 6.3).
pub fn framing_of(alloc: Global, head: &Head) -> Result<Framing, OutOfMemory>
    ensures { IfOk result (λ framing. framing ≡ spec.framing_of head.now) }
{
    if has_no_body(head.status) {
        return Ok(Framing::Nothing);
    }
    match head.headers.get(alloc, b"Transfer-Encoding")? {
        Some(coding) => Ok(of_coding(coding.as_slice())),
        None => of_content_length(alloc, &head.headers),
    }
}

// Whether an answer with this status has no body on the wire: No Content and Not Modified.
fn has_no_body(status: u16) -> bool
    ensures { result ≡ spec.has_no_body status }
{
    status == 204 || status == 304
}

// By the value of Transfer-Encoding, of which chunked alone is taken.
fn of_coding(coding: &[u8]) -> Framing
    ensures { result ≡ spec.of_coding coding.now }
{
    if eq_fold(trim_tab_or_space(coding), b"chunked") {
        Framing::Chunked
    } else {
        Framing::Broken
    }
}

// The value of the first header of that name.
fn first_value<'a>(headers: &'a [Field], name: &[u8]) -> Option<&'a [u8]>
    ensures { option_copied result ≡ first_value name.now headers.now }
{
    for header in headers {
        if eq_fold(header.name(), name) {
            return Some(header.value());
        }
    }
    None
}

// The length that one value of Content-Length tells by its digits alone, as most do. It takes no memory.
fn length_alone(headers: &HeaderList) -> Option<u64>
    ensures { IfSome result (λ length. spec.of_content_length headers.now ≡ Framing.Length length) }
{
    let value = first_value(headers.as_slice(), b"Content-Length")?;
    if headers.has_value(b"Content-Length", value) {
        parse_digits(value, u64::MAX)
    } else {
        None
    }
}

// By the values of Content-Length, and to the end where there are none.
fn of_content_length(alloc: Global, headers: &HeaderList) -> Result<Framing, OutOfMemory>
    ensures { IfOk result (λ framing. framing ≡ spec.of_content_length headers.now) }
{
    if let Some(length) = length_alone(headers) {
        return Ok(Framing::Length(length));
    }
    match split_values(alloc, headers, b"Content-Length")? {
        Some(texts) => Ok(of_lengths(&texts)),
        None => Ok(Framing::ToEnd),
    }
}

// So many bytes, where all texts are digits of one number.
fn of_lengths(texts: &BytesList) -> Framing
    ensures { result ≡ spec.by_lengths texts.now }
{
    if texts.len() == 0 {
        return Framing::Broken;
    }
    let first = texts.at(0);
    match parse_digits(first, u64::MAX) {
        Some(length) if all_write(texts, shortened(first)) => Framing::Length(length),
        _ => Framing::Broken,
    }
}

// The digits without the zeros in front, down to one digit. Each text of a list is compared with them, so
// the first text's zeros are read once, and not once for each text.
fn shortened(digits: &[u8]) -> &[u8]
    ensures { result.now ≡ shortened digits.now }
{
    let mut rest = digits;
    while let [b'0', _, ..] = rest {
        rest = rest.split_at(1).1;
    }
    rest
}

// Whether all texts are digits of the number that these digits write.
fn all_write(texts: &BytesList, digits: &[u8]) -> bool
    requires { IsTrue (is_digits digits.now) }
    ensures { result ≡ list_all (writes (digits_value 10 digits.now)) texts.now }
{
    for index in 0..texts.len() {
        if !writes_same(texts.at(index), digits) {
            return false;
        }
    }
    true
}

// Whether the text is digits of the number that these digits write.
fn writes_same(text: &[u8], digits: &[u8]) -> bool
    requires { IsTrue (is_digits digits.now) }
    ensures { result ≡ writes (digits_value 10 digits.now) text.now }
{
    parse_digits(text, 0).is_some() && are_equal(text, digits)
}

// Whether two texts of digits write one number, however many digits there are.
fn are_equal(text: &[u8], digits: &[u8]) -> bool
    requires text { IsTrue (is_digits text.now) }
    requires digits { IsTrue (is_digits digits.now) }
    ensures { result ≡ (digits_value 10 text.now == digits_value 10 digits.now) }
{
    digits_at_most(text, digits) && digits_at_most(digits, text)
}
