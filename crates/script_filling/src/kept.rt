// What is kept of a header value while it is filled.
ghost use Rattle.std.specs.Prelude.{◌≡◌, IfOk};
ghost use Rattle.value_text.specs.Trims.{http_whitespace, trimmed_end, trimmed_start};
ghost use Rattle.script_filling.specs.Private.Squeezes as short;

use std::alloc::Global;
use value_bytes::OutOfMemory;

/// How many bytes of a header value are handed on at most, but for its mark: as many as the headers of a request may
/// have together.
pub(crate) const MOST_VALUE: usize = 16_384;

/// How many bytes a header value grows to before its rest is looked at and no longer kept.
const MOST_GROWN: usize = 65_536;

// The HTTP whitespace bytes.
const HTTP_WHITESPACE: &[u8] = b"\t\n\r ";

// The text without HTTP whitespace at its start.
fn trim_start(text: &[u8]) -> &[u8]
    ensures { result.now ≡ trimmed_start http_whitespace text.now }
{
    let mut rest = text;
    while let [first, after @ ..] = rest {
        if !HTTP_WHITESPACE.contains(first) {
            break;
        }
        rest = after;
    }
    rest
}

// The text without HTTP whitespace at its end.
fn trim_end(text: &[u8]) -> &[u8]
    ensures { result.now ≡ trimmed_end http_whitespace text.now }
{
    let mut rest = text;
    while let [before @ .., last] = rest {
        if !HTTP_WHITESPACE.contains(last) {
            break;
        }
        rest = before;
    }
    rest
}

// Whether the text has neither NUL nor CR nor LF.
fn all_fit(text: &[u8]) -> bool
    ensures { result ≡ short.all_fit text.now }
{
    text.iter()
        .all(|byte| !(*byte == 0 || *byte == b'\n' || *byte == b'\r'))
}

// What stands for the bytes behind those that are kept: no more than is needed to see whether there are any but blanks,
// whether one of them is none that a header value has, and whether there is a line end among the blanks at their end.
fn stand_in(rest: &[u8]) -> &'static [u8]
    ensures { result.now ≡ short.stand_in rest.now }
{
    let ended = trim_end(rest);
    if ended.is_empty() {
        if all_fit(rest) { b"" } else { b"\n" }
    } else if !all_fit(ended) {
        b"\0"
    } else if all_fit(rest) {
        b"a"
    } else {
        b"a\n"
    }
}

// A header value without blanks at its start, and with what stands for all that is behind its first 16,384 bytes.
fn squeezed(alloc: Global, text: &[u8]) -> Result<Vec<u8>, OutOfMemory>
    ensures { IfOk result (λ made. made.items ≡ short.squeezed text.now) }
{
    let begun = trim_start(text);
    if begun.len() <= MOST_VALUE {
        return Ok(Vec::from_slice(alloc, begun)?);
    }
    let (front, rest) = begun.split_at(MOST_VALUE);
    let mut made = Vec::from_slice(alloc, front)?;
    made.extend_from_slice(stand_in(rest))?;
    Ok(made)
}

/// What is kept of the beginning of a header value: all of it, or, where it is long, no more than is needed. Once what
/// follows is put behind it, it is normalised and cut to the same as the whole one.
pub(crate) fn kept(alloc: Global, text: Vec<u8>) -> Result<Vec<u8>, OutOfMemory>
    ensures { IfOk result (λ made. short.CutAlike made.items text.items) }
{
    if text.len() <= MOST_GROWN {
        return Ok(text);
    }
    let made = squeezed(alloc, text.as_slice())?;
    Ok(made)
}
