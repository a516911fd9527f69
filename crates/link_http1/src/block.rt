// What a block of an answer is: no head, a head that is skipped, or the final one (RFC 9112, section 2.1).
ghost use Rattle.std.specs.Prelude.{◌≡◌, ◌≤◌, ◌==◌, ◌||◌, [], length, map, All, IfOk};
ghost use Rattle.std.specs.List.{list_any};
ghost use Rattle.httparse.specs.Spans.{header_bytes, IsHeaderWithin};
ghost use Rattle.link_http1.specs.Blocks as spec;
ghost use Rattle.link_http1.specs.Heads as heads;
ghost use Rattle.link_http1.specs.Private.HeadReading.{HasRoom, IsJudged, line_ends as spec_line_ends, with_pairs};

use httparse::Status;
use httparse::spans::{EMPTY_HEADER_SPAN, HeaderSpan, parse_response};
use std::alloc::Global;
use value_bytes::OutOfMemory;
use value_headers::HeaderList;
use value_requests::Head;

// How many header lines a head has at most.
pub(crate) const MOST_LINES: usize = 128;

// How many header lines most heads have at most: where a block has no more line ends, room for so many
// is made.
pub(crate) const FEW_LINES: usize = 16;

/// What a block is.
#[derive(Drop)]
pub(crate) enum Judged {
    /// No head.
    NoHead,
    /// A head that is skipped.
    Skipped,
    /// Another head.
    Final(Head),
}

// Whether a byte of a line is among the bytes.
fn has_line_byte(bytes: &[u8]) -> bool
    ensures { result ≡ list_any spec.is_line_byte bytes.now }
{
    bytes.iter().any(|byte| !(*byte == b'\r' || *byte == b'\n'))
}

// Whether there was a byte of a line, or one is among the bytes that follow.
pub(crate) fn had_or_has_line_byte(had: bool, bytes: &[u8]) -> bool
    ensures { result ≡ (had || list_any spec.is_line_byte bytes.now) }
{
    had || has_line_byte(bytes)
}

// Whether the bytes are a block.
pub(crate) fn is_block(bytes: &[u8], has_line_byte: bool) -> bool
    requires { has_line_byte ≡ list_any spec.is_line_byte bytes.now }
    ensures { result ≡ spec.is_block bytes.now }
{
    has_line_byte && (bytes.ends_with(b"\n\n") || bytes.ends_with(b"\n\r\n"))
}

// Whether a head with this status is skipped.
fn is_skipped(status: u16) -> bool
    ensures { result ≡ heads.is_skipped status }
{
    100 <= status && status <= 199 && status != 101
}

// The header list of the header lines of a block.
pub(crate) fn headers_of(
    alloc: Global,
    block: &[u8],
    lines: &[HeaderSpan],
) -> Result<HeaderList, OutOfMemory>
    requires { All (IsHeaderWithin (length block.now)) lines.now }
    ensures { IfOk result (λ headers. headers ≡ with_pairs [] (map (header_bytes block.now) lines.now)) }
{
    let mut headers = HeaderList::with_room(alloc, lines.len())?;
    for line in lines {
        headers.append(line.name.of(block), line.value.of(block))?;
    }
    Ok(headers)
}

// How many line ends there are.
pub(crate) fn line_ends(block: &[u8]) -> usize
    ensures { result ≡ spec_line_ends block.now }
{
    block.iter().filter(|byte| **byte == b'\n').count()
}

// What a block is, whose header lines find room.
fn judge_within(
    alloc: Global,
    block: &[u8],
    lines: &mut [HeaderSpan],
) -> Result<Judged, OutOfMemory>
    requires room { HasRoom block.now (length lines.old) }
    requires most { length lines.old ≤ MOST_LINES }
    ensures { IfOk result (λ judged. IsJudged block.now judged) }
{
    match parse_response(block, lines) {
        Ok(Status::Complete(head)) => {
            if head.len != block.len() {
                Ok(Judged::NoHead)
            } else if is_skipped(head.code) {
                Ok(Judged::Skipped)
            } else {
                let headers = headers_of(alloc, block, &lines[..head.headers])?;
                Ok(Judged::Final(Head {
                    status: head.code,
                    headers,
                }))
            }
        }
        Ok(Status::Partial) => Ok(Judged::NoHead),
        Err(_) => Ok(Judged::NoHead),
    }
}

// What a block is that has few header lines. A function of its own, so that no other makes its room.
fn judge_few(alloc: Global, block: &[u8]) -> Result<Judged, OutOfMemory>
    requires { HasRoom block.now FEW_LINES }
    ensures { IfOk result (λ judged. IsJudged block.now judged) }
{
    judge_within(alloc, block, &mut [EMPTY_HEADER_SPAN; FEW_LINES])
}

// What a block is that may have as many header lines as a head has at most.
fn judge_many(alloc: Global, block: &[u8]) -> Result<Judged, OutOfMemory>
    ensures { IfOk result (λ judged. IsJudged block.now judged) }
{
    judge_within(alloc, block, &mut [EMPTY_HEADER_SPAN; MOST_LINES])
}

// What a block is: it is a head where the parser reads one that has just its bytes.
pub(crate) fn judge(alloc: Global, block: &[u8]) -> Result<Judged, OutOfMemory>
    ensures { IfOk result (λ judged. IsJudged block.now judged) }
{
    if line_ends(block) <= FEW_LINES {
        judge_few(alloc, block)
    } else {
        judge_many(alloc, block)
    }
}
