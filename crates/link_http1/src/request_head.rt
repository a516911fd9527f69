// Reads the head of a request, as a server does (RFC 9112, section 3).
ghost use Rattle.std.specs.Prelude.{◌≤◌, length, IfOk};
ghost use Rattle.link_http1.specs.Private.RequestReading.{FindsRoom};
ghost use Rattle.link_http1.specs.RequestHeads.{IsRead};

use crate::block::{FEW_LINES, MOST_LINES, headers_of, line_ends};
use httparse::Status;
use httparse::spans::{EMPTY_HEADER_SPAN, HeaderSpan, parse_request};
use std::alloc::Global;
use value_bytes::{Bytes, OutOfMemory};
use value_headers::HeaderList;

/// What the head of a request asks: its method, and its header lines in order.
#[derive(Drop)]
pub struct Asked {
    pub method: Bytes,
    pub headers: HeaderList,
}

// The head that a prefix of the bytes is, whose header lines find room.
fn read_within(
    alloc: Global,
    bytes: &[u8],
    lines: &mut [HeaderSpan],
) -> Result<Option<Asked>, OutOfMemory>
    requires room { FindsRoom bytes.now (length lines.old) }
    requires most { length lines.old ≤ MOST_LINES }
    ensures { IfOk result (λ asked. IsRead bytes.now asked) }
{
    match parse_request(bytes, lines) {
        Ok(Status::Complete(head)) => {
            let method = Bytes::of(alloc, head.method.of(bytes))?;
            let headers = headers_of(alloc, bytes, &lines[..head.headers])?;
            Ok(Some(Asked { method, headers }))
        }
        Ok(Status::Partial) => Ok(None),
        Err(_) => Ok(None),
    }
}

// The head of bytes that have few line ends. A function of its own, so that no other makes its room.
fn read_few(alloc: Global, bytes: &[u8]) -> Result<Option<Asked>, OutOfMemory>
    requires { FindsRoom bytes.now FEW_LINES }
    ensures { IfOk result (λ asked. IsRead bytes.now asked) }
{
    read_within(alloc, bytes, &mut [EMPTY_HEADER_SPAN; FEW_LINES])
}

// The head of bytes that may have as many header lines as a head has at most.
fn read_many(alloc: Global, bytes: &[u8]) -> Result<Option<Asked>, OutOfMemory>
    ensures { IfOk result (λ asked. IsRead bytes.now asked) }
{
    read_within(alloc, bytes, &mut [EMPTY_HEADER_SPAN; MOST_LINES])
}

/// The request head that a prefix of the bytes is, with at most 128 header lines, or `None` where no
/// prefix is one (RFC 9112, section 3; the limit is this project's).
pub fn read_request(alloc: Global, bytes: &[u8]) -> Result<Option<Asked>, OutOfMemory>
    ensures { IfOk result (λ asked. IsRead bytes.now asked) }
{
    if line_ends(bytes) <= FEW_LINES {
        read_few(alloc, bytes)
    } else {
        read_many(alloc, bytes)
    }
}
