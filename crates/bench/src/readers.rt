// HTTP/1.1: how long it takes to read heads and bodies that come in pieces.
ghost use Rattle.std.specs.Prelude.{◌<◌};

use crate::words::{count_in, some_in};
use link_http1::{BodyReader, BodyStep, Framing, HeadReader, HeadStep};
use rows_shell::{Failed, Row, Shown, named};
use std::alloc::Global;
use value_bytes::Bytes;
use value_requests::BodyEnd;

/// How many bytes a body has.
const BODY: u32 = 262_144;

/// What a round reads: a head, a body framed by its length, or a body in chunks.
#[derive(Clone, Copy)]
enum Kind {
    Head,
    Plain,
    Chunked,
}

/// The kinds by their names.
const KINDS: [(&[u8], Kind); 3] = [
    (b"head", Kind::Head),
    (b"plain", Kind::Plain),
    (b"chunked", Kind::Chunked),
];

// A head with 100 header lines of 80 bytes each.
fn head(alloc: Global) -> Result<Bytes, Failed> {
    let mut head = Shown::new(alloc);
    head.add(b"HTTP/1.1 200 OK\r\n");
    for number in 100..200usize {
        head.add_count(b"X-Header-", number);
        head.add(b": ");
        head.add(&[b'v'; 64]);
        head.add(b"\r\n");
    }
    head.add(b"\r\n");
    head.into_bytes()
}

// A body of 256 blocks of 1,024 letters, each between a front and a back, and then an end.
fn body(alloc: Global, front: &[u8], back: &[u8], end: &[u8]) -> Result<Bytes, Failed> {
    let mut body = Shown::new(alloc);
    for _ in 0..256u32 {
        body.add(front);
        body.add(&[b'b'; 1024]);
        body.add(back);
    }
    body.add(end);
    body.into_bytes()
}

// The bytes that each round reads.
fn bytes_of(alloc: Global, kind: Kind) -> Result<Bytes, Failed> {
    match kind {
        Kind::Head => head(alloc),
        Kind::Plain => body(alloc, b"", b"", b""),
        Kind::Chunked => body(alloc, b"400\r\n", b"\r\n", b"0\r\n\r\n"),
    }
}

// Reads a head in pieces of so many bytes, and counts its header lines.
fn lines_of(alloc: Global, bytes: &[u8], piece: usize) -> Result<u64, Failed>
    requires { 0 < piece }
{
    let mut reader = HeadReader::new(alloc)?;
    for piece in bytes.chunks(piece) {
        match reader.feed(alloc, piece)? {
            HeadStep::More(next) => reader = next,
            HeadStep::Final(head, _) => return Ok(head.headers.len() as u64),
            HeadStep::Bad | HeadStep::TooBig => return Err(Failed),
        }
    }
    Err(Failed)
}

// Reads a body in pieces of so many bytes, and counts its bytes.
fn length_of(alloc: Global, framing: Framing, bytes: &[u8], piece: usize) -> Result<u64, Failed>
    requires { 0 < piece }
{
    let mut reader = BodyReader::framed(alloc, framing, BODY)?;
    for piece in bytes.chunks(piece) {
        match reader.feed(piece) {
            BodyStep::More(next) => reader = next,
            BodyStep::Over(BodyEnd::Whole(body)) => return Ok(body.len() as u64),
            BodyStep::Over(_) => return Err(Failed),
        }
    }
    Err(Failed)
}

// Does one round: counts the header lines of the head, or the bytes of the body.
fn read(alloc: Global, kind: Kind, bytes: &[u8], piece: usize) -> Result<u64, Failed>
    requires { 0 < piece }
{
    match kind {
        Kind::Head => lines_of(alloc, bytes, piece),
        Kind::Plain => length_of(alloc, Framing::Length(u64::from(BODY)), bytes, piece),
        Kind::Chunked => length_of(alloc, Framing::Chunked, bytes, piece),
    }
}

/// Does the work `http1 KIND PIECE ROUNDS`: in each round it reads a head of 8 KB (`head`), or a body of 256 KB with
/// its length (`plain`) or in chunks (`chunked`), in pieces of so many bytes. It counts the header lines or the body's
/// bytes of all rounds.
pub(crate) fn total(alloc: Global, words: &Row) -> Result<u64, Failed> {
    let kind = named(&KINDS, words.text(1))?;
    let piece = some_in(words, 2)?;
    let rounds = count_in(words, 3)?;
    let bytes = bytes_of(alloc, kind)?;
    let mut total = 0u64;
    for _ in 0..rounds {
        total = total.saturating_add(read(alloc, kind, bytes.as_slice(), piece)?);
    }
    Ok(total)
}
