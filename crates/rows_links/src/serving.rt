// A peer in memory that is served. The words of its row, between spaces, say which of its calls fail, counted from 1:
//
//     reads=N       the Nth read fails
//     writes=N      the Nth write fails
//     zeros=N       the Nth write takes nothing
//     room=N        there is room for N bytes of the answer, and not for all that may be
//     piece=N       each read gives N bytes at most, and each write takes as many
//
// Shown is what serving it comes to, what was written to it, and how many bytes it still has to send.
use crate::slow::SlowEnd;
use crate::streams::numbers_of;
use crate::tables::table_in;
use link_traits::{MemoryEnd, MemorySink, MemorySource, Source};
use rows_shell::{Failed, Row, Shown, has_word, number, value_of};
use server_tables::{AllowTable, Served, serve};
use std::alloc::Global;
use value_bytes::Bytes;

/// How many bytes a peer takes, if no word says it.
const ROOM: usize = 65_536;

/// How many bytes are read at once of what was left.
const PIECE: usize = 4_096;

/// How often they are read at most.
const MOST_READS: usize = 64;

// How many bytes the word `NAME=N` says, 65,536 at most and where there is no such word.
pub(crate) fn bytes_of(words: &[u8], name: &[u8]) -> Result<usize, Failed> {
    match value_of(words, name) {
        [] => Ok(ROOM),
        digits => Ok((number(digits, ROOM as u64)? as usize).min(ROOM)),
    }
}

// The peer that sends a request.
fn end_of(alloc: Global, words: &[u8], request: &[u8]) -> Result<SlowEnd, Failed> {
    let reads = numbers_of(alloc, words, b"reads")?;
    let source = MemorySource::new(Bytes::of(alloc, request)?, reads);
    let writes = numbers_of(alloc, words, b"writes")?;
    let zeros = numbers_of(alloc, words, b"zeros")?;
    let sink = MemorySink::new(alloc, bytes_of(words, b"room")?, writes, zeros)?;
    Ok(SlowEnd {
        end: MemoryEnd::new(source, sink),
        most: bytes_of(words, b"piece")?,
    })
}

// Adds what serving came to.
fn add_served(served: Served, shown: &mut Shown) {
    match served {
        Served::Answered(status) => shown.add_count(b"Answered ", usize::from(status)),
        Served::ReadFault => shown.add(b"ReadFault"),
        Served::WriteFault => shown.add(b"WriteFault"),
        Served::OutOfMemory => shown.add(b"OutOfMemory"),
    }
}

// How many bytes a peer still has to send.
fn left_of(end: &mut MemoryEnd) -> usize {
    let mut buffer = [0u8; PIECE];
    let mut left = 0usize;
    for _ in 0..MOST_READS {
        match end.read(&mut buffer) {
            Ok(count) => left = left.saturating_add(count),
            Err(_) => break,
        }
    }
    left
}

// Serves a peer, piece by piece where the words say so.
fn serve_by(alloc: Global, table: &AllowTable, words: &[u8], slow: &mut SlowEnd) -> Served {
    if has_word(words, b"piece") {
        serve(alloc, table, slow)
    } else {
        serve(alloc, table, &mut slow.end)
    }
}

/// Shows what serving the peer of a row comes to: its texts are the word of its kind, a table, the words above, and the
/// request that the peer sends.
pub fn show_served(alloc: Global, row: &Row, shown: &mut Shown) -> Result<(), Failed> {
    let table = table_in(alloc, row.text(1))?;
    let mut slow = end_of(alloc, row.text(2), row.text(3))?;
    add_served(serve_by(alloc, &table, row.text(2), &mut slow), shown);
    shown.add(b", wrote ");
    shown.add_quoted(slow.end.taken());
    shown.add_count(b", left ", left_of(&mut slow.end));
    Ok(())
}
