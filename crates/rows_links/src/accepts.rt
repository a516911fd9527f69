// Listeners in memory. Words with a space between say what fails of one, and of the connections that it gives:
//
//     nexts=N       the listener fails at its Nth `next`; it does so too where no connection is left
//     room=N        the listener has room for an address of N bytes
//     peers=N       the Nth read of each connection fails
use crate::serving::bytes_of;
use crate::streams::numbers_of;
use link_traits::{MemoryAccepts, MemoryEnd, MemorySink, MemorySource};
use rows_shell::{Failed, Row};
use std::alloc::Global;
use value_bytes::Bytes;

/// How many bytes each peer takes.
const ROOM: usize = 4_096;

// The ends of connections that send the texts of a row from an index on.
fn ends_of(alloc: Global, words: &[u8], row: &Row, from: usize) -> Result<Vec<MemoryEnd>, Failed> {
    let mut ends = Vec::new(alloc);
    for index in from..row.len() {
        let reads = numbers_of(alloc, words, b"peers")?;
        let source = MemorySource::new(Bytes::of(alloc, row.text(index))?, reads);
        let sink = MemorySink::new(alloc, ROOM, Vec::new(alloc), Vec::new(alloc))?;
        ends.push(MemoryEnd::new(source, sink))?;
    }
    Ok(ends)
}

/// The listener that gives connections which send the texts of a row from an index on, and each have room for 4,096
/// bytes.
pub fn accepts_in(
    alloc: Global,
    words: &[u8],
    row: &Row,
    from: usize,
) -> Result<MemoryAccepts, Failed> {
    let ends = ends_of(alloc, words, row, from)?;
    let room = bytes_of(words, b"room")?;
    let fails = numbers_of(alloc, words, b"nexts")?;
    Ok(MemoryAccepts::new(alloc, ends, room, fails)?)
}
