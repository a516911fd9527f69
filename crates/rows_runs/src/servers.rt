// Rows of the server's top call, with a tab between their texts:
//
//     program WORDS CALLS INPUT CONNECTION...
//
// A row has the program's words, with commas between, words with a space between that say which calls fail, the input,
// and what each connection sends. The words for the calls are those of `streams.rt` and `accepts.rt` of `rows_links`.
// Shown is the status, what was written and complained, and how many ends were taken back.
use program_corsserve::corsserve;
use rows_links::{Streams, accepts_in, words_of};
use rows_shell::{Failed, Row, Shown};
use std::alloc::Global;

/// Where the texts of the connections begin in a row.
const FIRST_PEER: usize = 4;

// Shows what a run of the program comes to.
fn run(alloc: Global, row: &Row, shown: &mut Shown) -> Result<(), Failed> {
    let words = words_of(alloc, row.text(1))?;
    let mut streams = Streams::of(alloc, row.text(2), row.text(3))?;
    let mut accepts = accepts_in(alloc, row.text(2), row, FIRST_PEER)?;
    let status = corsserve(
        alloc,
        words.as_slice(),
        &mut streams.input.value,
        &mut streams.output.value,
        &mut streams.complaints.value,
        &mut accepts,
    );
    shown.add_count(b"status ", usize::from(status.number()));
    shown.add(b", wrote ");
    shown.add_quoted(streams.output());
    shown.add(b", complained ");
    shown.add_quoted(streams.complaints());
    shown.add_count(b", taken back ", accepts.taken_back().len());
    Ok(())
}

/// Shows a row, and what it comes to.
pub fn play_server(alloc: Global, line: &[u8], shown: &mut Shown) -> Result<(), Failed> {
    shown.add(line);
    shown.add(b" => ");
    let row = Row::of(alloc, line, b'\t')?;
    run(alloc, &row, shown)?;
    shown.add(b"\n");
    Ok(())
}
