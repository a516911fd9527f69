// Rows of a CORS server that answers by an allow table, and of documents that ask it. A row has a word and then texts,
// with a tab between:
//
//     table TEXT                    the rows of the table that this text is, or its first line that is none
//     answer TABLE REQUEST          the bytes that these bytes are answered with
//     serve TABLE WORDS REQUEST     what serving a peer comes to that sends these bytes: `serving.rt` of `rows_links`
//     fetch TABLE DOCUMENT INIT     what a document at this URL sees of a server with the table: `fetches.rt`
//
// Each is printed with what it comes to. `row.rt` of `rows_shell` says how a text is written.
use crate::fetches::show_fetch;
use rows_links::{show_answer, show_served, show_table};
use rows_shell::{Failed, Row, Shown, named};
use std::alloc::Global;
use value_text::before_byte;

/// The kinds of rows.
#[derive(Clone, Copy)]
pub enum AccessKind {
    Table,
    Answer,
    Serve,
    Fetch,
}

/// Their names.
const KINDS: [(&[u8], AccessKind); 4] = [
    (b"table", AccessKind::Table),
    (b"answer", AccessKind::Answer),
    (b"serve", AccessKind::Serve),
    (b"fetch", AccessKind::Fetch),
];

/// The kind of a line that is such a row, by its first word.
pub fn kind_of(line: &[u8]) -> Result<AccessKind, Failed> {
    named(&KINDS, before_byte(line, b'\t'))
}

// Shows what a row comes to.
fn show_row(alloc: Global, kind: AccessKind, row: &Row, shown: &mut Shown) -> Result<(), Failed> {
    match kind {
        AccessKind::Table => show_table(alloc, row, shown),
        AccessKind::Answer => show_answer(alloc, row, shown),
        AccessKind::Serve => show_served(alloc, row, shown),
        AccessKind::Fetch => show_fetch(alloc, row, shown),
    }
}

/// Shows a line of this kind, and what it comes to.
pub fn play_access<R: AllocGlobal>(
    rt: &R,
    kind: AccessKind,
    line: &[u8],
    shown: &mut Shown,
) -> Result<(), Failed> {
    shown.add(line);
    shown.add(b" => ");
    let row = Row::of(rt.alloc(), line, b'\t')?;
    show_row(rt.alloc(), kind, &row, shown)?;
    shown.add(b"\n");
    Ok(())
}
