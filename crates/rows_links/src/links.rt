// Links in memory. What fails of a link is written in words with a space between:
//
//     asks=N,N          the Nth ask fails
//     receives=N,N      the Nth receive fails
//
// An answer is written as its pieces with a bar between, of which each comes by a receive of its own.
use crate::streams::numbers_of;
use link_traits::{MemoryLink, MemoryLinks};
use rows_shell::{Failed, Held, Row, Shown, texts_between};
use std::alloc::Global;
use value_bytes::BytesList;
use value_text::after_byte;

/// How many bytes a link has room for of what it is asked.
const ROOM: usize = 65_536;

// The answers of a row.
fn answers_of(alloc: Global, row: &Row) -> Result<Vec<BytesList>, Failed> {
    let mut answers = Vec::new(alloc);
    for index in 1..row.len() {
        answers.push(texts_between(alloc, row.text(index), b'|')?)?;
    }
    Ok(answers)
}

// The link of a row, whose first text says what fails, and the others are the answers.
fn link_of(alloc: Global, row: &Row) -> Result<MemoryLink, Failed> {
    let answers = answers_of(alloc, row)?;
    let asks = numbers_of(alloc, row.text(0), b"asks")?;
    let receives = numbers_of(alloc, row.text(0), b"receives")?;
    Ok(MemoryLink::new(alloc, answers, ROOM, asks, receives)?)
}

/// The link of a line, whose first text says what is played over it, its second what fails, and the others are the
/// answers; with a tab between. It has room for 65,536 bytes of what it is asked.
pub fn link_in(alloc: Global, line: &str) -> Result<MemoryLink, Failed> {
    let row = Row::of(alloc, after_byte(line.as_bytes(), b'\t'), b'\t')?;
    link_of(alloc, &row)
}

/// The links of lines, which are handed out in this order.
pub fn links_in(alloc: Global, lines: &[&str]) -> Result<Held<MemoryLinks>, Failed> {
    let mut links = Vec::new(alloc);
    for line in lines {
        links.push(link_in(alloc, line)?)?;
    }
    Ok(Held {
        value: MemoryLinks::new(alloc, links)?,
    })
}

/// Shows how often a link was asked, and how often it failed.
pub fn show_link(link: &MemoryLink, shown: &mut Shown) {
    match link.asks(shown.alloc()) {
        Ok(asks) => shown.add_count(b"asked ", asks.len()),
        Err(_) => shown.fail(),
    }
    shown.add(b", failed ");
    shown.add_number(link.faults());
    shown.add(b"\n");
}

/// Shows this of each link that was taken back, and how often all of them failed.
pub fn show_links(links: &MemoryLinks, shown: &mut Shown) {
    for link in links.taken_back() {
        show_link(link, shown);
    }
    shown.add(b"links failed ");
    shown.add_number(links.faults());
    shown.add(b"\n");
}
