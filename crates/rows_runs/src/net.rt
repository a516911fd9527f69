// A scenario that is played by the program's top call with the word `net`, from a time on. Each of the lines after it
// begins with `link` and has the link of the next document, as `links.rt` of `rows_links` says. Shown are the status,
// each link that was taken back, how often all failed, what was complained, and what was written.
use crate::runs;
use link_traits::MemoryLinks;
use rows_links::{Streams, links_in, show_links, words_of};
use rows_shell::{Failed, Shown, number};
use std::alloc::Global;
use std::sync::Wait;
use std::thread::Threads;
use value_text::{after_byte, before_byte};

// Plays a scenario over links.
fn play_over<R: Threads + Wait + Sync>(
    rt: &R,
    alloc: Global,
    scenario: &[u8],
    now: u64,
    links: &mut MemoryLinks,
    shown: &mut Shown,
) -> Result<(), Failed> {
    let words = words_of(alloc, b"net")?;
    let mut streams = Streams::of(alloc, b"", scenario)?;
    runs::play(rt, alloc, words.as_slice(), &mut streams, links, now, shown);
    show_links(links, shown);
    shown.add(streams.complaints());
    shown.add(streams.output());
    Ok(())
}

/// Plays a row, which has the time and a scenario, over the links of the lines after it.
pub fn play_net<R: Threads + Wait + Sync + AllocGlobal>(
    rt: &R,
    row: &str,
    rows: &[&str],
    shown: &mut Shown,
) -> Result<(), Failed> {
    let alloc = rt.alloc();
    let row = row.as_bytes();
    let digits = before_byte(row, b'\t');
    if digits.len() == row.len() {
        return Err(Failed);
    }
    let now = number(digits, u64::MAX)?;
    let mut links = links_in(alloc, rows)?;
    play_over(
        rt,
        alloc,
        after_byte(row, b'\t'),
        now,
        &mut links.value,
        shown,
    )
}
