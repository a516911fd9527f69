// Runs of the programs' top calls over streams in memory. Of each the number of its status is shown.
use link_traits::{FixedClock, Links};
use play_documents::ByFetches;
use play_fetch::OverLink;
use program_cspreport::cspreport;
use program_fetchplay::fetchplay;
use program_playaudit::playaudit;
use rows_links::{Streams, show_status};
use rows_shell::Shown;
use std::alloc::Global;
use std::sync::Wait;
use std::thread::Threads;

// Runs `fetchplay` with these words over links from a time on.
pub(crate) fn play<R: Threads + Wait + Sync, N: Links>(
    rt: &R,
    alloc: Global,
    words: &[String],
    streams: &mut Streams,
    links: &mut N,
    now: u64,
    shown: &mut Shown,
) {
    let status = fetchplay(
        rt,
        &ByFetches { fetcher: OverLink },
        alloc,
        words,
        &mut streams.input.value,
        &mut streams.output.value,
        &mut streams.complaints.value,
        links,
        &mut FixedClock::new(now),
    );
    show_status(status.number(), shown);
}

// Runs `playaudit` with these words.
pub(crate) fn audit(alloc: Global, words: &[String], streams: &mut Streams, shown: &mut Shown) {
    let status = playaudit(
        alloc,
        words,
        &mut streams.input.value,
        &mut streams.output.value,
        &mut streams.complaints.value,
    );
    show_status(status.number(), shown);
}

// Runs `cspreport` with these words.
pub(crate) fn report<R: Threads + Wait + Sync>(
    rt: &R,
    alloc: Global,
    words: &[String],
    streams: &mut Streams,
    shown: &mut Shown,
) {
    let status = cspreport(
        rt,
        alloc,
        words,
        &mut streams.input.value,
        &mut streams.output.value,
        &mut streams.complaints.value,
    );
    show_status(status.number(), shown);
}
