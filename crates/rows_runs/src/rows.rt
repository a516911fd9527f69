// Rows of the programs' top calls. `inputs.rt` of `rows_links` says how a row is written. Shown are the status, what
// was written, as its words say, and what was complained.
use crate::reports::show_requests;
use crate::runs;
use link_traits::MemoryLinks;
use rows_links::{Streams, check_words, in_pieces, input_in, program_words, show_streams};
use rows_shell::{Failed, Held, Shown, has_word};
use std::alloc::Global;
use std::sync::Wait;
use std::thread::Threads;

// Runs `fetchplay` without links.
fn play_alone<R: Threads + Wait + Sync>(
    rt: &R,
    alloc: Global,
    words: &[String],
    streams: &mut Streams,
    shown: &mut Shown,
) -> Result<(), Failed> {
    let mut links = Held {
        value: MemoryLinks::new(alloc, Vec::new(alloc))?,
    };
    runs::play(rt, alloc, words, streams, &mut links.value, 0, shown);
    Ok(())
}

// Runs the program that the words say.
fn run<R: Threads + Wait + Sync>(
    rt: &R,
    alloc: Global,
    words: &[u8],
    streams: &mut Streams,
    shown: &mut Shown,
) -> Result<(), Failed> {
    let program = program_words(alloc, words)?;
    if has_word(words, b"report") {
        runs::report(rt, alloc, program.as_slice(), streams, shown);
        Ok(())
    } else if has_word(words, b"audit") {
        runs::audit(alloc, program.as_slice(), streams, shown);
        Ok(())
    } else {
        play_alone(rt, alloc, program.as_slice(), streams, shown)
    }
}

// Runs the program on an input.
fn play_text<R: Threads + Wait + Sync>(
    rt: &R,
    alloc: Global,
    words: &[u8],
    input: &[u8],
    shown: &mut Shown,
) -> Result<(), Failed> {
    let mut streams = Streams::of(alloc, words, input)?;
    run(rt, alloc, words, &mut streams, shown)?;
    show_streams(alloc, words, &streams, shown)
}

// Runs the program on a scenario with answers in pieces of three sizes.
fn play_pieces<R: Threads + Wait + Sync>(
    rt: &R,
    alloc: Global,
    words: &[u8],
    scenario: &[u8],
    shown: &mut Shown,
) -> Result<(), Failed> {
    for piece in ["1", "7", "65536"] {
        let text = in_pieces(alloc, scenario, piece.as_bytes())?;
        play_text(rt, alloc, words, text.as_slice(), shown)?;
    }
    Ok(())
}

/// Plays a row.
pub fn play_row<R: Threads + Wait + Sync + AllocGlobal>(
    rt: &R,
    line: &str,
    shown: &mut Shown,
) -> Result<(), Failed> {
    let alloc = rt.alloc();
    let (words, written) = line.split_once('\t').unwrap_or(("", line));
    let words = words.as_bytes();
    check_words(words)?;
    let input = input_in(alloc, words, written.as_bytes())?;
    if has_word(words, b"requests") {
        show_requests(rt, alloc, input.as_slice(), shown)
    } else if has_word(words, b"pieces") {
        play_pieces(rt, alloc, words, input.as_slice(), shown)
    } else {
        play_text(rt, alloc, words, input.as_slice(), shown)
    }
}
