// What is shown of what a run has written and complained, as the words of its row say: `inputs.rt`.
use crate::histories::{show_joint, show_shared};
use crate::streams::{Streams, text_of};
use rows_shell::{Failed, Shown, has_word, texts_between};
use std::alloc::Global;

/// How many lines are printed of a row with `tail`.
const TAIL: usize = 4;

/// How many bytes of them.
const WIDTH: usize = 64;

// The number of bytes of a text, and the fronts of its last lines.
fn show_tail(text: &str, shown: &mut Shown) {
    shown.add_count(b"bytes ", text.len());
    shown.add(b"\n");
    let count = text.lines().count();
    for line in text.lines().skip(count.saturating_sub(TAIL)) {
        shown.add(line.as_bytes().split_at(WIDTH.min(line.len())).0);
        shown.add(b"\n");
    }
}

// What was written, as the words say.
fn show_output(
    alloc: Global,
    words: &[u8],
    output: &[u8],
    shown: &mut Shown,
) -> Result<(), Failed> {
    if has_word(words, b"shared") {
        show_shared(texts_between(alloc, output, b'\n')?.as_slice(), shown);
    } else if has_word(words, b"joint") {
        show_joint(texts_between(alloc, output, b'\n')?.as_slice(), shown);
    } else if has_word(words, b"tail") {
        show_tail(text_of(output)?, shown);
    } else {
        shown.add(output);
    }
    Ok(())
}

// What was complained.
fn show_complaints(complaints: &str, shown: &mut Shown) {
    if !complaints.is_empty() {
        shown.add(b"complained ");
        shown.add(complaints.trim_end_matches('\n').as_bytes());
        shown.add(b"\n");
    }
}

/// Shows what was written, as the words say, and what was complained. It fails where the complaints, or with
/// `tail` the output, are not UTF-8.
pub fn show_streams(
    alloc: Global,
    words: &[u8],
    streams: &Streams,
    shown: &mut Shown,
) -> Result<(), Failed> {
    show_output(alloc, words, streams.output(), shown)?;
    show_complaints(text_of(streams.complaints())?, shown);
    Ok(())
}
