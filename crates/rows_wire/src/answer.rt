// Rows of answers, which are read however they are cut.
use crate::cut::{Cut, LARGE, SINGLE, places};
use crate::reading::{Part, Reading};
use rows_shell::{Failed, Shown, number, unescaped};
use std::alloc::Global;
use value_bytes::Bytes;
use value_text::{after_byte, before_byte};

// What the heads of an answer come to: the final head and how many bytes there are up to its end, or why
// there is none.
pub(crate) fn head(alloc: Global, row: &[u8], shown: &mut Shown) -> Result<(), Failed> {
    read(alloc, Part::Heads, row, shown)
}

// How the body of an answer comes to its end, of so many bytes at most.
pub(crate) fn body(alloc: Global, row: &[u8], shown: &mut Shown) -> Result<(), Failed> {
    let most = u64::from(u32::MAX);
    let limit = number(before_byte(row, b' '), most)?.min(most) as u32;
    read(alloc, Part::Body(limit), after_byte(row, b' '), shown)
}

// What a part of an answer comes to, however it is cut.
fn read(alloc: Global, part: Part, written: &[u8], shown: &mut Shown) -> Result<(), Failed> {
    let answer = unescaped(alloc, written)?;
    let whole = read_cut(alloc, part, answer.as_slice(), Cut::whole(answer.len()))?;
    if is_same_cut(alloc, part, answer.as_slice(), whole.as_slice())? {
        shown.add(whole.as_slice());
    } else {
        shown.add(b"DIFFERS");
    }
    Ok(())
}

// What a part of an answer comes to, cut so.
fn read_cut(alloc: Global, part: Part, answer: &[u8], cut: Cut) -> Result<Bytes, Failed> {
    let (first, behind) = answer.split_at(cut.first.min(answer.len()));
    let mut reading = Reading::begun(alloc)?.feed(alloc, part, first)?;
    for piece in behind.chunks(cut.others.max(1)) {
        reading = reading.feed(alloc, part, piece)?;
    }
    let mut shown = Shown::new(alloc);
    reading.show(part, &mut shown);
    shown.into_bytes()
}

// Whether a part of an answer comes to this in pieces of each size, and, where it is short, cut in two at each place.
fn is_same_cut(alloc: Global, part: Part, answer: &[u8], whole: &[u8]) -> Result<bool, Failed> {
    let mut is_same = comes_to(alloc, part, answer, SINGLE, whole)?
        && comes_to(alloc, part, answer, LARGE, whole)?;
    for place in 0..places(answer.len()) {
        is_same = is_same && comes_to(alloc, part, answer, Cut::at(place), whole)?;
    }
    Ok(is_same)
}

// Whether a part of an answer comes to this, cut so.
fn comes_to(
    alloc: Global,
    part: Part,
    answer: &[u8],
    cut: Cut,
    whole: &[u8],
) -> Result<bool, Failed> {
    Ok(read_cut(alloc, part, answer, cut)?.as_slice() == whole)
}
