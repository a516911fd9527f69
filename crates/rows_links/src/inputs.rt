// Rows of the programs' top calls: their words and their input. A row is a scenario, or some words, a tab and then an
// input, which is a scenario where they do not say otherwise. The words, between spaces, are those of `streams.rt` for
// calls of the streams that fail, and
//
//     report          it is played with its reports, by `cspreport`, and not by `fetchplay`
//     audit           it is audited by `playaudit`. The input is nothing, or a scenario, a tab and a play, whose
//                     escapes are undone; both are then put in their frame
//     requests        the reports of its documents are shown as requests
//     words=A,B       the program's words, instead of `play`, or none for an audit; none at `words=`
//     times=N         the part of the scenario between `<` and `>` is repeated N times
//     pieces          it is played with answers in pieces of 1, 7 and 65,536 bytes, one after another
//     tail            only the number of bytes written and the last four lines are printed, as far as their
//                     first 64 bytes
//     shared          of a play of several documents the history is printed by documents, without turns, and how
//                     many entries it has
//     joint           only whether the history is one that two documents under one page may have: `histories.rt`
use crate::streams::words_of;
use rows_shell::{Failed, Shown, has_word, named, number, unescaped, value_of};
use std::alloc::Global;
use value_bytes::Bytes;
use value_text::{after_byte, before_byte};

/// How often a part of a scenario is repeated at most.
const MOST_TIMES: u64 = 16_777_216;

/// The words of a row, or what they begin with up to `=`.
const WORDS: [(&[u8], ()); 13] = [
    (b"report", ()),
    (b"audit", ()),
    (b"requests", ()),
    (b"words", ()),
    (b"times", ()),
    (b"reads", ()),
    (b"writes", ()),
    (b"zeros", ()),
    (b"complaints", ()),
    (b"pieces", ()),
    (b"tail", ()),
    (b"shared", ()),
    (b"joint", ()),
];

/// Refuses words that no row has.
pub fn check_words(words: &[u8]) -> Result<(), Failed> {
    let mut rest = words;
    for _ in 0..words.len() {
        if !rest.is_empty() {
            named(&WORDS, before_byte(before_byte(rest, b' '), b'='))?;
        }
        rest = after_byte(rest, b' ');
    }
    Ok(())
}

// The input of an audit: a scenario and a play in their frame, or nothing.
fn framed(alloc: Global, written: &[u8]) -> Result<Bytes, Failed> {
    let mut bytes = Shown::new(alloc);
    if !written.is_empty() {
        let scenario = before_byte(written, b'\t');
        bytes.add_count(b"", scenario.len());
        bytes.add(b"\n");
        bytes.add(scenario);
        bytes.add(unescaped(alloc, after_byte(written, b'\t'))?.as_slice());
    }
    bytes.into_bytes()
}

// A text in which the part between `<` and `>` is repeated so many times.
fn repeated(alloc: Global, text: &[u8], times: u64) -> Result<Bytes, Failed> {
    let rest = after_byte(text, b'<');
    let part = before_byte(rest, b'>');
    if before_byte(text, b'<').len() == text.len() || part.len() == rest.len() {
        return Err(Failed);
    }
    let mut whole = Shown::new(alloc);
    whole.add(before_byte(text, b'<'));
    for _ in 0..times {
        whole.add(part);
    }
    whole.add(after_byte(rest, b'>'));
    whole.into_bytes()
}

/// The input that a row with these words writes. A part of it is repeated 16,777,216 times at most.
pub fn input_in(alloc: Global, words: &[u8], written: &[u8]) -> Result<Bytes, Failed> {
    if has_word(words, b"audit") {
        return framed(alloc, written);
    }
    match value_of(words, b"times") {
        [] => Ok(Bytes::of(alloc, written)?),
        digits => repeated(alloc, written, number(digits, MOST_TIMES)?),
    }
}

/// A scenario whose answers come in pieces of this size, which digits write.
pub fn in_pieces(alloc: Global, scenario: &[u8], piece: &[u8]) -> Result<Bytes, Failed> {
    if !scenario.starts_with(b"{") {
        return Err(Failed);
    }
    let mut text = Shown::new(alloc);
    text.add(b"{\"piece\":");
    text.add(piece);
    text.add(b",");
    text.add(after_byte(scenario, b'{'));
    text.into_bytes()
}

/// The words of the program that a row with these words runs.
pub fn program_words(alloc: Global, words: &[u8]) -> Result<Vec<String>, Failed> {
    if has_word(words, b"words") || has_word(words, b"audit") {
        words_of(alloc, value_of(words, b"words"))
    } else {
        words_of(alloc, b"play")
    }
}
