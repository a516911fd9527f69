// What is shown of the output of a play of several documents, whose calls of the book may come in any order. The output
// has the lines of each document, the first of which is `document N KEY`; a line `history`; and for each call of the
// book a line `TURN N CALL`, where N is the number of its document and CALL is what was called and the reply.
use rows_shell::{Shown, named};
use value_bytes::Bytes;
use value_text::{after_byte, before_byte};

// The index of the line `history`, or how many lines there are where it is missing.
fn place_of_history(lines: &[Bytes]) -> usize {
    for (place, line) in lines.iter().enumerate() {
        if line.as_slice() == b"history".as_slice() {
            return place;
        }
    }
    lines.len()
}

// The lines of the documents, and those from `history` on.
fn parts_of(lines: &[Bytes]) -> (&[Bytes], &[Bytes]) {
    lines.split_at(place_of_history(lines).min(lines.len()))
}

// The second word of a line: the number of the document, both in `TURN N CALL` and in `document N KEY`.
fn document_in(line: &[u8]) -> &[u8] {
    before_byte(after_byte(line, b' '), b' ')
}

// What follows the second word of a line: in `TURN N CALL` the call. From `history` on no other line has a third word.
fn call_in(line: &[u8]) -> &[u8] {
    after_byte(after_byte(line, b' '), b' ')
}

// How many calls a history has.
fn count_of(history: &[Bytes]) -> usize {
    let mut count = 0usize;
    for line in history {
        if !call_in(line.as_slice()).is_empty() {
            count = count.saturating_add(1);
        }
    }
    count
}

// Shows lines, with a line break after each.
fn show_lines(lines: &[Bytes], shown: &mut Shown) {
    for line in lines {
        shown.add(line.as_slice());
        shown.add(b"\n");
    }
}

/// Shows the lines of the documents, and then a word and how many calls the history has.
pub fn show_count(lines: &[Bytes], word: &[u8], shown: &mut Shown) {
    let (documents, history) = parts_of(lines);
    show_lines(documents, shown);
    shown.add_count(word, count_of(history));
    shown.add(b"\n");
}

// Shows the calls of one document, in order, without their turns.
fn show_calls(history: &[Bytes], document: &[u8], shown: &mut Shown) {
    shown.add(b"of ");
    shown.add(document);
    shown.add(b"\n");
    for line in history {
        if document_in(line.as_slice()) == document {
            shown.add(call_in(line.as_slice()));
            shown.add(b"\n");
        }
    }
}

// Whether a line is the first of a document: `document N KEY`.
fn is_first(line: &[u8]) -> bool {
    before_byte(line, b' ') == b"document".as_slice() && !call_in(line).is_empty()
}

// Shows the lines of the documents, how many calls the history has, and then the calls of each document.
pub(crate) fn show_shared(lines: &[Bytes], shown: &mut Shown) {
    show_count(lines, b"entries ", shown);
    let (documents, history) = parts_of(lines);
    for line in documents {
        if is_first(line.as_slice()) {
            show_calls(history, document_in(line.as_slice()), shown);
        }
    }
}

// What follows is for two documents that share a page at the top, and so a key, `http://t.test`. Each is redirected to
// c.test with the origin `null`, and asks the book whether it needs a preflight there. If both ask before either has
// learnt from a preflight, both send one and learn from it, and the history has 12 calls. Else the second is covered
// by what the first has learnt, and the history has 11.

/// The key that both documents have.
const KEY: &[u8] = b"http://t.test";

/// How the call begins by which each asks.
const ASKS: &[u8] = b"covers http://t.test null other PUT () http://c.test/y ";

/// How the call begins by which each learns.
const LEARNS: &[u8] = b"learn http://t.test null other ";

/// The names of the calls of the preflight cache. Each call has its key as its second word.
const CACHE_CALLS: [(&[u8], ()); 3] = [(b"covers", ()), (b"learn", ()), (b"clear", ())];

// Whether a call is for the key, or does not call the preflight cache.
fn is_of_key(call: &[u8]) -> bool {
    named(&CACHE_CALLS, before_byte(call, b' ')).is_err()
        || before_byte(after_byte(call, b' '), b' ') == KEY
}

// How many of the two asked before the first learnt.
fn asked_before(history: &[Bytes]) -> usize {
    let mut asked = 0usize;
    for line in history {
        let call = call_in(line.as_slice());
        if call.starts_with(LEARNS) {
            return asked;
        }
        if call.starts_with(ASKS) {
            asked = asked.saturating_add(1);
        }
    }
    asked
}

// Whether all calls of the preflight cache are for the key.
fn are_of_key(history: &[Bytes]) -> bool {
    for line in history {
        if !is_of_key(call_in(line.as_slice())) {
            return false;
        }
    }
    true
}

// Whether all calls of the preflight cache are for the key, and there are as many calls as there should be.
fn are_joint(history: &[Bytes]) -> bool {
    let expected = if asked_before(history) == 2 { 12 } else { 11 };
    are_of_key(history) && count_of(history) == expected
}

// Shows whether the history is one that the two may have, and the history where it is not.
pub(crate) fn show_joint(lines: &[Bytes], shown: &mut Shown) {
    let (_, history) = parts_of(lines);
    if are_joint(history) {
        shown.add(b"joint as it should be\n");
    } else {
        shown.add(b"not as it should be:\n");
        show_lines(history, shown);
    }
}
