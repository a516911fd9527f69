// Operations on a book, in words with a space between. `questions.rt` says how questions and lessons are written.
//
//     learn LESSON TIME
//     covers QUESTION TIME
//     clear KEY URL TIME
//     note AGE SUBDOMAINS TIME HOST
//     forget HOST
//     known TIME NAME
//
// A host is forgotten by a field of age 0.
ghost use Rattle.std.specs.Prelude.{◌<◌, ◌^◌, IfOk};
ghost use Rattle.book_calls.specs.Ops.{InRange};

use crate::questions::{ORIGIN, lesson_of, question_of};
use book_calls::Op;
use book_hosts::Sts;
use rows_shell::{Failed, Row, Shown, named, number};
use std::alloc::Global;
use value_bytes::Bytes;

/// Times and ages are below this.
const LIMIT: u64 = 1 << 48;

/// The operations.
#[derive(Clone, Copy)]
pub(crate) enum Kind {
    Learn,
    Covers,
    Clear,
    Note,
    Forget,
    Known,
}

/// Their names.
pub(crate) const KINDS: [(&[u8], Kind); 6] = [
    (b"learn", Kind::Learn),
    (b"covers", Kind::Covers),
    (b"clear", Kind::Clear),
    (b"note", Kind::Note),
    (b"forget", Kind::Forget),
    (b"known", Kind::Known),
];

/// The words for whether a field speaks of subdomains.
const SUBDOMAINS: [(&[u8], bool); 2] = [(b"subdomains", true), (b"alone", false)];

// The time or the age that a word writes, 0 where there is none.
fn time_in(word: &[u8]) -> Result<u64, Failed>
    ensures { IfOk result (λ time. time < 2 ^ 48) }
{
    if word.is_empty() {
        return Ok(0);
    }
    let time = number(word, LIMIT)?;
    if time < LIMIT { Ok(time) } else { Err(Failed) }
}

// A field of a host.
fn note(
    alloc: Global,
    host: &[u8],
    age: &[u8],
    subdomains: &[u8],
    time: &[u8],
) -> Result<Op, Failed>
    ensures { IfOk result InRange }
{
    let sts = Sts {
        age: time_in(age)?,
        subdomains: named(&SUBDOMAINS, subdomains)?,
    };
    let now = time_in(time)?;
    Ok(Op::Note(Bytes::of(alloc, host)?, sts, now))
}

// A clear of the entries of a key and a URL.
fn clear(alloc: Global, words: &Row) -> Result<Op, Failed>
    ensures { IfOk result InRange }
{
    let now = time_in(words.text(3))?;
    let key = Bytes::of(alloc, words.text(1))?;
    let origin = Bytes::of(alloc, ORIGIN)?;
    Ok(Op::Clear(key, origin, Bytes::of(alloc, words.text(2))?, now))
}

// The operation of this kind that words write, on the host at an index if it is on one.
pub(crate) fn op_in(alloc: Global, kind: Kind, words: &Row, index: usize) -> Result<Op, Failed>
    ensures { IfOk result InRange }
{
    let host = words.text(index);
    match kind {
        Kind::Learn => {
            let now = time_in(words.text(7))?;
            Ok(Op::Learn(lesson_of(alloc, words)?, now))
        }
        Kind::Covers => {
            let now = time_in(words.text(6))?;
            Ok(Op::Covers(question_of(alloc, words)?, now))
        }
        Kind::Clear => clear(alloc, words),
        Kind::Note => note(alloc, host, words.text(1), words.text(2), words.text(3)),
        Kind::Forget => note(alloc, host, b"", b"alone", b""),
        Kind::Known => {
            let now = time_in(words.text(1))?;
            Ok(Op::Match(Bytes::of(alloc, host)?, now))
        }
    }
}

// Where the words of an operation have its first host, or their last word if it is on none.
pub(crate) fn first_host(kind: Kind) -> usize {
    match kind {
        Kind::Learn => 7,
        Kind::Covers => 6,
        Kind::Note => 4,
        Kind::Clear | Kind::Known => 2,
        Kind::Forget => 1,
    }
}

// The operation that a text writes.
pub(crate) fn op_of(alloc: Global, text: &[u8]) -> Result<Op, Failed>
    ensures { IfOk result InRange }
{
    let words = Row::of(alloc, text, b' ')?;
    let kind = named(&KINDS, words.text(0))?;
    op_in(alloc, kind, &words, first_host(kind))
}

// A thread's op of this turn, which is a lesson for 0, a question for 1 and a clear else. Its time is its number.
pub(crate) fn numbered(alloc: Global, turn: u8, number: u64) -> Result<Op, Failed>
    ensures { IfOk result InRange }
{
    let mut text = Shown::new(alloc);
    text.add(match turn {
        0 => b"learn k http://b.test/x other 5 PUT - ".as_slice(),
        1 => b"covers k http://b.test/x other PUT - ",
        _ => b"clear k http://b.test/x ",
    });
    text.add_number(number);
    op_of(alloc, text.into_bytes()?.as_slice())
}

// The turn and the number of a thread's op.
pub(crate) fn turn_of(op: &Op) -> Option<(u8, u64)> {
    match op {
        Op::Learn(_, now) => Some((0, *now)),
        Op::Covers(_, now) => Some((1, *now)),
        Op::Clear(_, _, _, now) => Some((2, *now)),
        _ => None,
    }
}
