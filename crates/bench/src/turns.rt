// The shared book: how many calls threads get through that take turns on it.
ghost use Rattle.std.specs.Prelude.{◌≡◌, ℕ, ◌≤◌, ◌<◌, ◌^◌, [], IfOk};
ghost use Rattle.std.specs.List.{All};
ghost use Rattle.book_calls.specs.Ops.{InRange};
ghost use Rattle.book_turns.specs.Passes.{left_of, made_of};

use crate::lessons::{lesson, question};
use crate::words::{count_in, some_in};
use book_calls::{Book, Op, Share};
use book_preflights::Lesson;
use book_turns::{TurnBook, TurnPass, TurnShare};
use rows_shell::{Failed, Row};
use std::alloc::Global;
use std::sync::Wait;
use std::thread;
use std::thread::Threads;
use value_bytes::{Bytes, BytesList, Shared};

/// A pass, and how many of its calls were answered.
#[derive(Drop)]
struct Played<P> {
    pass: P,
    answered: u64,
}

// What a preflight taught, with these methods.
fn taught(alloc: Global, methods: BytesList) -> Result<Lesson, Failed>
    ensures { IfOk result (λ lesson. lesson.age ≡ 5) }
{
    let key = Bytes::of(alloc, b"k")?;
    lesson(alloc, key, 5, methods, BytesList::new(alloc))
}

// A lesson for five seconds.
fn learn(alloc: Global, now: u64) -> Result<Op, Failed>
    requires { now < 2 ^ 48 }
    ensures { IfOk result (λ op. InRange op) }
{
    let mut methods = BytesList::new(alloc);
    methods.push(Bytes::of(alloc, b"PUT")?)?;
    Ok(Op::Learn(taught(alloc, methods)?, now))
}

// Whether a request is covered by it.
fn covers(alloc: Global, now: u64) -> Result<Op, Failed>
    requires { now < 2 ^ 48 }
    ensures { IfOk result (λ op. InRange op) }
{
    let method = Bytes::of(alloc, b"PUT")?;
    let lesson = taught(alloc, BytesList::new(alloc))?;
    Ok(Op::Covers(question(lesson, Some(method)), now))
}

// Clears what the lesson taught.
fn clear(alloc: Global, now: u64) -> Result<Op, Failed>
    requires { now < 2 ^ 48 }
    ensures { IfOk result (λ op. InRange op) }
{
    let lesson = taught(alloc, BytesList::new(alloc))?;
    Ok(Op::Clear(lesson.key, lesson.origin, lesson.url, now))
}

// A lesson, a question or a clear by turns, whose time is its number.
fn numbered(alloc: Global, number: u64) -> Result<Op, Failed>
    requires { number < 2 ^ 48 }
    ensures { IfOk result (λ op. InRange op) }
{
    match number % 3 {
        0 => learn(alloc, number),
        1 => covers(alloc, number),
        _ => clear(alloc, number),
    }
}

// The same, to be held by who asks and by the history.
fn shared(alloc: Global, number: u64) -> Result<Shared<Op>, Failed>
    requires { number < 2 ^ 48 }
    ensures { IfOk result (λ op. InRange op) }
{
    Ok(Shared::new(alloc, numbered(alloc, number)?)?)
}

// Makes so many calls on a pass, or fewer where memory runs out, and says how many were answered.
fn calls<S: Share>(alloc: Global, share: &S, pass: &mut S::Pass, count: u32) -> u64
    requires belongs { S.belongs share.now pass.old }
    requires left { count ≤ (S.account pass.old).left }
{
    for made in 0..count {
        let Ok(op) = shared(alloc, u64::from(made)) else {
            return u64::from(made);
        };
        if share.call(alloc, pass, op).is_err() {
            return u64::from(made);
        }
    }
    u64::from(count)
}

// All passes, spread over so many threads.
fn play_rows<S: Share + Sync, R: Threads + Wait + Sync>(
    rt: &R,
    alloc: Global,
    share: &S,
    rows: &mut [Played<S::Pass>],
    threads: usize,
    count: u32,
)
where
    S::Pass: Send,
    requires threads { 0 < threads }
    requires rows { All (λ row. S.belongs share.now row.pass × (count ≤ (S.account row.pass).left)) rows.old }
{
    thread::for_each_mut(
        rt,
        rows,
        threads,
        &|_: usize, row: &mut Played<S::Pass>|
            requires { S.belongs share.now row.now.pass × (count ≤ (S.account row.now.pass).left) }
        { row.answered = calls(alloc, share, &mut row.pass, count) },
    );
}

// A row for each document below a number.
fn open_rows(
    alloc: Global,
    book: &TurnBook,
    first: &mut TurnPass,
    documents: u32,
) -> Result<Vec<Played<TurnPass>>, Failed>
    requires belongs { first.old.seat.table_id ≡ book.now.table.shared.table_id }
    requires first { (first.old.document ≡ 4294967295) × (made_of first.old ≡ []) }
    ensures { IfOk result (λ rows. All (λ row. (row.pass.seat.table_id ≡ book.now.table.shared.table_id)
        × (left_of row.pass ≡ 4294967295)) rows.items) }
{
    let mut rows = Vec::new(alloc);
    for document in 0..documents {
        let pass = book.pass(alloc, first, document)?;
        rows.push(Played { pass, answered: 0 })?;
    }
    Ok(rows)
}

// How many calls were answered.
fn answered_in<P>(rows: &[Played<P>]) -> u64 {
    let mut answered = 0u64;
    for row in rows {
        answered = answered.saturating_add(row.answered);
    }
    answered
}

/// Spreads so many passes of a shared book over so many threads, makes so many calls on each, by turns a lesson, a
/// question and a clear, and counts those that were answered.
pub(crate) fn answered<R: Threads + Wait + Sync>(
    rt: &R,
    alloc: Global,
    words: &Row,
) -> Result<u64, Failed> {
    let threads = some_in(words, 1)?;
    let passes = count_in(words, 2)?;
    let count = count_in(words, 3)?;
    let (book, mut first) = TurnBook::new(alloc, Book::new(alloc))?;
    let mut rows = open_rows(alloc, &book, &mut first, passes)?;
    let share = TurnShare { rt, book: &book };
    play_rows(rt, alloc, &share, rows.as_mut_slice(), threads, count);
    Ok(answered_in(rows.as_slice()))
}
