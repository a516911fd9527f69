// Two threads that make calls on a book.
ghost use Rattle.std.specs.Prelude.{◌≡◌, ◌≤◌, ◌<◌, ◌-◌, [], IfOk};
ghost use Rattle.book_turns.specs.Passes.{HasEveryPass, left_of, made_of};

use crate::books::reply;
use crate::ops::{numbered, turn_of};
use crate::passes::{collected, two_documents};
use book_calls::{Book, Entry, History, Reply, Share};
use book_turns::{TurnBook, TurnPass, TurnShare};
use rows_shell::{Failed, Held, Shown};
use std::alloc::Global;
use std::sync::Wait;
use std::thread;
use std::thread::Threads;
use value_bytes::Shared;

/// How many calls a thread makes.
const CALLS: u64 = 500;

/// A call that was answered: whose turn it was, its number, and the reply.
#[derive(Clone, Copy)]
struct Answered {
    turn: u8,
    number: u64,
    reply: Reply,
}

/// A thread's calls that were answered, in order. One that is refused memory is left out.
type Calls = Result<Vec<Answered>, Failed>;

// A thread's call of this turn and number.
fn make_call<R: Threads + Wait + Sync>(
    rt: &R,
    alloc: Global,
    book: &TurnBook,
    pass: &mut TurnPass,
    turn: u8,
    number: u64,
) -> Result<Reply, Failed>
    requires belongs { pass.old.seat.table_id ≡ book.now.table.shared.table_id }
    requires left { 0 < left_of pass.old }
    ensures belongs { pass.new.seat.table_id ≡ pass.old.seat.table_id }
    ensures document { pass.new.document ≡ pass.old.document }
    ensures left { left_of pass.old - 1 ≤ left_of pass.new }
{
    let op = Shared::new(alloc, numbered(alloc, turn, number)?)?;
    let share = TurnShare { rt, book };
    Ok(share.call(alloc, pass, op)?)
}

// A thread's calls, a lesson, a question and a clear by turns. After one that is refused the others are still made.
fn make_calls<R: Threads + Wait + Sync>(
    rt: &R,
    alloc: Global,
    book: &TurnBook,
    pass: &mut TurnPass,
) -> Calls
    requires belongs { pass.old.seat.table_id ≡ book.now.table.shared.table_id }
    requires left { 500 ≤ left_of pass.old }
    ensures belongs { pass.new.seat.table_id ≡ pass.old.seat.table_id }
    ensures document { pass.new.document ≡ pass.old.document }
{
    let mut calls = Vec::new(alloc);
    let mut turn = 0u8;
    for number in 0..CALLS {
        if let Ok(reply) = make_call(rt, alloc, book, pass, turn, number) {
            calls.push(Answered {
                turn,
                number,
                reply,
            })?;
        }
        turn = if turn < 2 { turn + 1 } else { 0 };
    }
    Ok(calls)
}

// A thread's calls. It gives its pass back, with those that were answered.
fn play_pass<R: Threads + Wait + Sync>(
    rt: &R,
    alloc: Global,
    book: &TurnBook,
    mut pass: TurnPass,
) -> (TurnPass, Calls)
    requires belongs { pass.seat.table_id ≡ book.now.table.shared.table_id }
    requires left { 500 ≤ left_of pass }
    ensures belongs { result.0.seat.table_id ≡ pass.seat.table_id }
    ensures document { result.0.document ≡ pass.document }
{
    let calls = make_calls(rt, alloc, book, &mut pass);
    (pass, calls)
}

// Whether an entry is of a call, if there is one, with its reply.
fn is_of(entry: &Entry, call: Option<&Answered>) -> bool {
    match (turn_of(entry.op.get()), call) {
        (Some((turn, number)), Some(call)) => {
            turn == call.turn && number == call.number && entry.reply == call.reply
        }
        _ => false,
    }
}

// Whether the entries of a document are the calls of a thread that were answered, in order, with their replies.
fn are_calls(entries: &[Entry], document: u32, calls: &[Answered]) -> bool {
    let mut place = 0usize;
    for entry in entries {
        if entry.document == document {
            if !is_of(entry, calls.get(place)) {
                return false;
            }
            place = place.saturating_add(1);
        }
    }
    place == calls.len()
}

// Whether an entry of a thread's op has this turn or a later one, and the reply that a book of one thread gives to the
// op.
fn is_next(alloc: Global, book: &mut Book, turn: u64, entry: &Entry) -> Result<bool, Failed> {
    match turn_of(entry.op.get()) {
        Some((own, number)) => {
            let reply = reply(alloc, book, numbered(alloc, own, number))?;
            Ok(reply == entry.reply && turn <= entry.turn && entry.turn < 2 * CALLS)
        }
        None => Ok(false),
    }
}

// Whether turns rise and each entry has the reply that a book of one thread gives to its op. (So entry i of 1,000 has
// turn i.)
fn is_legal(alloc: Global, entries: &[Entry]) -> Result<bool, Failed> {
    let mut book = Held {
        value: Book::new(alloc),
    };
    let mut turn = 0u64;
    for entry in entries {
        if !is_next(alloc, &mut book.value, turn, entry)? {
            return Ok(false);
        }
        turn = entry.turn.saturating_add(1);
    }
    Ok(true)
}

// Both passes at once, each on a thread.
fn play_both<R: Threads + Wait + Sync>(
    rt: &R,
    alloc: Global,
    shared: &TurnBook,
    zero: TurnPass,
    one: TurnPass,
) -> ((TurnPass, Calls), (TurnPass, Calls))
    requires zero { (zero.seat.table_id ≡ shared.now.table.shared.table_id) × (500 ≤ left_of zero) }
    requires one { (one.seat.table_id ≡ shared.now.table.shared.table_id) × (500 ≤ left_of one) }
    ensures zero { (result.0.0.seat.table_id ≡ zero.seat.table_id) × (result.0.0.document ≡ zero.document) }
    ensures one { (result.1.0.seat.table_id ≡ one.seat.table_id) × (result.1.0.document ≡ one.document) }
{
    thread::join(
        rt,
        move ||
            requires { (zero.seat.table_id ≡ shared.now.table.shared.table_id) × (500 ≤ left_of zero) }
            ensures { (result.0.seat.table_id ≡ zero.seat.table_id) × (result.0.document ≡ zero.document) }
        { play_pass(rt, alloc, shared, zero) },
        move ||
            requires { (one.seat.table_id ≡ shared.now.table.shared.table_id) × (500 ≤ left_of one) }
            ensures { (result.0.seat.table_id ≡ one.seat.table_id) × (result.0.document ≡ one.document) }
        { play_pass(rt, alloc, shared, one) },
    )
}

// Two threads on a book. All passes come back.
fn play_passes<R: Threads + Wait + Sync>(
    rt: &R,
    alloc: Global,
    book: &TurnBook,
    mut first: TurnPass,
) -> Result<(Vec<TurnPass>, Calls, Calls), Failed>
    requires belongs { first.seat.table_id ≡ book.now.table.shared.table_id }
    requires first { (first.document ≡ 4294967295) × (made_of first ≡ []) }
    ensures { IfOk result (λ played. HasEveryPass book.now.table.shared.table_id played.0.items) }
{
    let room = Vec::with_capacity(alloc, 3)?;
    let (zero, one) = two_documents(alloc, book, &mut first)?;
    let ((zero, low), (one, high)) = play_both(rt, alloc, book, zero, one);
    Ok((collected(room, first, zero, one), low, high))
}

// The history of two threads, with the calls of each.
fn history_of<R: Threads + Wait + Sync>(
    rt: &R,
    alloc: Global,
) -> Result<(History, Calls, Calls), Failed> {
    let (book, first) = TurnBook::new(alloc, Book::new(alloc))?;
    let (passes, low, high) = play_passes(rt, alloc, &book, first)?;
    Ok((book.close(passes).history, low, high))
}

// Whether a thread's calls are those of a document.
fn show_calls(
    entries: &[Entry],
    document: u32,
    calls: &Calls,
    shown: &mut Shown,
) -> Result<(), Failed> {
    let Ok(calls) = calls else {
        return Err(Failed);
    };
    shown.add_count(b"document ", document as usize);
    shown.add(b" made its calls: ");
    add_truth(are_calls(entries, document, calls.as_slice()), shown);
    Ok(())
}

// `true` or `false`.
fn add_truth(answer: bool, shown: &mut Shown) {
    shown.add(if answer {
        b"true\n".as_slice()
    } else {
        b"false\n"
    });
}

// What two threads have left.
fn show_left(
    alloc: Global,
    entries: &[Entry],
    low: &Calls,
    high: &Calls,
    shown: &mut Shown,
) -> Result<(), Failed> {
    shown.add_number(entries.len() as u64);
    shown.add(b" entries\n");
    show_calls(entries, 0, low, shown)?;
    show_calls(entries, 1, high, shown)?;
    shown.add(b"the history is legal: ");
    add_truth(is_legal(alloc, entries)?, shown);
    Ok(())
}

// Two threads make 500 calls each on one book.
pub(crate) fn show_threads<R: Threads + Wait + Sync>(
    rt: &R,
    alloc: Global,
    shown: &mut Shown,
) -> Result<(), Failed> {
    shown.add(b"# two threads\n");
    let (history, low, high) = history_of(rt, alloc)?;
    show_left(alloc, history.as_slice(), &low, &high, shown)
}
