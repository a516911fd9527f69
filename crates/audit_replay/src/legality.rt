// The first entry of a given history that the book would not give, and the first that names no document.
ghost use Rattle.std.specs.Prelude.{◌≡◌, ◌↔◌, IfOk, IsTrue};
ghost use Rattle.std.specs.List.{All};
ghost use Rattle.book_calls.specs.Ops.{InRange};
ghost use Rattle.audit_replay.specs.Legality as spec;

use book_calls::{Book, Entry, Reply};
use std::alloc::Global;
use value_bytes::OutOfMemory;

// Whether an entry is the one of this turn, with this reply.
fn is_right(entry: &Entry, turn: u64, reply: Reply) -> bool
    ensures { IsTrue result ↔ ((entry.now.turn ≡ turn) × (entry.now.reply ≡ reply)) }
{
    entry.turn == turn && entry.reply == reply
}

/// The first entry of a history that the book would not give: its turn is not its number, counted from 0, or its reply
/// is not that of the book after the entries before it. `None` exactly where there is none. The ops are in range.
pub fn first_illegal(
    alloc: Global,
    mut book: Book,
    history: &[Entry],
) -> Result<Option<u64>, OutOfMemory>
    requires { All (λ entry. InRange entry.op) history.now }
    ensures { IfOk result (spec.IsJudged book history.now) }
{
    let mut turn = 0u64;
    for entry in history {
        let reply = book.apply(alloc, entry.op.get())?;
        if !is_right(entry, turn, reply) {
            return Ok(Some(turn));
        }
        turn += 1;
    }
    Ok(None)
}

// Where the first such entry is.
fn stranger_at(count: u32, history: &[Entry]) -> Option<usize>
    ensures { result ≡ spec.first_stranger count history.now }
{
    history.iter().position(|entry| count <= entry.document)
}

/// The first entry of a history whose document is none of so many, which are counted from 0.
pub fn first_stranger(count: u32, history: &[Entry]) -> Option<u64>
    ensures { result ≡ spec.first_stranger count history.now }
{
    match stranger_at(count, history) {
        None => None,
        Some(index) => Some(index as u64),
    }
}
