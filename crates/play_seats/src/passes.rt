// Passes of the shared book.
ghost use Rattle.std.specs.Prelude.{◌≡◌, ◌≤◌, ◌<◌, [], IfOk};
ghost use Rattle.book_turns.specs.Passes.{HasEveryPass, IsOneHistory, left_of, made_of, opening_of, own_of};
ghost use Rattle.play_seats.specs.Passes.{ArePasses, IsFirst};

use book_calls::Book;
use book_turns::{TurnBook, TurnPass};
use std::alloc::Global;
use value_bytes::OutOfMemory;

/// Makes passes of a shared book for so many documents, in order, at most 128. The first pass of the book, on which no
/// call was made and which has made no other pass, has made just these then. Where memory is refused those that were
/// made are gone, and the book cannot be closed.
pub fn passes_of(
    alloc: Global,
    book: &TurnBook,
    first: &mut TurnPass,
    count: usize,
) -> Result<Vec<TurnPass>, OutOfMemory>
    requires first { IsFirst book.now.table.shared.table_id (opening_of first.old) first.old }
    requires none { made_of first.old ≡ [] }
    requires few { count ≤ 128 }
    ensures passes { IfOk result (λ passes. ArePasses book.now.table.shared.table_id (opening_of first.old) count
        first.new passes.items) }
{
    let mut passes = Vec::with_capacity(alloc, count)?;
    for number in 0..count {
        passes.push_reserved(book.pass(alloc, first, number as u32)?);
    }
    Ok(passes)
}
