// The passes of two documents that share a book.
ghost use Rattle.std.specs.Prelude.{◌≡◌, ◌≤◌, [], ◌∷◌, IfOk, vec_capacity};
ghost use Rattle.book_turns.specs.Passes.{left_of, made_of};

use book_turns::{TurnBook, TurnPass};
use rows_shell::Failed;
use std::alloc::Global;

// The passes of documents 0 and 1.
pub(crate) fn two_documents(
    alloc: Global,
    book: &TurnBook,
    first: &mut TurnPass,
) -> Result<(TurnPass, TurnPass), Failed>
    requires belongs { first.old.seat.table_id ≡ book.now.table.shared.table_id }
    requires first { (first.old.document ≡ 4294967295) × (made_of first.old ≡ []) }
    ensures first { IfOk result (λ r. (first.new.seat.table_id ≡ book.now.table.shared.table_id)
        × (first.new.document ≡ 4294967295) × (made_of first.new ≡ 1 ∷ 0 ∷ [])) }
    ensures belong { IfOk result (λ r. (r.0.seat.table_id ≡ book.now.table.shared.table_id)
        × (r.1.seat.table_id ≡ book.now.table.shared.table_id)) }
    ensures new { IfOk result (λ r. (r.0.document ≡ 0) × (r.1.document ≡ 1)
        × (left_of r.0 ≡ 4294967295) × (left_of r.1 ≡ 4294967295)) }
{
    let zero = book.pass(alloc, first, 0)?;
    let one = book.pass(alloc, first, 1)?;
    Ok((zero, one))
}

// All passes, to close the book with, in the room for them.
pub(crate) fn collected(
    mut room: Vec<TurnPass>,
    first: TurnPass,
    zero: TurnPass,
    one: TurnPass,
) -> Vec<TurnPass>
    requires empty { room.items ≡ [] }
    requires room { 3 ≤ vec_capacity room }
    ensures { result.items ≡ one ∷ first ∷ zero ∷ [] }
{
    room.push_reserved(one);
    room.push_reserved(first);
    room.push_reserved(zero);
    room
}
