// Closes a shared book: all passes come back, and leave the book and the one history of their calls.
ghost use Rattle.std.specs.Prelude.{◌≡◌, ◌<◌, ◌∷◌, true, length, slice_index_or};
ghost use Rattle.std.specs.List.{All, count_by};
ghost use Rattle.std.specs.List.Sorted.{IsPermutation};
ghost use Rattle.book_turns.specs.Passes.{HasEveryPass, IsOneHistory, is_of};
ghost use Rattle.book_turns.specs.Private.Taken.{taken_in};

use crate::book::TurnBook;
use crate::desk::Desk;
use crate::pass::{FIRST, TurnPass};
use crate::steps::End;
use crate::turn::{Common, Held};
use book_calls::{Book, History};

/// What a closed book leaves.
#[derive(Drop)]
pub struct Closed {
    pub book: Book,
    pub history: History,
}

// The index of the first pass.
fn first_at(passes: &[TurnPass]) -> usize
    requires { 0 < count_by (is_of 4294967295) passes.now }
    ensures bound { result < length passes.now }
    ensures first { (d : _) → (slice_index_or passes.now result d).document ≡ 4294967295 }
{
    for (i, pass) in passes.iter().enumerate() {
        if pass.document == FIRST {
            return i;
        }
    }
    unreachable!()
}

// Takes the first pass out.
fn take_first(passes: &mut Vec<TurnPass>) -> TurnPass
    requires { 0 < count_by (is_of 4294967295) passes.old.items }
    ensures first { result.document ≡ 4294967295 }
    ensures rest { IsPermutation passes.old.items (result ∷ passes.new.items) }
{
    let at = first_at(passes.as_slice());
    passes.swap_remove(at)
}

// The first pass takes in the others.
fn gather(shared: &Common, first: &mut Held, mut passes: Vec<TurnPass>)
    requires table { (first.old.table_id ≡ shared.now.table_id) × (shared.now.table_id.words ≡ 2) }
    requires first { (first.old.me.0.live ≡ true) × (first.old.me.0.document ≡ 4294967295) }
    requires belong { All (λ p. p.seat.table_id ≡ shared.now.table_id) passes.items }
    ensures table { first.new.table_id ≡ first.old.table_id }
    ensures taken { first.new.me.0 ≡ taken_in first.old.me.0 passes.items }
{
    while let Some(pass) = passes.pop() {
        let TurnPass { document: _, seat } = pass;
        shared.join_seat::<End>(first, seat);
    }
}

impl TurnBook {
    /// Closes the book: the first pass and that of each document come back, in any order, and leave the
    /// book and the one history of all calls. It takes no memory.
    pub fn close(self, mut passes: Vec<TurnPass>) -> Closed
        requires { HasEveryPass self.table.shared.table_id passes.items }
        ensures { IsOneHistory passes.items result.book result.history }
    {
        let first = take_first(&mut passes);
        let TurnPass {
            document: _,
            mut seat,
        } = first;
        gather(&self.table.shared, &mut seat, passes);
        let TurnBook { table, door: _ } = self;
        let mut closed = table.close_with(seat);
        let taken = closed.take(0);
        closed.free();
        let Some(Desk { book, history }) = taken else {
            unreachable!()
        };
        Closed { book, history }
    }
}
