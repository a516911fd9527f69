// A book that threads call: each call waits for its turn.
ghost use Rattle.std.specs.Prelude.{◌≡◌, ◌≢◌, ◌-◌, ◌<◌, [], ◌∷◌, IfOk, OnErr};
ghost use Rattle.book_calls.specs.Entries.{Extends, StartsWith, entries_of};
ghost use Rattle.book_calls.specs.Ops.{InRange, is_answer, is_question};
ghost use Rattle.book_turns.specs.Counts.{times};
ghost use Rattle.book_turns.specs.Passes.{left_of, made_of, opening_of, own_of, seen_of};

use crate::desk::Desk;
use crate::pass::{FIRST, TurnPass};
use crate::steps::{Fork, Name, Turns};
use crate::turn::take_turn;
use crate::view::View;
use atomic_table::{Refused, Table};
use book_calls::{Book, History, Op, Reply, Share};
use std::alloc::Global;
use std::hint::spin_loop;
use std::snapshot::Snapshot;
use std::sync::{Mutex, MutexGuard, Wait};
use value_bytes::{OutOfMemory, Shared};

/// A book that threads share. A call waits for its turn; whose is next, no clause says.
#[derive(Drop)]
pub struct TurnBook {
    pub(crate) table: Table<Option<Desk>, View, Snapshot<Book>, Turns, Global>,
    // Locked for the whole of a call, so that a thread that waits sleeps before it draws its ticket.
    pub(crate) door: Mutex<()>,
    ghost sized: { (table.shared.table_id.words ≡ 2) × (table.shared.table_id.slots ≡ 1) },
}

impl TurnBook {
    /// Opens the book to threads, and gives its first pass, with document `FIRST`.
    pub fn new(alloc: Global, book: Book) -> Result<(TurnBook, TurnPass), OutOfMemory>
        ensures belongs { IfOk result (λ r. r.1.seat.table_id ≡ r.0.table.shared.table_id) }
        ensures first { IfOk result (λ r.
            (r.1.document ≡ 4294967295) × (opening_of r.1 ≡ book) × (left_of r.1 ≡ 4294967295)) }
        ensures new { IfOk result (λ r. (own_of r.1 ≡ []) × (seen_of r.1 ≡ []) × (made_of r.1 ≡ [])) }
    {
        let key = Snapshot::of(&book);
        let mut slots = Vec::with_capacity(alloc, 1)?;
        slots.push_reserved(Some(Desk {
            book,
            history: History::new(alloc),
        }));
        match Table::new(alloc, &[0, 0], slots, &key) {
            Ok((table, seat)) => Ok((
                TurnBook {
                    table,
                    door: Mutex::new(()),
                },
                TurnPass {
                    document: FIRST,
                    seat,
                },
            )),
            Err(Refused { slots: _ }) => Err(OutOfMemory),
        }
    }

    /// A pass for a document that has none. It has seen what the first pass has seen. The first pass
    /// stays as it was, but for the documents that it has made passes for.
    pub fn pass(
        &self,
        _alloc: Global,
        parent: &mut TurnPass,
        document: u32,
    ) -> Result<TurnPass, OutOfMemory>
        requires belongs { parent.old.seat.table_id ≡ self.now.table.shared.table_id }
        requires first { parent.old.document ≡ 4294967295 }
        requires fresh { (document ≢ 4294967295) × (times document (made_of parent.old) ≡ 0) }
        ensures belongs { (parent.new.seat.table_id ≡ parent.old.seat.table_id)
            × IfOk result (λ pass. pass.seat.table_id ≡ self.now.table.shared.table_id) }
        ensures new { IfOk result (λ pass.
            (pass.document ≡ document) × (opening_of pass ≡ opening_of parent.old) × (own_of pass ≡ [])
            × (seen_of pass ≡ seen_of parent.old) × (left_of pass ≡ 4294967295)) }
        ensures made { IfOk result (λ pass. made_of parent.new ≡ document ∷ made_of parent.old) }
        ensures same { (parent.new.document ≡ parent.old.document) × (opening_of parent.new ≡ opening_of parent.old)
            × (own_of parent.new ≡ own_of parent.old) × (seen_of parent.new ≡ seen_of parent.old)
            × (left_of parent.new ≡ left_of parent.old) }
        ensures err { OnErr result (made_of parent.new ≡ made_of parent.old) }
    {
        let shared = &self.table.shared;
        let seat = &mut parent.seat;
        let word = u64::from(document);
        shared.compare_exchange::<Name>(seat, 0, word, word);
        let seat = shared.split_seat::<Fork>(seat);
        Ok(TurnPass { document, seat })
    }
}

// How often a thread looks whether the door is open before it sleeps.
const LOOKS: u32 = 100;

// How many pauses of the processor there are between two looks.
const PAUSES: u32 = 8;

// Waits for a moment.
fn pause() {
    for _ in 0..PAUSES {
        spin_loop();
    }
}

impl TurnBook {
    // Enters by the door. A call takes less time than to fall asleep and be woken, so a thread looks for a while first.
    fn enter<R: Wait>(&self, rt: &R) -> MutexGuard<'_, ()> {
        for _ in 0..LOOKS {
            if let Some(entered) = self.door.try_lock() {
                return entered;
            }
            pause();
        }
        self.door.lock(rt)
    }
}

/// The share that a book gives to threads, with the runtime by which its calls wait.
#[derive(Drop)]
pub struct TurnShare<'a, R> {
    pub rt: &'a R,
    pub book: &'a TurnBook,
}

impl<'a, R: Wait> Share for TurnShare<'a, R> {
    type Pass = TurnPass;

    ghost use Rattle.std.specs.Prelude.{◌≡◌};
    ghost use Rattle.book_turns.specs.Passes.{account_of};

    ghost belongs = { λ s p. p.seat.table_id ≡ s.book.now.table.shared.table_id };

    ghost account = { account_of };

    /// Does an operation, as any share does: it waits for its turn, works on the book and passes the turn.
    /// The documents that the pass has made passes for stay as well.
    fn call(&self, alloc: Global, pass: &mut TurnPass, op: Shared<Op>) -> Result<Reply, OutOfMemory>
        requires belongs { pass.old.seat.table_id ≡ self.now.book.now.table.shared.table_id }
        requires left { 0 < left_of pass.old }
        requires range { InRange op }
        ensures belongs { pass.new.seat.table_id ≡ self.now.book.now.table.shared.table_id }
        ensures same { (pass.new.document ≡ pass.old.document) × (opening_of pass.new ≡ opening_of pass.old) }
        ensures made { made_of pass.new ≡ made_of pass.old }
        ensures left { left_of pass.new ≡ left_of pass.old - 1 }
        ensures ok { IfOk result (λ answer. Extends (opening_of pass.old) pass.old.document op answer
            (own_of pass.old) (own_of pass.new) (seen_of pass.old) (seen_of pass.new)) }
        ensures kind { IfOk result (λ answer. is_answer answer ≡ is_question op) }
        ensures err { OnErr result
            ((own_of pass.new ≡ own_of pass.old) × StartsWith (seen_of pass.new) (seen_of pass.old)) }
        ensures whole { entries_of pass.new.document (seen_of pass.new) ≡ own_of pass.new }
    {
        let _entered = self.book.enter(self.rt);
        take_turn(
            self.rt,
            alloc,
            &self.book.table.shared,
            &mut pass.seat,
            pass.document,
            op,
        )
    }
}
