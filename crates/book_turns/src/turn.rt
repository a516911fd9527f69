// One call, from its ticket to the turn of the next one.
ghost use Rattle.std.specs.Prelude.{◌≡◌, ◌+◌, ◌<◌, true, false, IfOk, OnErr};
ghost use Rattle.book_calls.specs.Entries.{Extends, StartsWith, entries_of};
ghost use Rattle.book_calls.specs.Ops.{InRange, is_answer, is_question};
ghost use Rattle.book_turns.specs.Private.Rest.{IsAtRest};
ghost use Rattle.book_turns.specs.Private.Steps.{Made, Served};

use crate::desk::Desk;
use crate::steps::{Draw, Look, Note, Pass, Turns};
use crate::view::View;
use atomic_table::Seat;
use book_calls::{Book, Op, Reply};
use std::alloc::Global;
use std::snapshot::Snapshot;
use std::sync::Wait;
use std::thread;
use value_bytes::{OutOfMemory, Shared};

/// The seat of a pass.
pub type Held = Seat<Option<Desk>, View>;

/// What all passes share. Word 0 is the ticket that is drawn next, word 1 the one that is served.
pub type Common = atomic_table::Shared<Option<Desk>, View, Snapshot<Book>, Turns>;

// Looks until the ticket is served. That is at the first look where calls come one at a time, as those of
// `TurnBook` do.
fn wait<R: Wait>(rt: &R, shared: &Common, seat: &mut Held, ticket: u64)
    requires table { (seat.old.table_id ≡ shared.now.table_id) × (shared.now.table_id.words ≡ 2) }
    requires waits { (seat.old.me.0.live ≡ true) × (seat.old.me.0.waits ≡ true)
        × (seat.old.me.0.served ≡ false) × (seat.old.me.0.ticket ≡ ticket) }
    ensures table { (seat.new.table_id ≡ seat.old.table_id) × (seat.new.id ≡ seat.old.id) }
    ensures served { Served seat.old.me seat.new.me.0.seen seat.new.me }
{
    for _ in rt.forever() {
        if shared.load::<Look>(seat, 1) == ticket {
            return;
        }
        thread::yield_now();
    }
    unreachable!()
}

// The op on the desk, with its entry.
fn work(
    alloc: Global,
    desk: &mut Desk,
    turn: u64,
    document: u32,
    op: Shared<Op>,
) -> Result<Reply, OutOfMemory>
    requires { InRange op }
    ensures made { Made turn document op desk.old desk.new result }
    ensures kind { IfOk result (λ answer. is_answer answer ≡ is_question op) }
{
    desk.history
        .apply(alloc, &mut desk.book, turn, document, op)
}

// Draws a ticket, waits, works on the desk and passes the turn. Before the turn is passed the desk is put
// back, and what was added to its history is noted.
pub(crate) fn take_turn<R: Wait>(
    rt: &R,
    alloc: Global,
    shared: &Common,
    seat: &mut Held,
    document: u32,
    op: Shared<Op>,
) -> Result<Reply, OutOfMemory>
    requires table { (seat.old.table_id ≡ shared.now.table_id)
        × (shared.now.table_id.words ≡ 2) × (shared.now.table_id.slots ≡ 1) }
    requires rest { IsAtRest seat.old.me document }
    requires left { seat.old.me.0.draws < 4294967295 }
    requires range { InRange op }
    ensures table { (seat.new.table_id ≡ seat.old.table_id) × (seat.new.id ≡ seat.old.id) }
    ensures rest { IsAtRest seat.new.me document }
    ensures same { (seat.new.me.0.opening ≡ seat.old.me.0.opening) × (seat.new.me.0.made ≡ seat.old.me.0.made)
        × (seat.new.me.0.draws ≡ seat.old.me.0.draws + 1) }
    ensures ok { IfOk result (λ answer. Extends seat.old.me.0.opening document op answer
        seat.old.me.0.own seat.new.me.0.own seat.old.me.0.seen seat.new.me.0.seen) }
    ensures kind { IfOk result (λ answer. is_answer answer ≡ is_question op) }
    ensures err { OnErr result
        ((seat.new.me.0.own ≡ seat.old.me.0.own) × StartsWith seat.new.me.0.seen seat.old.me.0.seen) }
    ensures whole { entries_of document seat.new.me.0.seen ≡ seat.new.me.0.own }
{
    let ticket = shared.fetch_add::<Draw>(seat, 0, 1);
    wait(rt, shared, seat, ticket);
    let Some(mut desk) = shared.exchange(seat, 0, None) else {
        unreachable!()
    };
    let answer = work(alloc, &mut desk, ticket, document, op);
    drop(shared.exchange(seat, 0, Some(desk)));
    shared.load::<Note>(seat, 1);
    shared.store::<Pass>(seat, 1, ticket + 1);
    answer
}
