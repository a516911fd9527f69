// A book that two passes share.
ghost use Rattle.std.specs.Prelude.{◌≡◌, ◌<◌, [], IfOk};
ghost use Rattle.book_turns.specs.Passes.{HasEveryPass, left_of, made_of};

use crate::alone::show_entries;
use crate::ops::op_of;
use crate::passes::{collected, two_documents};
use book_calls::{Book, History, Share};
use book_turns::{FIRST, TurnBook, TurnPass, TurnShare};
use rows_shell::{Failed, Shown};
use std::alloc::Global;
use std::sync::Wait;
use std::thread::Threads;
use value_bytes::Shared;

// One pass learns, and the other asks.
fn learn_and_ask<R: Threads + Wait + Sync>(
    rt: &R,
    alloc: Global,
    book: &TurnBook,
    zero: &mut TurnPass,
    one: &mut TurnPass,
) -> Result<(), Failed>
    requires zero { (zero.old.seat.table_id ≡ book.now.table.shared.table_id) × (0 < left_of zero.old) }
    requires one { (one.old.seat.table_id ≡ book.now.table.shared.table_id) × (0 < left_of one.old) }
    ensures zero { (zero.new.seat.table_id ≡ zero.old.seat.table_id) × (zero.new.document ≡ zero.old.document) }
    ensures one { (one.new.seat.table_id ≡ one.old.seat.table_id) × (one.new.document ≡ one.old.document) }
{
    let learnt = op_of(alloc, b"learn k http://b.test/x other 5 PUT - 9")?;
    let share = TurnShare { rt, book };
    share.call(alloc, zero, Shared::new(alloc, learnt)?)?;
    let asked = op_of(alloc, b"covers k http://b.test/x other PUT - 9")?;
    share.call(alloc, one, Shared::new(alloc, asked)?)?;
    Ok(())
}

// Two passes and what they do on a book. All passes come back.
fn play_passes<R: Threads + Wait + Sync>(
    rt: &R,
    alloc: Global,
    book: &TurnBook,
    mut first: TurnPass,
    shown: &mut Shown,
) -> Result<Vec<TurnPass>, Failed>
    requires belongs { first.seat.table_id ≡ book.now.table.shared.table_id }
    requires first { (first.document ≡ 4294967295) × (made_of first ≡ []) }
    ensures { IfOk result (λ passes. HasEveryPass book.now.table.shared.table_id passes.items) }
{
    let room = Vec::with_capacity(alloc, 3)?;
    let (mut zero, mut one) = two_documents(alloc, book, &mut first)?;
    if learn_and_ask(rt, alloc, book, &mut zero, &mut one).is_err() {
        shown.fail();
    }
    Ok(collected(room, first, zero, one))
}

// The history of two passes.
fn history_of<R: Threads + Wait + Sync>(
    rt: &R,
    alloc: Global,
    shown: &mut Shown,
) -> Result<History, Failed> {
    let (book, first) = TurnBook::new(alloc, Book::new(alloc))?;
    let passes = play_passes(rt, alloc, &book, first, shown)?;
    Ok(book.close(passes).history)
}

// What one document learnt another is told.
pub(crate) fn show_passes<R: Threads + Wait + Sync>(
    rt: &R,
    alloc: Global,
    shown: &mut Shown,
) -> Result<(), Failed> {
    shown.add(b"# two passes\n");
    let history = history_of(rt, alloc, shown)?;
    show_entries(history.as_slice(), shown);
    shown.add(b"the first pass is that of document ");
    shown.add_number(u64::from(FIRST));
    shown.add(b"\n");
    Ok(())
}
