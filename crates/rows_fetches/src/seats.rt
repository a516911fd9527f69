// Two documents that are played by `play_all` itself, each on a seat of its own: a pass of one book that takes turns,
// and a link that gives its answer only once both have sent their requests. Shown is how each has ended, and how many
// events it has shown.
ghost use Rattle.std.specs.Prelude.{◌≡◌, [], ◌∷◌, length, map, IfOk};
ghost use Rattle.std.specs.List.{All};
ghost use Rattle.script_scenarios.specs.Valid.{IsValid};
ghost use Rattle.book_turns.specs.Passes.{left_of, made_of};

use crate::scenarios::{TWO_DOCUMENTS, scenario_in};
use book_calls::Book;
use book_turns::{TurnBook, TurnPass, TurnShare};
use play_definitions::Seating;
use play_documents::ByFetches;
use play_fetch::OverLink;
use play_threads::play_all;
use rows_links::{Asked, WaitingLink, WaitingLinks, waiting_for};
use rows_shell::{Failed, Shown};
use script_events::{Ending, Transcript};
use script_scenarios::Scenario;
use std::alloc::Global;
use std::sync::Wait;
use std::thread::Threads;
use value_bytes::OutOfMemory;

// The seats of two documents.
fn seats_of<'a>(
    alloc: Global,
    book: &TurnBook,
    first: &mut TurnPass,
    links: &WaitingLinks<'a>,
) -> Result<Vec<Seating<WaitingLink<'a>, TurnPass>>, OutOfMemory>
    requires belongs { first.old.seat.table_id ≡ book.now.table.shared.table_id }
    requires first { first.old.document ≡ 4294967295 }
    requires none { made_of first.old ≡ [] }
    ensures documents { IfOk result (λ seats. map (λ s. s.pass.document) seats.items ≡ 0 ∷ 1 ∷ []) }
    ensures left { IfOk result (λ seats. All (λ s. left_of s.pass ≡ 4294967295) seats.items) }
    ensures belong { IfOk result (λ seats. All (λ s. s.pass.seat.table_id ≡ book.now.table.shared.table_id)
        seats.items) }
{
    let mut seats = Vec::with_capacity(alloc, 2)?;
    seats.push_reserved(Seating {
        pass: book.pass(alloc, first, 0)?,
        link: links.link(0),
    });
    seats.push_reserved(Seating {
        pass: book.pass(alloc, first, 1)?,
        link: links.link(1),
    });
    Ok(seats)
}

// How a document has ended.
fn show(transcript: &Transcript, shown: &mut Shown) {
    shown.add_count(b"document ", transcript.document as usize);
    shown.add_count(b" events ", transcript.events.len());
    shown.add(match transcript.ending {
        Ending::Finished => b" finished\n".as_slice(),
        _ => b" not finished\n".as_slice(),
    });
}

// Plays two documents on these seats.
fn play_on<'a, R: Threads + Wait + Sync>(
    rt: &R,
    alloc: Global,
    scenario: &Scenario,
    book: &TurnBook,
    seats: &mut Vec<Seating<WaitingLink<'a>, TurnPass>>,
    shown: &mut Shown,
) -> Result<(), Failed>
    requires valid { IsValid scenario.now }
    requires two { length scenario.now.documents ≡ 2 }
    requires documents { map (λ s. s.pass.document) seats.old.items ≡ 0 ∷ 1 ∷ [] }
    requires left { All (λ s. left_of s.pass ≡ 4294967295) seats.old.items }
    requires belong { All (λ s. s.pass.seat.table_id ≡ book.now.table.shared.table_id) seats.old.items }
{
    let share = TurnShare { rt, book };
    let driver = ByFetches { fetcher: OverLink };
    let transcripts = play_all(rt, &driver, alloc, scenario, 0, &share, 2, seats)?;
    for transcript in transcripts.as_slice() {
        show(transcript, shown);
    }
    Ok(())
}

// Plays the two documents over a book and its first pass.
fn play_over<R: Threads + Wait + Sync>(
    rt: &R,
    alloc: Global,
    scenario: &Scenario,
    book: &TurnBook,
    first: &mut TurnPass,
    shown: &mut Shown,
) -> Result<(), Failed>
    requires valid { IsValid scenario.now }
    requires two { length scenario.now.documents ≡ 2 }
    requires belongs { first.old.seat.table_id ≡ book.now.table.shared.table_id }
    requires first { first.old.document ≡ 4294967295 }
    requires none { made_of first.old ≡ [] }
{
    let asked = Asked::none();
    let links = WaitingLinks::new(&asked, waiting_for(2));
    let mut seats = seats_of(alloc, book, first, &links)?;
    play_on(rt, alloc, scenario, book, &mut seats, shown)
}

/// Plays the two documents of `TWO_DOCUMENTS`, each on a seat of its own.
pub fn play_on_seats<R: Threads + Wait + Sync + AllocGlobal>(
    rt: &R,
    shown: &mut Shown,
) -> Result<(), Failed> {
    let alloc = rt.alloc();
    let scenario = scenario_in(alloc, TWO_DOCUMENTS)?;
    if scenario.value.documents.len() != 2 {
        return Err(Failed);
    }
    let (book, mut first) = TurnBook::new(alloc, Book::new(alloc))?;
    play_over(rt, alloc, &scenario.value, &book, &mut first, shown)
}
