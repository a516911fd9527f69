// A play is opened: its book, and the seats of its documents.
ghost use Rattle.std.specs.Prelude.{◌≤◌, ◌+◌, vec_capacity, vec_len, IfOk, OnErr};
ghost use Rattle.script_scenarios.specs.Valid.{IsValid};
ghost use Rattle.play_seats.specs.Makers.{CameBack, WereMade, maker_of};
ghost use Rattle.play_seats.specs.Seated.{AreReady, links_in};

use crate::book::opened;
use crate::passes::passes_of;
use crate::seats::{seat_all, unseat};
use book_turns::{TurnBook, TurnPass};
use link_traits::Links;
use play_definitions::Seating;
use script_scenarios::Scenario;
use std::alloc::Global;
use value_bytes::OutOfMemory;

/// A play that is open: its book, the seats of its documents, in order, and the first pass of the book, behind which
/// there is room for those of the seats.
#[derive(Drop)]
pub struct OpenPlay<L> {
    pub book: TurnBook,
    pub seats: Vec<Seating<L, TurnPass>>,
    pub passes: Vec<TurnPass>,
}

/// Opens a play: the book in which the scenario's known hosts are noted, and a seat for each document, with a pass of
/// the book and with a link. `OutOfMemory` where memory was refused, or where a link could not be made: the links that
/// were made were taken back then, in order of documents, as they were.
pub fn open_play<N: Links>(
    alloc: Global,
    scenario: &Scenario,
    links: &mut N,
) -> Result<OpenPlay<N::Link>, OutOfMemory>
    requires { IsValid scenario.now }
    ensures ready { IfOk result (λ play. AreReady play.book.table.shared.table_id scenario.entry.now play.passes.items
        play.seats.items) }
    ensures room { IfOk result (λ play. vec_len play.seats + vec_len play.passes ≤ vec_capacity play.passes) }
    ensures made { IfOk result (λ play. WereMade (maker_of N.opening N.lent N.faults links.old)
        (maker_of N.opening N.lent N.faults links.new) scenario.entry.now (links_in play.seats.items)) }
    ensures refused { OnErr result (CameBack N.Link.told (maker_of N.opening N.lent N.faults links.old)
        (maker_of N.opening N.lent N.faults links.new) scenario.entry.now) }
{
    let opening = opened(alloc, scenario.hosts.as_slice())?;
    let (book, mut first) = TurnBook::new(alloc, opening)?;
    let count = scenario.documents.len();
    let made = passes_of(alloc, &book, &mut first, count)?;
    let mut seats = Vec::with_capacity(alloc, count)?;
    let mut passes = Vec::with_capacity(alloc, count + 1)?;
    passes.push_reserved(first);
    match seat_all(alloc, &scenario.routes, made, links, &mut seats) {
        Ok(()) => Ok(OpenPlay {
            book,
            seats,
            passes,
        }),
        Err(OutOfMemory) => {
            unseat(seats, links, &mut passes);
            Err(OutOfMemory)
        }
    }
}
