// The seats of the documents: each has a pass of the shared book, and a link.
ghost use Rattle.std.specs.Prelude.{◌≡◌, ◌≤◌, ◌+◌, ◌++◌, [], length, map, option_map, vec_capacity, vec_len, OnOk};
ghost use Rattle.link_traits.specs.Links.{faults_told};
ghost use Rattle.play_seats.specs.Links.{AreOpened, for_documents, grown_by_all};
ghost use Rattle.play_seats.specs.Lendings.{AreTaken, out_more};
ghost use Rattle.play_seats.specs.Seated.{links_in};

use book_turns::TurnPass;
use link_traits::{Links, Routes};
use play_definitions::Seating;
use std::alloc::Global;
use value_bytes::OutOfMemory;

/// Seats the documents of these passes, at most 128: makes the link of each by these routes, in order, and puts it
/// beside the pass. There are no seats yet, and there is room for as many. Where a link cannot be made, those made
/// before have their seats.
pub fn seat_all<N: Links>(
    alloc: Global,
    routes: &Routes,
    passes: Vec<TurnPass>,
    links: &mut N,
    seats: &mut Vec<Seating<N::Link, TurnPass>>,
) -> Result<(), OutOfMemory>
    requires none { seats.old.items ≡ [] }
    requires room { vec_len passes ≤ vec_capacity seats.old }
    requires few { vec_len passes ≤ 128 }
    ensures passes { OnOk result (map (λ s. s.pass) seats.new.items ≡ passes.items) }
    ensures opened { AreOpened (for_documents (N.opening links.old) routes.entry.now)
        (map (λ s. s.link) seats.new.items) }
    ensures few { length seats.new.items ≤ vec_len passes }
    ensures out { N.lent links.new ≡ option_map (out_more (length seats.new.items)) (N.lent links.old) }
    ensures faults { N.faults links.new ≡ N.faults links.old }
{
    let mut number = 0u32;
    for pass in passes {
        let link = links.make(alloc, number, routes)?;
        seats.push_reserved(Seating { pass, link });
        number += 1;
    }
    Ok(())
}

/// Takes the links of the seats back, in order of documents, and puts their passes behind the others, for which there
/// is room.
pub fn unseat<N: Links>(
    seats: Vec<Seating<N::Link, TurnPass>>,
    links: &mut N,
    passes: &mut Vec<TurnPass>,
)
    requires room { vec_len seats + vec_len passes.old ≤ vec_capacity passes.old }
    ensures passes { passes.new.items ≡ passes.old.items ++ map (λ s. s.pass) seats.items }
    ensures room { vec_capacity passes.new ≡ vec_capacity passes.old }
    ensures back { AreTaken (N.lent links.old) (N.lent links.new) (links_in seats.items) }
    ensures faults { N.faults links.new
        ≡ grown_by_all (N.faults links.old) (map (faults_told N.Link.told) (links_in seats.items)) }
{
    for seating in seats {
        let Seating { pass, link } = seating;
        passes.push_reserved(pass);
        links.take_back(link);
    }
}
