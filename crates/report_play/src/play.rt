// A play with reports: the book is opened, the documents are seated and played, the book is closed, and the reports are
// delivered.
ghost use Rattle.std.specs.Prelude.{◌≡◌, ◌≤◌, ◌+◌, ◌++◌, vec_capacity, vec_len, IfOk, OnOk};
ghost use Rattle.fetch_wire.specs.Wires.{over_link};
ghost use Rattle.play_seats.specs.Seated.{AreReady, links_in, passes_in};
ghost use Rattle.report_play.specs.Plays.{IsReportedPlay};
ghost use Rattle.report_play.specs.Private.Delivered.{WasReported};
ghost use Rattle.script_scenarios.specs.Valid.{IsValid};

use crate::deliveries::deliver_all;
use book_calls::History;
use book_turns::{Closed, TurnBook, TurnPass, TurnShare};
use link_traits::Link;
use play_definitions::Seating;
use play_documents::ByFetches;
use play_fetch::OverLink;
use play_links::SCRIPTED_THREADS;
use play_seats::{SimLinks, open_play};
use play_threads::play_all;
use report_delivery::Delivered;
use script_events::{Transcripts, has_text};
use script_scenarios::Scenario;
use std::alloc::Global;
use std::sync::Wait;
use std::thread::Threads;
use value_bytes::{Items, OutOfMemory};

/// What a play with reports has come to: what each document has shown, its reports, and the one history of the book.
#[derive(Drop)]
pub struct Reported {
    pub transcripts: Transcripts,
    pub reports: Items<Delivered>,
    pub history: History,
}

// The links of the seats, in order. Their passes are put behind the others, for which there is room.
fn links_of<L: Link + Drop>(
    alloc: Global,
    seats: Vec<Seating<L, TurnPass>>,
    passes: &mut Vec<TurnPass>,
) -> Result<Vec<L>, OutOfMemory>
    requires room { vec_len seats + vec_len passes.old ≤ vec_capacity passes.old }
    ensures links { IfOk result (λ links. links.items ≡ links_in seats.items) }
    ensures passes { OnOk result (passes.new.items ≡ passes.old.items ++ passes_in seats.items) }
{
    let mut links = Vec::with_capacity(alloc, seats.len())?;
    for seating in seats {
        let Seating { pass, link } = seating;
        passes.push_reserved(pass);
        links.push_reserved(link);
    }
    Ok(links)
}

// Plays each document on its seat. Once all scripts have ended and the book is closed, delivers the reports of each, in
// order of documents.
fn play_seated<R: Threads + Wait + Sync, L: Link + Send + Drop>(
    rt: &R,
    alloc: Global,
    scenario: &Scenario,
    book: TurnBook,
    mut seats: Vec<Seating<L, TurnPass>>,
    mut passes: Vec<TurnPass>,
) -> Result<Reported, OutOfMemory>
    requires valid { IsValid scenario.now }
    requires ready { AreReady book.table.shared.table_id scenario.now passes.items seats.items }
    requires room { vec_len seats + vec_len passes ≤ vec_capacity passes }
    ensures { IfOk result (λ reported. WasReported (over_link L.serves) L.told scenario.entry.now seats.items
        reported.transcripts reported.reports reported.history) }
{
    let share = TurnShare { rt, book: &book };
    let transcripts = play_all(
        rt,
        &ByFetches { fetcher: OverLink },
        alloc,
        scenario,
        scenario.now,
        &share,
        SCRIPTED_THREADS,
        &mut seats,
    )?;
    if !has_text(&transcripts) {
        return Err(OutOfMemory);
    }
    let links = links_of(alloc, seats, &mut passes)?;
    let Closed { book, history } = book.close(passes);
    let all = deliver_all(alloc, scenario, &transcripts, links, book, history)?;
    Ok(Reported {
        transcripts,
        reports: all.reports,
        history: all.history,
    })
}

/// Plays a scenario over its own servers, from its own time on, with the reports of each document, at the time at which
/// its script ended. The one history is that of the scripts, and then that of the reports, in order of documents.
///
/// `OutOfMemory` where memory was refused, to a document, to its reports or to what surrounds them.
pub fn play_reported<R: Threads + Wait + Sync>(
    rt: &R,
    alloc: Global,
    scenario: &Scenario,
) -> Result<Reported, OutOfMemory>
    requires { IsValid scenario.now }
    ensures { IfOk result (λ reported. IsReportedPlay scenario.entry.now reported.transcripts reported.reports
        reported.history) }
{
    let mut links = SimLinks::new(scenario);
    let open = open_play(alloc, scenario, &mut links)?;
    play_seated(rt, alloc, scenario, open.book, open.seats, open.passes)
}
