// A play with reports, one document after another.
ghost use Rattle.std.specs.Prelude.{◌≡◌, length, vec_len, IfOk};
ghost use Rattle.std.specs.List.{All};
ghost use Rattle.report_play.specs.Plays.{IsReportedInOrder};
ghost use Rattle.report_play.specs.Private.Delivered.{IsLinkTo};
ghost use Rattle.script_scenarios.specs.Valid.{IsValid};

use crate::deliveries::deliver_all;
use crate::play::Reported;
use play_definitions::Played;
use play_seats::SimLink;
use play_serial::{WithBook, play_with_book};
use script_scenarios::Scenario;
use std::alloc::Global;
use value_bytes::OutOfMemory;

// A link to the scenario's servers for each document.
fn links_to<'a>(alloc: Global, scenario: &'a Scenario) -> Result<Vec<SimLink<'a>>, OutOfMemory>
    requires { IsValid scenario.now }
    ensures servers { IfOk result (λ links. All (IsLinkTo scenario.entry.now) links.items) }
    ensures count { IfOk result (λ links. vec_len links ≡ length scenario.entry.now.documents) }
{
    let count = scenario.documents.len();
    let mut links = Vec::with_capacity(alloc, count)?;
    while links.len() < count {
        links.push_reserved(SimLink::new(scenario));
    }
    Ok(links)
}

/// Plays a scenario with its reports as `play_reported`, its documents one after another: first their scripts, then
/// their reports. It needs no runtime and makes no thread, so it returns.
///
/// `OutOfMemory` where memory was refused, to a document, to its reports or to what surrounds them.
pub fn report_in_turn(alloc: Global, scenario: &Scenario) -> Result<Reported, OutOfMemory>
    requires { IsValid scenario.now }
    ensures { IfOk result (λ reported. IsReportedInOrder scenario.entry.now reported.transcripts reported.reports
        reported.history) }
{
    let left = play_with_book(alloc, scenario)?;
    let WithBook { played, book } = left;
    let Played {
        transcripts,
        history,
    } = played;
    let links = links_to(alloc, scenario)?;
    let all = deliver_all(alloc, scenario, &transcripts, links, book, history)?;
    Ok(Reported {
        transcripts,
        reports: all.reports,
        history: all.history,
    })
}
