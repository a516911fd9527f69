// The audit, case by case.
ghost use Rattle.std.specs.Prelude.{◌≡◌, ℕ, List, None, Ok, IfOk, length};
ghost use Rattle.std.specs.List.{All};
ghost use Rattle.audit_replay.specs.Legality.{first_stranger};
ghost use Rattle.audit_text.specs.Histories.{Holds};
ghost use Rattle.book_calls.specs.Ops.{InRange};
ghost use Rattle.play_definitions.specs.Plays.{opening_book};
ghost use Rattle.script_reading.specs.Scenarios.{scenario_of};
ghost use Rattle.script_scenarios.specs.Valid.{IsValid};
ghost use Rattle.audit_verdict.specs.Verdicts.{IsGiven, IsVerdict};

use crate::runs::{Runs, run_all};
use crate::verdict::Verdict;
use audit_replay::{differs_from, first_illegal, first_stranger};
use audit_text::{Reading, read_history};
use book_calls::{Book, History};
use play_seats::opened;
use script_reading::read_scenario;
use script_scenarios::Scenario;
use std::alloc::Global;
use std::snapshot::Snapshot;
use value_bytes::OutOfMemory;

/// Audits a text that claims to be the printed play of a scenario over its own servers, without playing it: no thread
/// is made, and no shared book is asked. The verdict is the first that applies: the scenario is refused; the text has
/// no history, or a line of it is no entry's; an entry is not what the book gives; an entry names no document; a
/// document makes other calls than those of its entries; the text is not that of the play with this history. Else it
/// is `Play`.
pub fn audit(alloc: Global, scenario: &[u8], play: &[u8]) -> Result<Verdict, OutOfMemory>
    ensures { IfOk result (IsVerdict scenario.now play.now) }
{
    match read_scenario(alloc, scenario)? {
        Err(place) => Ok(Verdict::Scenario(place)),
        Ok(scenario) => audit_text(alloc, &scenario, play),
    }
}

// The verdict on a text, by its scenario.
fn audit_text(alloc: Global, scenario: &Scenario, play: &[u8]) -> Result<Verdict, OutOfMemory>
    requires { IsValid scenario.now }
    ensures { (bytes : List ℕ) → scenario_of bytes ≡ Ok scenario.entry.now → IfOk result (IsVerdict bytes play.now) }
{
    match read_history(alloc, play)? {
        Reading::Fault(number) => Ok(Verdict::History(number)),
        Reading::Entries(history) => audit_history(alloc, scenario, &history, play),
    }
}

// The verdict by the history that the text holds.
fn audit_history(
    alloc: Global,
    scenario: &Scenario,
    history: &History,
    play: &[u8],
) -> Result<Verdict, OutOfMemory>
    requires valid { IsValid scenario.now }
    requires holds { Holds play.now history.now }
    ensures { (bytes : List ℕ) → scenario_of bytes ≡ Ok scenario.entry.now → IfOk result (IsVerdict bytes play.now) }
{
    let book = opened(alloc, scenario.hosts.as_slice())?;
    let opening = Snapshot::of(&book);
    if let Some(index) = first_illegal(alloc, book, history.as_slice())? {
        return Ok(Verdict::Illegal(index));
    }
    if let Some(index) = first_stranger(scenario.documents.len() as u32, history.as_slice()) {
        return Ok(Verdict::Stranger(index));
    }
    audit_runs(alloc, scenario, history, &opening, play)
}

// The verdict by the runs of the documents over that history.
fn audit_runs(
    alloc: Global,
    scenario: &Scenario,
    history: &History,
    opening: &Snapshot<Book>,
    play: &[u8],
) -> Result<Verdict, OutOfMemory>
    requires valid { IsValid scenario.now }
    requires holds { Holds play.now history.now }
    requires opening { opening.now.value ≡ opening_book scenario.now }
    requires given { IsGiven scenario.now history.now }
    requires named { first_stranger (length scenario.now.documents) history.now ≡ None }
    ensures { (bytes : List ℕ) → scenario_of bytes ≡ Ok scenario.entry.now → IfOk result (IsVerdict bytes play.now) }
{
    let transcripts = match run_all(alloc, scenario, history.as_slice(), opening)? {
        Runs::Stops(number) => return Ok(Verdict::Calls(number)),
        Runs::Came(transcripts) => transcripts,
    };
    match differs_from(alloc, &transcripts, history, play)? {
        None => Ok(Verdict::Play),
        Some(offset) => Ok(Verdict::Text(offset)),
    }
}
