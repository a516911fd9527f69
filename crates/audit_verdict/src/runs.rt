// The runs of a scenario's documents over a history.
ghost use Rattle.std.specs.Prelude.{◌<◌, length, IfOk};
ghost use Rattle.audit_replay.specs.Legality.{AreRight};
ghost use Rattle.script_scenarios.specs.Valid.{IsValid};
ghost use Rattle.audit_verdict.specs.Private.Runs as spec;

use audit_replay::{TapePass, TapeShare};
use book_calls::{Book, Entry};
use play_definitions::Driver;
use play_documents::ByFetches;
use play_fetch::OverLink;
use play_laws::law_same_calls;
use play_seats::SimLink;
use script_events::{Ending, Transcript, Transcripts};
use script_scenarios::Scenario;
use std::alloc::Global;
use std::snapshot::Snapshot;
use value_bytes::OutOfMemory;

/// What the runs of all documents come to.
#[derive(Drop)]
pub(crate) enum Runs {
    /// Each document comes to its transcript.
    Came(Transcripts),
    /// This is the first document that makes other calls than those of its entries.
    Stops(u32),
}

// The run of one document over its entries, where it makes just the calls of these entries.
fn run_one(
    alloc: Global,
    scenario: &Scenario,
    number: u32,
    history: &[Entry],
    opening: &Snapshot<Book>,
) -> Result<Option<Transcript>, OutOfMemory>
    requires valid { IsValid scenario.now }
    requires one { number < length scenario.now.documents }
    requires right { AreRight opening.now.value 0 history.now }
    ensures { IfOk result (spec.IsRun scenario.entry.now history.now number) }
{
    law_same_calls::<SimLink>();
    let share = TapeShare::new(history);
    let mut pass = TapePass::new(alloc, number, history, opening);
    let mut link = SimLink::new(scenario);
    let driver = ByFetches { fetcher: OverLink };
    let transcript = driver.drive(
        alloc,
        scenario,
        number,
        scenario.now,
        &share,
        &mut pass,
        &mut link,
    );
    if transcript.ending == Ending::Memory {
        return Err(OutOfMemory);
    }
    if pass.is_used_up() {
        Ok(Some(transcript))
    } else {
        Ok(None)
    }
}

// The runs of all documents over their entries, one after the other.
pub(crate) fn run_all(
    alloc: Global,
    scenario: &Scenario,
    history: &[Entry],
    opening: &Snapshot<Book>,
) -> Result<Runs, OutOfMemory>
    requires valid { IsValid scenario.now }
    requires right { AreRight opening.now.value 0 history.now }
    ensures { IfOk result (spec.AreRuns scenario.entry.now history.now) }
{
    let count = scenario.documents.len();
    let mut transcripts = Transcripts::new(alloc);
    for number in 0..count {
        let number = number as u32;
        match run_one(alloc, scenario, number, history, opening)? {
            Some(transcript) => transcripts.push(transcript)?,
            None => return Ok(Runs::Stops(number)),
        }
    }
    Ok(Runs::Came(transcripts))
}
