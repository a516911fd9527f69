// A scenario, played with the reports of its documents, and printed.
ghost use Rattle.std.specs.Prelude.{◌≡◌, ◌≢◌, IfOk};
ghost use Rattle.c_handle.specs.Codes.{IsKept};
ghost use Rattle.c_play.specs.Plays.{IsTold};
ghost use Rattle.c_play.specs.Reports.{IsReportTextInOrder};
ghost use Rattle.program_cspreport.specs.Scenarios.{reported_scenario};
ghost use Rattle.script_scenarios.specs.Valid.{IsValid};

use crate::page::GrowingText;
use crate::plays::refused;
use c_handle::{OUT_OF_MEMORY, write};
use program_cspreport::{read_reported, write_reports};
use report_play::report_in_turn;
use script_scenarios::Scenario;
use std::alloc::Global;
use value_bytes::OutOfMemory;

// The text of the reports of a play of the scenario.
fn reported(alloc: Global, scenario: &Scenario) -> Result<GrowingText, OutOfMemory>
    requires { IsValid scenario.now }
    ensures { IfOk result (λ text. IsReportTextInOrder scenario.entry.now text.bytes.items) }
{
    let reported = report_in_turn(alloc, scenario)?;
    let mut text = GrowingText::new(alloc);
    match write_reports(alloc, &reported, &mut text) {
        Ok(()) => Ok(text),
        Err(_) => Err(OutOfMemory),
    }
}

/// Plays a scenario of at most 16 documents over its own servers, as `fiorrudda_play`, and then delivers the reports of
/// each document's violations, in order of documents. Writes the text of the reports, as `cspreport play` writes one. A
/// call with too little room plays too, and the next call plays again.
///
/// `OK`; `NO` where the scenario is refused, and then `room` has the place: `json`, or the way from the root to the
/// value, which is `/documents` where there are too many; `TOO_SHORT` where `room` has less than `len` bytes for
/// either; `OUT_OF_MEMORY`. Except for `OK` and `NO` nothing is written to `room`, and with `OUT_OF_MEMORY` nothing to
/// `len`.
#[unsafe(no_mangle)]
pub extern "C" fn fiorrudda_reports(
    alloc: Global,
    scenario: &[u8],
    room: &mut [u8],
    len: &mut usize,
) -> u32
    ensures told { result ≢ OUT_OF_MEMORY
        → IsTold IsReportTextInOrder (reported_scenario scenario.now) room.old room.new len.new result }
    ensures out_of_memory { result ≡ OUT_OF_MEMORY → IsKept room.old room.new len.old len.new }
{
    let scenario = match read_reported(alloc, scenario) {
        Ok(Ok(scenario)) => scenario,
        Ok(Err(place)) => return refused(place.text.as_slice(), room, len),
        Err(OutOfMemory) => return OUT_OF_MEMORY,
    };
    match reported(alloc, &scenario) {
        Ok(text) => write(text.as_slice(), room, len),
        Err(OutOfMemory) => OUT_OF_MEMORY,
    }
}
