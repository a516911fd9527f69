// cspreport's top call.
ghost use Rattle.std.specs.Prelude.{◌≡◌, Err, IfErr, IfOk};
ghost use Rattle.program_shell.specs.Inputs.{IsRead, IsUnread, Reads, Refuses};
ghost use Rattle.program_shell.specs.Program.{IsPlayed};
ghost use Rattle.program_shell.specs.Words.{texts};
ghost use Rattle.program_cspreport.specs.Program.{Answers, IsVerdict, most_input};
ghost use Rattle.program_cspreport.specs.Scenarios.{documents_place, reported_scenario};
ghost use Rattle.program_cspreport.specs.Statuses as spec;
ghost use Rattle.program_cspreport.specs.Text.{IsReportText};
ghost use Rattle.program_cspreport.specs.Words as words_spec;
ghost use Rattle.script_scenarios.specs.Valid.{IsValid};

use crate::complaint::tell;
use crate::text::write_reports;
use crate::words::are_accepted;
use link_traits::{Sink, Source};
use play_text::Failure;
use program_shell::{Status, read_as, read_input};
use report_play::play_reported;
use script_reading::{Place, read_scenario};
use script_scenarios::Scenario;
use std::alloc::Global;
use std::sync::Wait;
use std::thread::Threads;
use value_bytes::{Bytes, OutOfMemory};

/// The longest input that is read, in bytes.
const MOST_INPUT: usize = 4_194_304;

/// The most documents whose reports are played.
const MOST_DOCUMENTS: usize = 16;

/// What the program came to. A scenario is refused at a place; the program has no fault of its own.
pub type ReportStatus = Status<Place>;

/// The program, from its words to its status. The words are tested first: `play` alone is accepted. The input is then
/// read whole, read as a scenario of at most 16 documents, and played with its reports over the scenario's own servers:
/// in the history all calls of reports stand behind those of the scripts, in order of documents. The text of the
/// reports is written to the output. A status other than `Ok` is told by one line on the complaints; where that line
/// cannot be written the answer is `WriteFault`.
///
/// `Usage` exactly where the words are not accepted, and then nothing is read or written. `Refused` exactly where the
/// input is no scenario, with the first refused place, or one of more than 16 documents, with `/documents`. `ReadFault`
/// only where the input failed, `WriteFault` only where the output or the complaints failed or took nothing.
/// `InputTooLong` exactly where byte 4,194,305 was read. `OutOfMemory` where memory was refused.
pub fn cspreport<R: Threads + Wait + Sync, S: Source, K: Sink, E: Sink>(
    rt: &R,
    alloc: Global,
    words: &[String],
    input: &mut S,
    output: &mut K,
    complaints: &mut E,
) -> ReportStatus
    ensures { Answers (texts words.now) (S.gives input.old) (S.gives input.new)
        (K.takes output.old) (K.takes output.new)
        (E.takes complaints.old) (E.takes complaints.new) result }
{
    let verdict = verdict(rt, alloc, words, input, output);
    tell(verdict, complaints)
}

// The verdict on the words and the input, with what was asked for written to the output.
fn verdict<R: Threads + Wait + Sync, S: Source, K: Sink>(
    rt: &R,
    alloc: Global,
    words: &[String],
    input: &mut S,
    output: &mut K,
) -> ReportStatus
    ensures { IsVerdict (words_spec.are_accepted (texts words.now)) (S.gives input.old) (S.gives input.new)
        (K.takes output.old) (K.takes output.new) result }
{
    if are_accepted(words) {
        play(rt, alloc, input, output)
    } else {
        Status::Usage
    }
}

// The refusal of a scenario of too many documents.
fn too_many(alloc: Global) -> Result<Result<Scenario, Place>, OutOfMemory>
    ensures { IfOk result (λ read. read ≡ Err documents_place) }
{
    let text = Bytes::of(alloc, b"/documents")?;
    Ok(Err(Place { text }))
}

/// The scenario that a text is, of at most 16 documents, or the first place at which it is refused. `OutOfMemory` where
/// memory was refused.
pub fn read_reported(alloc: Global, text: &[u8]) -> Result<Result<Scenario, Place>, OutOfMemory>
    ensures value { IfOk result (λ read. read ≡ reported_scenario text.now) }
    ensures valid { IfOk result (λ read. IfOk read IsValid) }
{
    match read_scenario(alloc, text)? {
        Err(place) => Ok(Err(place)),
        Ok(scenario) if scenario.documents.len() > MOST_DOCUMENTS => too_many(alloc),
        Ok(scenario) => Ok(Ok(scenario)),
    }
}

// The scenario that the whole input is, or else the verdict on the input.
fn scenario_in<S: Source>(alloc: Global, input: &mut S) -> Result<Scenario, ReportStatus>
    ensures valid { IfOk result IsValid }
    ensures read { IfOk result (IsRead most_input (Reads reported_scenario) (Refuses reported_scenario)
        (S.gives input.old) (S.gives input.new)) }
    ensures unread { IfErr result (IsUnread most_input (Reads reported_scenario) (Refuses reported_scenario)
        (S.gives input.old) (S.gives input.new)) }
{
    let text = read_input(alloc, input, MOST_INPUT)?;
    read_as(read_reported(alloc, text.as_slice()))
}

// The status by what came of writing the text: `Ok` where it was written whole.
fn status_of(written: Result<(), Failure>) -> ReportStatus
    ensures { result ≡ spec.written_status written }
{
    match written {
        Ok(()) => Status::Ok,
        Err(Failure::OutOfMemory) => Status::OutOfMemory,
        Err(Failure::Fault) => Status::WriteFault,
        Err(Failure::TookNothing) => Status::WriteFault,
    }
}

// Plays the scenario that the input is, and writes the text of its reports.
fn play<R: Threads + Wait + Sync, S: Source, K: Sink>(
    rt: &R,
    alloc: Global,
    input: &mut S,
    output: &mut K,
) -> ReportStatus
    ensures { IsPlayed most_input reported_scenario IsReportText (S.gives input.old) (S.gives input.new)
        (K.takes output.old) (K.takes output.new) result }
{
    let scenario = match scenario_in(alloc, input) {
        Err(verdict) => return verdict,
        Ok(scenario) => scenario,
    };
    match play_reported(rt, alloc, &scenario) {
        Err(OutOfMemory) => Status::OutOfMemory,
        Ok(reported) => status_of(write_reports(alloc, &reported, output)),
    }
}
