// fetchplay's top call.
ghost use Rattle.std.specs.Prelude.{◌≡◌, ◌≤◌, IfErr, IfOk};
ghost use Rattle.play_definitions.specs.Plays.{IsPlay};
ghost use Rattle.play_seats.specs.Makers.{maker_of};
ghost use Rattle.play_text.specs.Text.{play_text};
ghost use Rattle.script_events.specs.Endings.{HasText};
ghost use Rattle.play_text.specs.Writes.{Writes};
ghost use Rattle.program_shell.specs.Inputs.{IsRead, IsUnread, Reads, Refuses};
ghost use Rattle.program_shell.specs.Program.{IsPlayed};
ghost use Rattle.program_shell.specs.Words.{texts};
ghost use Rattle.script_generated.specs.Generated.{generated};
ghost use Rattle.script_reading.specs.Scenarios.{scenario_of};
ghost use Rattle.script_scenarios.specs.Valid.{IsValid};
ghost use Rattle.fetch_wire.specs.Wires.{over_link};
ghost use Rattle.program_fetchplay.specs.Program.{Answers, IsBase, IsPlayText, IsPlayedOver, IsScripted, IsSummed};
ghost use Rattle.program_fetchplay.specs.Program.{IsVerdict, most_input};
ghost use Rattle.program_fetchplay.specs.Statuses.{written_status};
ghost use Rattle.program_fetchplay.specs.Streams.{net_of};
ghost use Rattle.program_fetchplay.specs.Words as spec;

use crate::complaint::tell;
use crate::words::{Subcommand, subcommand_of};
use link_traits::{Clock, Links, Sink, Source};
use play_definitions::{Driver, Played};
use play_isolation::law_isolated;
use play_seats::SimLink;
use play_text::{Failure, write_play, write_summary};
use play_whole::{play_over, play_scripted};
use program_shell::{Status, read_as, read_input};
use script_generated::generate;
use script_reading::{Place, read_scenario};
use script_scenarios::Scenario;
use std::alloc::Global;
use std::mem::forget;
use std::sync::Wait;
use std::thread::Threads;
use value_bytes::OutOfMemory;

/// The longest input that is read, in bytes.
const MOST_INPUT: usize = 4_194_304;

/// What the program came to. A scenario is refused at a place; the program has no fault of its own.
pub type PlayStatus = Status<Place>;

/// The latest time at which a play over links begins, in seconds.
const MOST_BASE: u64 = 1_099_511_627_776;

/// The program, from its words to its status, over what plays a document. The words are tested first. With `play` the
/// input is then read whole, read as a scenario, and played over the scenario's own servers, on at most 16 threads, and
/// the text of the play is written to the output. `net` does the same over the links that are made for the
/// documents, by the scenario's routes, with a thread for each where one can be made, from the clock's time
/// on, or from 1,099,511,627,776 seconds on, if that is earlier. With `gen` and a
/// number of documents, from 1 to 64, the input is left unread, the generated scenario of so many
/// documents is played, and the summary of the play is written. A status other than `Ok` is told by one
/// line on the complaints; where that line cannot be written the answer is `WriteFault`.
///
/// Where its line could be written: `Usage` exactly where the words are not accepted, and then nothing is read or
/// written. `Refused` exactly where the whole input was read and is no scenario, with the first refused place, unless
/// memory was refused before. `ReadFault` only where the input failed, `WriteFault` only where the output or the
/// complaints failed or took nothing. `InputTooLong` exactly where byte 4,194,305 was read. `OutOfMemory` may come
/// whenever the words are accepted. What a link does, once it is made, changes the status to no other. Links and clock
/// are used with `net` alone; each link that was made is taken back.
///
/// Where a play succeeded it is forgotten, not freed, and so is a scenario that was read: the program ends, and the
/// system takes back all of their memory at once. A caller that goes on does not get it back.
pub fn fetchplay<
    R: Threads + Wait + Sync,
    D: Driver + Sync,
    S: Source,
    K: Sink,
    E: Sink,
    N: Links,
    C: Clock,
>(
    rt: &R,
    driver: &D,
    alloc: Global,
    words: &[String],
    input: &mut S,
    output: &mut K,
    complaints: &mut E,
    links: &mut N,
    clock: &mut C,
) -> PlayStatus
    ensures { Answers (over_link N.Link.serves) N.Link.told (texts words.now)
        (S.gives input.old) (S.gives input.new)
        (K.takes output.old) (K.takes output.new)
        (E.takes complaints.old) (E.takes complaints.new)
        (net_of (maker_of N.opening N.lent N.faults links.old) C.next clock.old)
        (net_of (maker_of N.opening N.lent N.faults links.new) C.next clock.new) result }
{
    let verdict = verdict(rt, driver, alloc, words, input, output, links, clock);
    tell(verdict, complaints)
}

// The verdict on the words and the input, with what was asked for written to the output.
fn verdict<R: Threads + Wait + Sync, D: Driver + Sync, S: Source, K: Sink, N: Links, C: Clock>(
    rt: &R,
    driver: &D,
    alloc: Global,
    words: &[String],
    input: &mut S,
    output: &mut K,
    links: &mut N,
    clock: &mut C,
) -> PlayStatus
    ensures { IsVerdict (over_link N.Link.serves) N.Link.told
        (net_of (maker_of N.opening N.lent N.faults links.old) C.next clock.old)
        (net_of (maker_of N.opening N.lent N.faults links.new) C.next clock.new)
        (spec.subcommand_of (texts words.now))
        (S.gives input.old) (S.gives input.new)
        (K.takes output.old) (K.takes output.new) result }
{
    match subcommand_of(words) {
        None => Status::Usage,
        Some(Subcommand::Play) => play_scenario(rt, driver, alloc, input, output),
        Some(Subcommand::Net) => play_linked(rt, driver, alloc, input, output, links, clock),
        Some(Subcommand::Gen(count)) => play_generated(rt, driver, alloc, count, output),
    }
}

// The scenario that the whole input is, or else the verdict on the input.
fn scenario_in<S: Source>(alloc: Global, input: &mut S) -> Result<Scenario, PlayStatus>
    ensures valid { IfOk result IsValid }
    ensures read { IfOk result (IsRead most_input (Reads scenario_of) (Refuses scenario_of)
        (S.gives input.old) (S.gives input.new)) }
    ensures unread { IfErr result (IsUnread most_input (Reads scenario_of) (Refuses scenario_of)
        (S.gives input.old) (S.gives input.new)) }
{
    let text = read_input(alloc, input, MOST_INPUT)?;
    read_as(read_scenario(alloc, text.as_slice()))
}

// The status by what came of writing a text: `Ok` where it was written whole.
fn status_of(written: Result<(), Failure>) -> PlayStatus
    ensures { result ≡ written_status written }
{
    match written {
        Ok(()) => Status::Ok,
        Err(Failure::OutOfMemory) => Status::OutOfMemory,
        Err(Failure::Fault) => Status::WriteFault,
        Err(Failure::TookNothing) => Status::WriteFault,
    }
}

// Plays the scenario that the input is over its own servers.
fn play_scenario<R: Threads + Wait + Sync, D: Driver + Sync, S: Source, K: Sink>(
    rt: &R,
    driver: &D,
    alloc: Global,
    input: &mut S,
    output: &mut K,
) -> PlayStatus
    ensures { IsPlayed most_input scenario_of (IsPlayText IsScripted) (S.gives input.old) (S.gives input.new)
        (K.takes output.old) (K.takes output.new) result }
{
    law_isolated::<SimLink>();
    let scenario = match scenario_in(alloc, input) {
        Err(verdict) => return verdict,
        Ok(scenario) => scenario,
    };
    match play_scripted(rt, driver, alloc, &scenario) {
        Err(OutOfMemory) => Status::OutOfMemory,
        Ok(played) => {
            forget(scenario);
            status_of(write_text(alloc, played, output))
        }
    }
}

// The time at which a play over links begins.
fn base_of<C: Clock>(clock: &mut C) -> u64
    ensures base { IsBase (C.next clock.old) result }
    ensures early { result ≤ MOST_BASE }
{
    clock.now().min(MOST_BASE)
}

// Plays the scenario that the input is over the links that are made for its documents.
fn play_linked<R: Threads + Wait + Sync, D: Driver + Sync, S: Source, K: Sink, N: Links, C: Clock>(
    rt: &R,
    driver: &D,
    alloc: Global,
    input: &mut S,
    output: &mut K,
    links: &mut N,
    clock: &mut C,
) -> PlayStatus
    ensures { IsPlayedOver (over_link N.Link.serves) N.Link.told
        (net_of (maker_of N.opening N.lent N.faults links.old) C.next clock.old)
        (net_of (maker_of N.opening N.lent N.faults links.new) C.next clock.new)
        (S.gives input.old) (S.gives input.new)
        (K.takes output.old) (K.takes output.new) result }
{
    law_isolated::<N::Link>();
    let scenario = match scenario_in(alloc, input) {
        Err(verdict) => return verdict,
        Ok(scenario) => scenario,
    };
    let base = base_of(clock);
    // a document that waits for its server keeps no other from its work
    let threads = scenario.documents.len();
    match play_over(rt, driver, alloc, &scenario, base, threads, links) {
        Err(OutOfMemory) => Status::OutOfMemory,
        Ok(played) => {
            forget(scenario);
            status_of(write_text(alloc, played, output))
        }
    }
}

// Writes the text of a play, which is then forgotten: the program ends.
fn write_text<K: Sink>(alloc: Global, played: Played, output: &mut K) -> Result<(), Failure>
    requires { HasText played.transcripts }
    ensures { Writes (K.takes output.old) (K.takes output.new)
        (play_text played.transcripts played.history) result }
{
    let written = write_play(alloc, &played.transcripts, &played.history, output);
    forget(played);
    written
}

// The play of the generated scenario of so many documents.
fn generated_play<R: Threads + Wait + Sync, D: Driver + Sync>(
    rt: &R,
    driver: &D,
    alloc: Global,
    count: u32,
) -> Result<Played, OutOfMemory>
    requires { (1 ≤ count) × (count ≤ 64) }
    ensures played { IfOk result (λ played. IsPlay (generated count) played.transcripts played.history) }
    ensures has_text { IfOk result (λ played. HasText played.transcripts) }
{
    let scenario = generate(alloc, count)?;
    play_scripted(rt, driver, alloc, &scenario)
}

// Plays the generated scenario of so many documents and writes the summary of the play.
fn play_generated<R: Threads + Wait + Sync, D: Driver + Sync, K: Sink>(
    rt: &R,
    driver: &D,
    alloc: Global,
    count: u32,
    output: &mut K,
) -> PlayStatus
    requires { (1 ≤ count) × (count ≤ 64) }
    ensures { IsSummed count (K.takes output.old)
        (K.takes output.new) result }
{
    let played = match generated_play(rt, driver, alloc, count) {
        Err(OutOfMemory) => return Status::OutOfMemory,
        Ok(played) => played,
    };
    let written = write_summary(alloc, count, &played.transcripts, &played.history, output);
    forget(played);
    status_of(written)
}
