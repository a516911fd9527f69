// How far a document's run has come.
ghost use Rattle.std.specs.Prelude.{◌≡◌, ◌<◌, ◌≤◌, ◌+◌, ◌^◌, ◌++◌, ◌∷◌, [], OnOk, OnErr};
ghost use Rattle.script_scenarios.specs.Commands.{step_of};
ghost use Rattle.script_runs.specs.Play.{events_of};
ghost use Rattle.script_filling.specs.Results.{lent_result};
ghost use Rattle.script_runs.specs.Runs as spec;
ghost use Rattle.script_runs.specs.Runs.{after_events, beginning, fetch_started, last_of, most_commands};
ghost use Rattle.script_runs.specs.Runs.{most_fetches};
ghost use Rattle.script_runs.specs.Runs.{started, waited};

use crate::shown::Shown;
use fetch_acts::{Act, Input};
use script_events::{Ending, Event, Events};
use script_scenarios::Command;
use std::alloc::Global;
use std::marker::Model;
use value_bytes::{Boxed, OutOfMemory};
use value_requests::{Destination, Outcome, TypeFault};

/// How many commands of a document start at most.
const MOST_COMMANDS: u32 = 16_384;

/// How many of them are fetches and loads at most.
const MOST_FETCHES: u32 = 1_024;

/// How far a document's run has come: its clock, how many commands and how many fetches and loads have
/// started, and the events that it has shown. Seen as the run's progress.
#[derive(Drop)]
pub struct Running {
    clock: u64,
    commands: u32,
    fetches: u32,
    shown: Shown,
}

impl Model for Running {
    ghost use Rattle.std.specs.Prelude.{◌≤◌, ◌+◌, ◌*◌, ◌-◌, ◌^◌};
    ghost use Rattle.script_runs.specs.Runs.{Progress, most_commands, most_fetches};

    ghost Value = { Progress };

    ghost view = { λ running. record {
      clock = running.clock;
      commands = running.commands;
      fetches = running.fetches;
      shown = running.shown;
    } };

    ghost invariant = { λ running. (running.commands ≤ most_commands) × (running.fetches ≤ most_fetches)
        × (running.clock ≤ 2 ^ 40 + running.commands * (2 ^ 32 - 1)) };
}

// A fetch, or a load of a kind, starts with this number.
fn start_event(kind: Destination, number: u32) -> Event
    ensures { result ≡ spec.start_event kind number }
{
    match kind {
        Destination::Fetch => Event::Fetch(number),
        _ => Event::Load(number, kind),
    }
}

/// There is no request for a fetch, or for a load of a kind.
pub fn fault_event(kind: Destination, fault: TypeFault) -> Event
    ensures { result ≡ spec.fault_event kind fault }
{
    match kind {
        Destination::Fetch => Event::TypeError(fault),
        _ => Event::LoadError(fault),
    }
}

// What a load came to.
fn load_event(outcome: Boxed<Outcome>) -> Event
    ensures { result ≡ spec.load_event outcome }
{
    match outcome.get() {
        Outcome::Error(_) => match outcome.into_inner() {
            Outcome::Error(error) => Event::LoadFailed(error),
            _ => unreachable!(),
        },
        _ => Event::Result(outcome),
    }
}

/// What a fetch, or a load of a kind, came to.
pub fn outcome_event(kind: Destination, outcome: Boxed<Outcome>) -> Event
    ensures { result ≡ spec.outcome_event kind outcome }
{
    match kind {
        Destination::Fetch => Event::Result(outcome),
        _ => load_event(outcome),
    }
}

impl Running {
    /// The beginning of a run at a time, in seconds, of at most 2^40. It takes no memory.
    pub fn new(alloc: Global, base: u64) -> Running
        requires { base ≤ 2 ^ 40 }
        ensures { result ≡ beginning base }
    {
        Running {
            clock: base,
            commands: 0,
            fetches: 0,
            shown: Shown::new(alloc),
        }
    }

    /// The time, in seconds, which is below 2^48.
    pub fn now(&self) -> u64
        ensures now { result ≡ self.now.clock }
        ensures timely { result < 2 ^ 48 }
    {
        self.clock
    }

    /// The last result, where a fetch or load has come to one.
    pub fn last(&self) -> Option<&Event>
        ensures { lent_result result ≡ last_of self.now }
    {
        self.shown.last()
    }

    // The limit that the run has reached before a fetch or load.
    fn fetch_limit(&self) -> Option<Ending>
        ensures { result ≡ spec.fetch_limit self.now }
    {
        if self.fetches >= MOST_FETCHES {
            Some(Ending::Fetches)
        } else if self.shown.is_full() {
            Some(Ending::Text)
        } else {
            None
        }
    }

    /// The limit that the run has reached before a command: 16,384 commands have started; or, before a
    /// fetch or load, 1,024 of these, or the lines of the events are longer than 8,388,608 bytes.
    pub fn limit_before(&self, command: &Command) -> Option<Ending>
        ensures { result ≡ spec.limit_before (step_of command.now) self.now }
    {
        if self.commands >= MOST_COMMANDS {
            return Some(Ending::Commands);
        }
        match command {
            Command::Fetch(_) => self.fetch_limit(),
            Command::Load(_) => self.fetch_limit(),
            _ => None,
        }
    }

    /// Starts a command. Fewer than 16,384 have started.
    pub fn start(&mut self)
        requires { self.old.commands < most_commands }
        ensures { self.new ≡ started self.old }
    {
        self.commands += 1;
    }

    /// Starts a wait of this many seconds, which are over at once. Fewer than 16,384 commands have started.
    pub fn wait(&mut self, seconds: u32)
        requires { self.old.commands < most_commands }
        ensures { self.new ≡ waited seconds (started self.old) }
    {
        self.commands += 1;
        self.clock += u64::from(seconds);
    }

    /// Starts a fetch, or a load of a kind, and shows its number. Fewer than 16,384 commands have started, and fewer
    /// than 1,024 of these.
    pub fn start_fetch(&mut self, kind: Destination) -> Result<(), OutOfMemory>
        requires commands { self.old.commands < most_commands }
        requires fetches { self.old.fetches < most_fetches }
        ensures ok { OnOk result (self.new ≡ after_events (spec.start_event kind self.old.fetches ∷ [])
            (fetch_started (started self.old))) }
        ensures err { OnErr result (self.new ≡ self.old) }
    {
        self.shown.add(start_event(kind, self.fetches))?;
        self.commands += 1;
        self.fetches += 1;
        Ok(())
    }

    /// Adds an event.
    pub fn show(&mut self, event: Event) -> Result<(), OutOfMemory>
        ensures ok { OnOk result (self.new ≡ after_events (event ∷ []) self.old) }
        ensures err { OnErr result (self.new ≡ self.old) }
    {
        self.shown.add(event)
    }

    /// Adds what an act shows whose input has come: a call of the book with its reply, a request that was sent, or a
    /// violation that was told.
    pub fn show_act(&mut self, act: Act, input: &Input) -> Result<(), OutOfMemory>
        ensures ok { OnOk result (self.new ≡ after_events (events_of act input.now) self.old) }
        ensures err { OnErr result (self.new ≡ self.old) }
    {
        self.shown.add_act(act, input)
    }

    /// The events.
    pub fn into_events(self) -> Events
        ensures { result ≡ self.shown }
    {
        self.shown.into_events()
    }
}
