// The events that a document has shown.
ghost use Rattle.std.specs.Prelude.{◌≡◌, [], ◌∷◌, ◌++◌, nat_lt, OnOk, OnErr};
ghost use Rattle.script_runs.specs.Play.{events_of};
ghost use Rattle.script_runs.specs.Play as spec;
ghost use Rattle.script_filling.specs.Results.{last_result, lent_result};
ghost use Rattle.script_runs.specs.Runs.{most_printed, text_length};
ghost use Rattle.script_runs.specs.Private.Lasts.{last_index};

use book_calls::Reply;
use fetch_acts::{Act, Input};
use script_events::{Event, Events};
use script_filling::is_result;
use script_lines::event_len;
use std::alloc::Global;
use std::marker::Model;
use value_bytes::OutOfMemory;

// How many bytes the lines of a document have at most before a fetch.
const MOST_PRINTED: u64 = 8_388_608;

/// The events that a document has shown, seen as their list, with how many bytes their lines have, as far
/// as 64 bits tell it, and where the last result is.
#[derive(Drop)]
pub struct Shown {
    events: Events,
    printed: u64,
    last: Option<usize>,
}

impl Model for Shown {
    ghost use Rattle.std.specs.Prelude.{◌≡◌, List};
    ghost use Rattle.script_lines.specs.Lengths.{capped};
    ghost use Rattle.script_runs.specs.Runs.{text_length};
    ghost use Rattle.script_events.specs.declared.events.Event.{Event};
    ghost use Rattle.script_runs.specs.Private.Lasts.{IsLast};

    ghost Value = { List Event };

    ghost view = { λ shown. shown.events };

    ghost invariant = { λ shown. (shown.printed ≡ capped (text_length shown.events)) × IsLast shown.last shown.events };
}

// Where the last result is once an event was added after so many.
fn last_after(last: Option<usize>, count: usize, event: &Event) -> Option<usize>
    ensures { result ≡ last_index last count event.now }
{
    if is_result(event) { Some(count) } else { last }
}

// The reply that an input brings.
fn reply_of(input: &Input) -> Reply
    ensures { result ≡ spec.reply_of input.now }
{
    match input {
        Input::Replied(reply) => *reply,
        _ => Reply::Done,
    }
}

impl Shown {
    /// Nothing was shown. It takes no memory.
    pub fn new(alloc: Global) -> Shown
        ensures { result ≡ [] }
    {
        Shown {
            events: Events::new(alloc),
            printed: 0,
            last: None,
        }
    }

    /// Adds an event. Where memory is refused the events are as they were.
    pub fn add(&mut self, event: Event) -> Result<(), OutOfMemory>
        ensures ok { OnOk result (self.new ≡ self.old ++ event ∷ []) }
        ensures err { OnErr result (self.new ≡ self.old) }
    {
        let printed = self.printed.saturating_add(event_len(&event));
        let last = last_after(self.last, self.events.len(), &event);
        self.events.push(event)?;
        self.printed = printed;
        self.last = last;
        Ok(())
    }

    // Adds what an act shows whose input has come: a call with its reply, a request that was sent, or a
    // violation that was told.
    pub(crate) fn add_act(&mut self, act: Act, input: &Input) -> Result<(), OutOfMemory>
        ensures ok { OnOk result (self.new ≡ self.old ++ events_of act input.now) }
        ensures err { OnErr result (self.new ≡ self.old) }
    {
        match act {
            Act::Ask(op) => self.add(Event::Call(op, reply_of(input))),
            Act::Send(hop) => self.add(Event::Sent(hop)),
            Act::ReadHead => Ok(()),
            Act::ReadBody => Ok(()),
            Act::Tell(violation) => self.add(Event::Told(violation)),
        }
    }

    // The last result among the events: what the last fetch or load came to. It takes no memory.
    pub(crate) fn last(&self) -> Option<&Event>
        ensures { lent_result result ≡ last_result self.now }
    {
        match self.last {
            None => None,
            Some(index) => Some(self.events.at(index)),
        }
    }

    /// Whether the lines are more than 8,388,608 bytes, which a document may have before a fetch. It takes no
    /// memory.
    pub fn is_full(&self) -> bool
        ensures { result ≡ nat_lt most_printed (text_length self.now) }
    {
        self.printed > MOST_PRINTED
    }

    /// The events.
    pub fn into_events(self) -> Events
        ensures { result ≡ self }
    {
        self.events
    }
}
