// A fetch between two calls.
ghost use Rattle.std.specs.Prelude.{◌≡◌, IsTrue, None, MatchOption, option_map};
ghost use Rattle.fetch_session.specs.Readers.{bodies_read, suits};

use crate::document::Document;
use crate::reading::{Bodies, Reader};
use fetch_acts::{Act, Input, fits};
use fetch_machine::Fetching;
use std::mem::replace;
use value_bytes::Boxed;
use value_requests::Outcome;

/// A fetch that waits: the act that it asked for, the reader of the bytes that come, and how bodies are read.
#[derive(Drop)]
pub struct Waiting {
    pub(crate) fetching: Fetching,
    pub(crate) act: Act,
    pub(crate) reader: Reader,
    pub(crate) bodies: Bodies,
    pub ghost asked: { fetching.last.value ≡ act },
    pub ghost suited: { IsTrue (suits act reader) },
    pub ghost framed: { bodies_read reader bodies ≡ bodies },
}

/// Where a fetch stands.
#[derive(Drop)]
pub enum Stand {
    /// It waits for what comes of its act.
    Waits(Waiting),
    /// It is over; so bodies were read.
    Ends(Boxed<Outcome>, Bodies),
    /// Memory was refused in its midst, and it is gone.
    Gone,
}

/// A whole fetch, between two calls: the document that fetches, and where the fetch stands.
#[derive(Drop)]
pub struct Session {
    pub(crate) document: Document,
    pub(crate) stand: Stand,
}

/// How a call went.
#[derive(Clone, Copy, Debug, PartialEq, Eq)]
pub enum Went {
    /// What came was taken.
    On,
    /// It is not what the fetch awaits. All is as it was.
    NotAwaited,
    /// Memory was refused, and the fetch is gone.
    OutOfMemory,
}

impl Session {
    ghost use Rattle.fetch_session.specs.Sessions.{act_of, awaits, outcome_of, standing_of};

    /// The act that is to be done next, unless the fetch is over or gone.
    pub fn act(&self) -> Option<&Act>
        ensures { option_map (λ act. act.now) result ≡ act_of (standing_of self.now) }
    {
        match &self.stand {
            Stand::Waits(waiting) => Some(&waiting.act),
            Stand::Ends(_, _) | Stand::Gone => None,
        }
    }

    /// The outcome, once the fetch is over.
    pub fn outcome(&self) -> Option<&Outcome>
        ensures { option_map (λ outcome. outcome.now) result ≡ outcome_of (standing_of self.now) }
    {
        match &self.stand {
            Stand::Ends(outcome, _) => Some(outcome.get()),
            Stand::Waits(_) | Stand::Gone => None,
        }
    }

    // Has the fetch stand there. No other function lets go of where it stood.
    pub(crate) fn settle(&mut self, stand: Stand)
        ensures stand { self.new.stand ≡ stand }
        ensures document { self.new.document ≡ self.old.document }
    {
        self.stand = stand;
    }

    // Takes out the fetch that waits. It is gone until it is settled again.
    pub(crate) fn lift(&mut self) -> Option<Waiting>
        ensures lifted { MatchOption result (act_of (standing_of self.old) ≡ None)
            (λ waiting. self.old.stand ≡ Stand.Waits waiting) }
        ensures gone { self.new.stand ≡ Stand.Gone }
        ensures document { self.new.document ≡ self.old.document }
    {
        match replace(&mut self.stand, Stand::Gone) {
            Stand::Waits(waiting) => Some(waiting),
            Stand::Ends(_, _) | Stand::Gone => None,
        }
    }

    // Whether an input may follow the act.
    pub(crate) fn awaits(&self, input: &Input) -> bool
        ensures { result ≡ awaits (standing_of self.now) input.now }
    {
        match &self.stand {
            Stand::Waits(waiting) => fits(&waiting.act, input),
            Stand::Ends(_, _) | Stand::Gone => false,
        }
    }
}
