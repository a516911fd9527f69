// An answer ends, or a connection fails.
ghost use Rattle.std.specs.Prelude.{◌≡◌, true, IfOk, Some};
ghost use Rattle.fetch_session.specs.Feeding as spec;
ghost use Rattle.fetch_session.specs.Private.Endings.{FailsReader, end_of_reader};
ghost use Rattle.fetch_session.specs.Sessions.{standing_of};

use crate::reading::{Reader, fitted};
use crate::session::{Session, Waiting, Went};
use fetch_acts::{Act, Input};
use link_http1::{BodyReader, BodyStep};
use std::alloc::Global;
use value_bytes::OutOfMemory;
use value_requests::BodyEnd;

// How many bytes a body had that came to this end.
fn count_of(end: &BodyEnd) -> u32
    ensures { result ≡ spec.count_of end.now }
{
    match end {
        BodyEnd::Cut(count) => *count,
        BodyEnd::Whole(bytes) => bytes.len().min(u32::MAX as usize) as u32,
        BodyEnd::Null | BodyEnd::Fault(_) | BodyEnd::TooBig => 0,
    }
}

// What an answer comes to that ends here.
fn input_at_end(alloc: Global, reader: Reader) -> Result<Input, OutOfMemory>
    ensures { IfOk result (λ input. input ≡ end_of_reader reader) }
{
    match reader {
        Reader::Body(reader) => Ok(Input::BodyIs(fitted(alloc, reader.finish())?)),
        Reader::Head(_) | Reader::Idle => Ok(Input::HeadBad),
    }
}

// What comes where the connection fails while a body is read.
fn body_at_fault(alloc: Global, reader: BodyReader) -> Result<Input, OutOfMemory>
    ensures { IfOk result (spec.FailsReading reader.framing reader.limit reader.bytes) }
{
    match reader.feed(&[]) {
        BodyStep::More(reader) => Ok(Input::BodyIs(BodyEnd::Fault(count_of(&reader.finish())))),
        BodyStep::Over(end) => Ok(Input::BodyIs(fitted(alloc, end)?)),
    }
}

// What comes where the connection fails here.
fn input_at_fault(alloc: Global, reader: Reader) -> Result<Input, OutOfMemory>
    ensures { IfOk result (FailsReader reader) }
{
    match reader {
        Reader::Body(reader) => body_at_fault(alloc, reader),
        Reader::Head(_) | Reader::Idle => Ok(Input::Fault),
    }
}

impl Session {
    /// The server ended the answer, or hung up: no more bytes come.
    pub fn ended(&mut self, alloc: Global) -> Went
        ensures { spec.Ends (standing_of self.old) result (standing_of self.new) }
    {
        if !self.reads() {
            return Went::NotAwaited;
        }
        let Some(waiting) = self.lift() else {
            return Went::NotAwaited;
        };
        let Waiting {
            fetching,
            act,
            reader,
            bodies,
        } = waiting;
        drop(act);
        match input_at_end(alloc, reader) {
            Ok(input) => self.go_on(alloc, fetching, bodies, input),
            Err(_) => Went::OutOfMemory,
        }
    }

    // Whether a connection is used.
    fn may_fail(&self) -> bool
        ensures { result ≡ spec.may_fail (standing_of self.now) }
    {
        matches!(
            self.act(),
            Some(Act::Send(_) | Act::ReadHead | Act::ReadBody)
        )
    }

    /// The connection failed: the request could not be sent, or no more bytes can be received. A body that is decided
    /// by the bytes so far, as one of no length is, has the end that they decide.
    #[tactic(auto, using(crate::proofs::EndingLemmas::fault_suits))]
    pub fn failed(&mut self, alloc: Global) -> Went
        ensures { spec.Fails (standing_of self.old) result (standing_of self.new) }
    {
        if !self.may_fail() {
            return Went::NotAwaited;
        }
        let Some(waiting) = self.lift() else {
            return Went::NotAwaited;
        };
        let Waiting {
            fetching,
            act,
            reader,
            bodies,
        } = waiting;
        drop(act);
        match input_at_fault(alloc, reader) {
            Ok(input) => self.go_on(alloc, fetching, bodies, input),
            Err(_) => Went::OutOfMemory,
        }
    }
}
