// What is done over a wire: a request goes out, and the head and the body of its answer come in.
ghost use Rattle.std.specs.Prelude.{◌≡◌, ◌≤◌, ◌+◌, ◌-◌, ◌^◌, ◌++◌, IfOk, OnErr, IsTrue};
ghost use Rattle.link_http1.specs.Answers.{IsUnfinished, most_bytes};
ghost use Rattle.link_http1.specs.Bodies.{IsOpen, body_end};
ghost use Rattle.fetch_acts.specs.Process.{fits};
ghost use Rattle.fetch_wire.specs.Exchanges as spec;
ghost use Rattle.fetch_wire.specs.Exchanges.{IsRequested, IsBodyRead, IsHeadRead, IsSent, ExchangeRefused};
ghost use Rattle.fetch_wire.specs.Private.Reads.{Finds, GivesAtMost, GivesSome, HasAtMost, Reads, faults_ended};
ghost use Rattle.fetch_wire.specs.Private.Reads.{faults_found};
ghost use Rattle.fetch_wire.specs.Wires.{coming_of, exchange_of, over_link, window_of};

use crate::wire::{RECEIVED, Wire};
use fetch_acts::{Act, Input};
use link_http1::{BodyReader, BodyStep, HeadReader, HeadStep, framing_of, write_request};
use link_traits::{Failed, Link, Target};
use std::alloc::Global;
use value_bytes::OutOfMemory;
use value_requests::{BodyEnd, Head, Hop};

/// How many bytes of an answer a head takes at most: the last is one too many.
const MOST_OF_HEAD: usize = 65_537;

/// What is found where a head is read.
#[derive(Drop)]
pub(crate) enum Found {
    /// The final head, and how many bytes of the window belong to it.
    Head(Head, usize),
    /// A block that is no head, or the end of the answer before a head.
    Bad,
    /// Heads longer than their limit.
    Long,
    /// Nothing, since the link failed.
    Fault,
}

/// What is found where a body is read.
#[derive(Drop)]
pub(crate) enum Ended {
    /// The end of the body.
    Body(BodyEnd),
    /// So many bytes of a body, and then the link failed.
    Fault(u32),
}

// How many bytes a body had that came to this end.
fn count_of(end: &BodyEnd) -> u32
    requires { HasAtMost end.now (2 ^ 32 - 1) }
    ensures { result ≡ spec.count_of end.now }
{
    match end {
        BodyEnd::Cut(count) => *count,
        BodyEnd::Whole(bytes) => bytes.len() as u32,
        _ => 0,
    }
}

// The same end of a body, which holds no more room than it needs.
fn fitted(alloc: Global, end: BodyEnd) -> Result<BodyEnd, OutOfMemory>
    ensures { IfOk result (λ fitted. fitted ≡ end) }
{
    match end {
        BodyEnd::Whole(bytes) => Ok(BodyEnd::Whole(bytes.fitted(alloc)?)),
        other => Ok(other),
    }
}

impl Wire {
    /// Sends a request (RFC 9112, section 3). Its answer is to come, and nothing of the one before. `Fault`
    /// where the link failed, and only there; then it is hung up. Where memory was refused nothing is sent,
    /// and all is as it was.
    #[tactic(auto, using(crate::proofs::WireLemmas::refuses_none))]
    pub fn send<L: Link>(
        &mut self,
        link: &mut L,
        alloc: Global,
        hop: &Hop,
    ) -> Result<Input, OutOfMemory>
        ensures sent { IfOk result (λ input. IsSent (over_link L.serves)
            (exchange_of L.told link.old self.old) hop.now input
            (exchange_of L.told link.new self.new)) }
        ensures fits { IfOk result (λ input. IsTrue (fits (Act.Send hop.now) input)) }
        ensures refused { OnErr result (ExchangeRefused (exchange_of L.told link.old self.old)
            (exchange_of L.told link.new self.new)) }
        ensures kept { OnErr result (exchange_of L.told link.new self.new
            ≡ exchange_of L.told link.old self.old) }
    {
        let request = write_request(alloc, hop)?;
        let target = Target {
            origin: hop.origin.copy(alloc)?,
        };
        Ok(self.ask(link, &target, request.as_slice()))
    }

    // Asks for the answer to the bytes of a request, and for nothing that was to come before.
    #[tactic(auto, using(crate::proofs::WireLemmas::onto_nothing))]
    fn ask<L: Link>(&mut self, link: &mut L, target: &Target, request: &[u8]) -> Input
        ensures { IsRequested (λ state. L.serves.answer state target.now.origin request.now)
            (λ state. L.serves.next state target.now.origin request.now)
            (exchange_of L.told link.old self.old)
            result (exchange_of L.told link.new self.new) }
    {
        self.hang_up(link);
        match link.ask(target, request) {
            Ok(()) => Input::Sent,
            Err(Failed) => {
                self.close(link);
                Input::Fault
            }
        }
    }

    /// Reads the head of the answer to the last request (RFC 9112, section 4): the final head, or what came
    /// is none, or it is longer than 65,536 bytes; then the link is hung up. It takes 65,537 bytes of the link
    /// at most, and of those after the head's end no more than come with it in one receive, of 4,096 at most.
    /// `Fault` where the link failed while the head was open, and only there; then what was received is dropped.
    /// Where memory was refused nothing is said of what is to come.
    #[tactic(auto, using(crate::proofs::WireLemmas::onto_nothing))]
    pub fn read_head<L: Link>(&mut self, link: &mut L, alloc: Global) -> Result<Input, OutOfMemory>
        ensures read { IfOk result (λ input. IsHeadRead
            (exchange_of L.told link.old self.old) input
            (exchange_of L.told link.new self.new)) }
        ensures fits { IfOk result (λ input. IsTrue (fits Act.ReadHead input)) }
        ensures refused { OnErr result (ExchangeRefused (exchange_of L.told link.old self.old)
            (exchange_of L.told link.new self.new)) }
    {
        match self.find_head(link, alloc)? {
            Found::Head(head, count) => {
                let framing = framing_of(alloc, &head)?;
                self.begin_body(count, framing);
                Ok(Input::HeadIs(head))
            }
            Found::Bad => {
                self.close(link);
                Ok(Input::HeadBad)
            }
            Found::Long => {
                self.close(link);
                Ok(Input::HeadLong)
            }
            Found::Fault => {
                self.break_off();
                Ok(Input::Fault)
            }
        }
    }

    // Finds the final head in what was received, and receives as much more as that needs, but no byte
    // after the one that makes the head too long.
    fn find_head<L: Link>(&mut self, link: &mut L, alloc: Global) -> Result<Found, OutOfMemory>
        ensures found { IfOk result (λ found. Finds (coming_of (L.told link.old).left self.old) found
            (window_of self.new)
            (L.told link.new).left) }
        ensures state { (L.told link.new).state ≡ (L.told link.old).state }
        ensures later { (L.told link.old).faults ≤ (L.told link.new).faults }
        ensures faults { IfOk result (λ found. (L.told link.new).faults ≡ faults_found found (L.told link.old).faults) }
        ensures refused { OnErr result ((L.told link.new).faults ≡ (L.told link.old).faults) }
        ensures few { GivesAtMost IsUnfinished (coming_of (L.told link.old).left self.old) (L.told link.old).left
            (L.told link.new).left (L.told link.old).received (L.told link.new).received (most_bytes + 1) }
    {
        let mut reader = HeadReader::new(alloc)?;
        loop {
            match reader.feed(alloc, self.window())? {
                HeadStep::Final(head, count) => return Ok(Found::Head(head, count)),
                HeadStep::Bad => return Ok(Found::Bad),
                HeadStep::TooBig => return Ok(Found::Long),
                HeadStep::More(next) => reader = next,
            }
            let room = MOST_OF_HEAD - reader.seen_bytes() as usize;
            match self.refill(link, room.min(RECEIVED)) {
                Ok(true) => {}
                Ok(false) => return Ok(Found::Bad),
                Err(Failed) => return Ok(Found::Fault),
            }
        }
    }

    /// Reads the body whose head was read last, of so many bytes at most (RFC 9112, section 6), and hangs up,
    /// unless the link fails. Of the bytes after the body's end it takes no more than come with it in one
    /// receive, of 4,096 at most. The body ends in `Fault`, with the number of bytes that had come of it, where
    /// the link failed while the body was open, and only there; then what was received is dropped. Where memory
    /// was refused nothing is said of what is to come.
    #[tactic(auto, using(crate::proofs::WireLemmas::onto_nothing))]
    pub fn read_body<L: Link>(
        &mut self,
        link: &mut L,
        alloc: Global,
        limit: u32,
    ) -> Result<Input, OutOfMemory>
        ensures read { IfOk result (λ input. IsBodyRead limit
            (exchange_of L.told link.old self.old)
            input (exchange_of L.told link.new self.new)) }
        ensures fits { IfOk result (λ input. IsTrue (fits Act.ReadBody input)) }
        ensures refused { OnErr result (ExchangeRefused (exchange_of L.told link.old self.old)
            (exchange_of L.told link.new self.new)) }
    {
        match self.find_end(link, alloc, limit)? {
            Ended::Body(end) => {
                self.close(link);
                Ok(Input::BodyIs(fitted(alloc, end)?))
            }
            Ended::Fault(count) => {
                self.break_off();
                Ok(Input::BodyIs(BodyEnd::Fault(count)))
            }
        }
    }

    // Finds the end of the body in what was received, and receives as much more as that needs.
    fn find_end<L: Link>(
        &mut self,
        link: &mut L,
        alloc: Global,
        limit: u32,
    ) -> Result<Ended, OutOfMemory>
        ensures ended { IfOk result (λ ended. Reads self.old.framing limit (coming_of (L.told link.old).left self.old)
            ended (L.told link.new).left) }
        ensures state { (L.told link.new).state ≡ (L.told link.old).state }
        ensures later { (L.told link.old).faults ≤ (L.told link.new).faults }
        ensures faults { IfOk result (λ ended. (L.told link.new).faults ≡ faults_ended ended (L.told link.old).faults) }
        ensures refused { OnErr result ((L.told link.new).faults ≡ (L.told link.old).faults) }
        ensures gives { GivesSome (IsOpen self.old.framing limit) (coming_of (L.told link.old).left self.old)
            (L.told link.old).left (L.told link.new).left (L.told link.old).received (L.told link.new).received }
    {
        let mut reader = BodyReader::framed(alloc, self.framing, limit)?;
        loop {
            match reader.feed(self.window()) {
                BodyStep::Over(end) => return Ok(Ended::Body(end)),
                BodyStep::More(next) => reader = next,
            }
            match self.gather(link, reader.fewest()) {
                Ok(true) => {}
                Ok(false) => return Ok(Ended::Body(self.last(reader))),
                Err(Failed) => return Ok(Ended::Fault(count_of(&self.last(reader)))),
            }
        }
    }

    // How the body ends where no more bytes come after those in the window.
    fn last(&self, reader: BodyReader) -> BodyEnd
        ensures { result ≡ body_end reader.framing reader.limit (reader.bytes ++ window_of self.now) }
    {
        let window = self.window();
        if window.is_empty() {
            return reader.finish();
        }
        match reader.feed(window) {
            BodyStep::Over(end) => end,
            BodyStep::More(next) => next.finish(),
        }
    }
}
