// A link in memory, with its answers to come and failures at chosen calls.
ghost use Rattle.std.specs.Prelude.{◌≡◌, ◌⊎◌, ◌<◌, ◌≤◌, ◌++◌, [], take, drop, length};
ghost use Rattle.std.specs.Prelude.{Some, Ok, IfOk, OnOk, OnErr};
ghost use Rattle.std.specs.Io.{ReadsAtMost};
ghost use Rattle.std.specs.List.{concat};
ghost use Rattle.link_traits.specs.Counts.{HasCause};
ghost use Rattle.link_traits.specs.Links.{Asked, Awaits, MayHaveAsked, Received};
ghost use Rattle.link_traits.specs.MemoryLink.{LinkState, after_ask, after_receive, answer_to, ask_answer, front};
ghost use Rattle.link_traits.specs.MemoryLink.{receive_answer, skipped, state_after};
ghost use Rattle.link_traits.specs.Sources.{Gave, IsAtEnd};

use crate::faults::Faults;
use crate::kept_asks::KeptAsks;
use crate::link::Link;
use crate::pieces::Pieces;
use crate::source::Failed;
use crate::target::{Ask, Target};
use std::alloc::Global;
use std::collections::VecDeque;
use std::marker::Model;
use value_bytes::{BytesList, Items, OutOfMemory};

/// A link in memory, with its answers to come. It fails at chosen calls and where an ask does not
/// find its room, and nowhere else.
#[derive(Drop)]
pub struct MemoryLink {
    answers: VecDeque<BytesList>,
    pieces: Pieces,
    kept: KeptAsks,
    ask_calls: u64,
    failing_asks: Vec<u64>,
    receive_calls: u64,
    failing_receives: Vec<u64>,
    faults: Faults,
}

impl Model for MemoryLink {
    ghost use Rattle.link_traits.specs.MemoryLink.{MemoryLinkState};

    ghost Value = { MemoryLinkState };

    ghost view = { λ link. record {
      state = record { answers = link.answers.items; asks = link.kept.asks; room = link.kept.room };
      pieces = link.pieces;
      received = link.kept.received;
      ask_calls = link.ask_calls;
      failing_asks = link.failing_asks.items;
      receive_calls = link.receive_calls;
      failing_receives = link.failing_receives.items;
      faults = link.faults;
    } };
}

impl MemoryLink {
    /// A link with these answers, each the list of its pieces, and with so many bytes of room for
    /// what it is asked, which are reserved here, or `OutOfMemory`. It fails at the asks whose
    /// numbers, counted from 1, are in `failed_asks`, and at the receives whose numbers, counted by
    /// themselves, are in `failed_receives`.
    pub fn new(
        alloc: Global,
        answers: Vec<BytesList>,
        room: usize,
        failed_asks: Vec<u64>,
        failed_receives: Vec<u64>,
    ) -> Result<MemoryLink, OutOfMemory>
        ensures { IfOk result (λ link. link ≡ record {
          state = record { answers = answers.items; asks = []; room = room };
          pieces = [];
          received = [];
          ask_calls = 0;
          failing_asks = failed_asks.items;
          receive_calls = 0;
          failing_receives = failed_receives.items;
          faults = 0;
        }) }
    {
        Ok(MemoryLink {
            answers: VecDeque::from(answers),
            pieces: Pieces::none(alloc),
            kept: KeptAsks::new(alloc, room)?,
            ask_calls: 0,
            failing_asks: failed_asks,
            receive_calls: 0,
            failing_receives: failed_receives,
            faults: Faults::none(),
        })
    }

    /// What it was asked so far, in order, copied.
    pub fn asks(&self, alloc: Global) -> Result<Items<Ask>, OutOfMemory>
        ensures { IfOk result (λ asks. asks ≡ self.now.state.asks) }
    {
        self.kept.copies(alloc)
    }

    /// How often it failed.
    pub fn faults(&self) -> u64
        ensures { result ≡ self.now.faults }
    {
        self.faults.count()
    }
}

impl Link for MemoryLink {
    ghost State = { LinkState };

    ghost serves = { record { answer = answer_to; next = state_after } };

    ghost told = { λ link. record {
      state = Some link.state;
      left = Some (concat link.pieces);
      asks = Some link.state.asks;
      received = Some link.received;
      faults = link.faults;
    } };

    /// Uses up the next answer, whose bytes are then to come: none where no answer is left. An ask
    /// needs as much room as its target's origin and its request have bytes, and one byte more, and
    /// fails where less is left. One that finds its room is kept and uses it, also where it fails
    /// as its number says. After a failed ask nothing is to come.
    fn ask(&mut self, target: &Target, request: &[u8]) -> Result<(), Failed>
        ensures state { Some self.new.state ≡ Some (state_after self.old.state target.now.origin request.now) }
        ensures answered { OnOk result (Some (concat self.new.pieces)
            ≡ Some (answer_to self.old.state target.now.origin request.now)) }
        ensures asked { OnOk result (Asked (Some self.old.state.asks) (Some self.new.state.asks)
            (record { origin = target.now.origin; request = request.now })) }
        ensures failed { OnErr result (MayHaveAsked (Some self.old.state.asks) (Some self.new.state.asks)
            (record { origin = target.now.origin; request = request.now })) }
        ensures awaits { OnOk result (Awaits (Some self.old.received) (Some self.new.received)) }
        ensures may_await { OnErr result (Awaits (Some self.old.received) (Some self.new.received)
            ⊎ (Some self.new.received ≡ Some self.old.received)) }
        ensures cause { HasCause self.old.faults self.new.faults result }
        ensures answer { result ≡ ask_answer self.old target.now.origin request.now }
        ensures after { self.new ≡ after_ask self.old target.now.origin request.now result }
    {
        self.hang_up();
        self.ask_calls = self.ask_calls.saturating_add(1);
        let answer = self.answers.pop_front();
        let kept = self.kept.keep(target.origin.as_slice(), request);
        if self.failing_asks.contains(&self.ask_calls) || !kept {
            return Err(self.faults.fail());
        }
        if let Some(answer) = answer {
            self.pieces = Pieces::of(answer);
        }
        Ok(())
    }

    /// Gives the lesser of the buffer and what is left of the first piece that is not empty, or
    /// fails as its number says.
    fn recv(&mut self, buf: &mut [u8]) -> Result<usize, Failed>
        ensures count { ReadsAtMost result buf.new }
        ensures gave { IfOk result (λ n. Gave (Some (concat self.old.pieces)) (Some (concat self.new.pieces))
            (take n buf.new)) }
        ensures end { result ≡ Ok 0 → 0 < length buf.new → IsAtEnd (Some (concat self.new.pieces)) }
        ensures failed { OnErr result (Some (concat self.new.pieces) ≡ Some (concat self.old.pieces)) }
        ensures state { Some self.new.state ≡ Some self.old.state }
        ensures asks { Some self.new.state.asks ≡ Some self.old.state.asks }
        ensures received { IfOk result (λ n. Received n (Some self.old.received) (Some self.new.received)) }
        ensures unreceived { OnErr result (Some self.new.received ≡ Some self.old.received) }
        ensures cause { HasCause self.old.faults self.new.faults result }
        ensures answer { result ≡ receive_answer self.old (length buf.old) }
        ensures after { self.new ≡ after_receive self.old result }
        ensures given { IfOk result (λ n. buf.new ≡ take n (front (skipped self.old.pieces)) ++ drop n buf.old) }
        ensures untouched { OnErr result (buf.new ≡ buf.old) }
    {
        self.receive_calls = self.receive_calls.saturating_add(1);
        if self.failing_receives.contains(&self.receive_calls) {
            return Err(self.faults.fail());
        }
        let count = self.pieces.give(buf);
        self.kept.receive(count);
        Ok(count)
    }

    /// Drops the pieces that are still to come.
    fn hang_up(&mut self)
        ensures end { IsAtEnd (Some (concat self.new.pieces)) }
        ensures state { Some self.new.state ≡ Some self.old.state }
        ensures asks { Some self.new.state.asks ≡ Some self.old.state.asks }
        ensures received { Some self.new.received ≡ Some self.old.received }
        ensures faults { self.new.faults ≡ self.old.faults }
        ensures after { self.new ≡ record self.old { pieces = [] } }
    {
        self.pieces.clear();
    }
}
