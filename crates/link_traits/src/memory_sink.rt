// A sink in memory, with failures at chosen calls.
ghost use Rattle.std.specs.Prelude.{◌≡◌, [], take, Some, Ok, IfOk, OnErr};
ghost use Rattle.std.specs.Io.{WritesAtMost};
ghost use Rattle.link_traits.specs.Counts.{HasCause};
ghost use Rattle.link_traits.specs.MemorySink.{after_write, write_answer};
ghost use Rattle.link_traits.specs.Sinks.{CountsZero, Took};
ghost use Rattle.link_traits.specs.Sources.{no_source};

use crate::faults::Faults;
use crate::sink::Sink;
use crate::source::Failed;
use std::alloc::Global;
use std::marker::Model;
use value_bytes::OutOfMemory;

/// A sink in memory with room for so many bytes. It fails at chosen calls and where its room is
/// used up, and takes nothing at other chosen calls.
#[derive(Drop)]
pub struct MemorySink {
    taken: Vec<u8>,
    room: usize,
    calls: u64,
    failing_calls: Vec<u64>,
    zero_calls: Vec<u64>,
    faults: Faults,
    zeros: u64,
}

impl Model for MemorySink {
    ghost use Rattle.std.specs.Prelude.{◌+◌, ◌≤◌, vec_capacity, vec_len};
    ghost use Rattle.link_traits.specs.MemorySink.{SinkState};

    ghost Value = { SinkState };

    ghost view = { λ sink. record {
      taken = sink.taken.items;
      room = sink.room;
      calls = sink.calls;
      failing_calls = sink.failing_calls.items;
      zero_calls = sink.zero_calls.items;
      faults = sink.faults;
      zeros = sink.zeros;
    } };

    ghost invariant = { λ sink. vec_len sink.taken + sink.room ≤ vec_capacity sink.taken };
}

impl MemorySink {
    /// A sink with room for so many bytes, which are reserved here, or `OutOfMemory`. It fails at
    /// the calls whose numbers, counted from 1, are in `fails`, and takes nothing of a piece that is
    /// not empty at those in `zeros`.
    pub fn new(
        alloc: Global,
        room: usize,
        fails: Vec<u64>,
        zeros: Vec<u64>,
    ) -> Result<MemorySink, OutOfMemory>
        ensures { IfOk result (λ sink. sink ≡ record {
          taken = [];
          room = room;
          calls = 0;
          failing_calls = fails.items;
          zero_calls = zeros.items;
          faults = 0;
          zeros = 0;
        }) }
    {
        Ok(MemorySink {
            taken: Vec::with_capacity(alloc, room)?,
            room,
            calls: 0,
            failing_calls: fails,
            zero_calls: zeros,
            faults: Faults::none(),
            zeros: 0,
        })
    }

    /// The bytes that it took.
    pub fn taken(&self) -> &[u8]
        ensures { result.now ≡ self.now.taken }
    {
        self.taken.as_slice()
    }
}

impl Sink for MemorySink {
    ghost takes = { λ sink. record { taken = Some sink.taken; faults = sink.faults; zeros = sink.zeros } };

    ghost beside = { λ _. no_source };

    /// Takes as many bytes as there are and its room allows, or does as its number says.
    fn write(&mut self, piece: &[u8]) -> Result<usize, Failed>
        ensures count { WritesAtMost result piece.now }
        ensures took { IfOk result (λ n. Took (Some self.old.taken) (Some self.new.taken) (take n piece.now)) }
        ensures failed { OnErr result (Took (Some self.old.taken) (Some self.new.taken) []) }
        ensures cause { HasCause self.old.faults self.new.faults result }
        ensures zero { CountsZero self.old.zeros self.new.zeros result piece.now }
        ensures answer { result ≡ write_answer self.old piece.now }
        ensures after { self.new ≡ after_write self.old piece.now result }
    {
        self.calls = self.calls.saturating_add(1);
        if self.failing_calls.contains(&self.calls) {
            return Err(self.faults.fail());
        }
        if piece.is_empty() {
            return Ok(0);
        }
        if self.zero_calls.contains(&self.calls) {
            self.zeros = self.zeros.saturating_add(1);
            return Ok(0);
        }
        if self.room == 0 {
            return Err(self.faults.fail());
        }
        let count = piece.len().min(self.room);
        match self.taken.extend_from_slice(piece.split_at(count).0) {
            Ok(()) => {
                self.room -= count;
                Ok(count)
            }
            Err(_) => unreachable!("the room was reserved"),
        }
    }
}
