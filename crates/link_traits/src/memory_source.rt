// A source in memory, with failures at chosen calls.
ghost use Rattle.std.specs.Prelude.{◌≡◌, ◌<◌, ◌++◌, [], take, drop, length, Some, Ok, IfOk, OnErr};
ghost use Rattle.std.specs.Io.{ReadsAtMost};
ghost use Rattle.link_traits.specs.Counts.{HasCause};
ghost use Rattle.link_traits.specs.MemorySource.{after_read, read_answer};
ghost use Rattle.link_traits.specs.Sinks.{no_sink};
ghost use Rattle.link_traits.specs.Sources.{Gave, IsAtEnd};

use crate::faults::Faults;
use crate::source::{Failed, Source};
use std::marker::Model;
use value_bytes::Bytes;

/// A source in memory, which fails at chosen calls and nowhere else.
#[derive(Drop)]
pub struct MemorySource {
    text: Bytes,
    at: usize,
    calls: u64,
    failing_calls: Vec<u64>,
    faults: Faults,
}

impl Model for MemorySource {
    ghost use Rattle.std.specs.Prelude.{◌≤◌, drop, length};
    ghost use Rattle.link_traits.specs.MemorySource.{SourceState};

    ghost Value = { SourceState };

    ghost view = { λ source. record {
      left = drop source.at source.text;
      calls = source.calls;
      failing_calls = source.failing_calls.items;
      faults = source.faults;
    } };

    ghost invariant = { λ source. source.at ≤ length source.text };
}

impl MemorySource {
    /// A source of the text that fails at the calls with these numbers, counted from 1.
    pub fn new(text: Bytes, fails: Vec<u64>) -> MemorySource
        ensures { result ≡ record { left = text; calls = 0; failing_calls = fails.items; faults = 0 } }
    {
        MemorySource {
            text,
            at: 0,
            calls: 0,
            failing_calls: fails,
            faults: Faults::none(),
        }
    }
}

impl Source for MemorySource {
    ghost gives = { λ source. record { left = Some source.left; faults = source.faults } };

    ghost beside = { λ _. no_sink };

    /// Gives as many bytes as the buffer holds and are left, or fails as its number says.
    fn read(&mut self, buf: &mut [u8]) -> Result<usize, Failed>
        ensures count { ReadsAtMost result buf.new }
        ensures gave { IfOk result (λ n. Gave (Some self.old.left) (Some self.new.left) (take n buf.new)) }
        ensures end { result ≡ Ok 0 → 0 < length buf.new → IsAtEnd (Some self.new.left) }
        ensures failed { OnErr result (Some self.new.left ≡ Some self.old.left) }
        ensures cause { HasCause self.old.faults self.new.faults result }
        ensures answer { result ≡ read_answer self.old (length buf.old) }
        ensures after { self.new ≡ after_read self.old result }
        ensures given { IfOk result (λ n. buf.new ≡ take n self.old.left ++ drop n buf.old) }
        ensures untouched { OnErr result (buf.new ≡ buf.old) }
    {
        self.calls = self.calls.saturating_add(1);
        if self.failing_calls.contains(&self.calls) {
            return Err(self.faults.fail());
        }
        let rest = self.text.as_slice().split_at(self.at).1;
        let count = rest.len().min(buf.len());
        buf[..count].copy_from_slice(&rest[..count]);
        self.at += count;
        Ok(count)
    }
}
