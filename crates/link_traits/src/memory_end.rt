// The end of a connection in memory: a source and a sink.
ghost use Rattle.std.specs.Prelude.{◌≡◌, ◌<◌, ◌++◌, [], take, drop, length, refl, Some, Ok, IfOk, OnErr};
ghost use Rattle.std.specs.Io.{ReadsAtMost, WritesAtMost};
ghost use Rattle.link_traits.specs.Counts.{HasCause};
ghost use Rattle.link_traits.specs.MemoryAccepts.{as_sink, as_source};
ghost use Rattle.link_traits.specs.MemorySink.{after_write, write_answer};
ghost use Rattle.link_traits.specs.MemorySource.{after_read, read_answer};
ghost use Rattle.link_traits.specs.Sinks.{CountsZero, Took};
ghost use Rattle.link_traits.specs.Sources.{Gave, IsAtEnd};

use crate::memory_sink::MemorySink;
use crate::memory_source::MemorySource;
use crate::peer::Peer;
use crate::sink::Sink;
use crate::source::{Failed, Source};
use std::marker::Model;

/// An end of a connection in memory: what its peer sent, and what takes what is sent to it.
#[derive(Drop)]
pub struct MemoryEnd {
    source: MemorySource,
    sink: MemorySink,
}

impl Model for MemoryEnd {
    ghost use Rattle.link_traits.specs.MemoryAccepts.{EndState};

    ghost Value = { EndState };

    ghost view = { λ end. record { source = end.source; sink = end.sink } };
}

impl MemoryEnd {
    /// An end of a connection that gives what the source does, and takes what the sink does.
    pub fn new(source: MemorySource, sink: MemorySink) -> MemoryEnd
        ensures { result ≡ record { source = source; sink = sink } }
    {
        MemoryEnd { source, sink }
    }

    /// The bytes that were sent to its peer.
    pub fn taken(&self) -> &[u8]
        ensures { result.now ≡ self.now.sink.taken }
    {
        self.sink.taken()
    }
}

impl Source for MemoryEnd {
    ghost gives = { as_source };

    ghost beside = { as_sink };

    /// Reads from its source.
    fn read(&mut self, buf: &mut [u8]) -> Result<usize, Failed>
        ensures count { ReadsAtMost result buf.new }
        ensures gave { IfOk result (λ n. Gave (Some self.old.source.left) (Some self.new.source.left)
            (take n buf.new)) }
        ensures end { result ≡ Ok 0 → 0 < length buf.new → IsAtEnd (Some self.new.source.left) }
        ensures failed { OnErr result (Some self.new.source.left ≡ Some self.old.source.left) }
        ensures cause { HasCause self.old.source.faults self.new.source.faults result }
        ensures answer { result ≡ read_answer self.old.source (length buf.old) }
        ensures after { self.new ≡ record self.old { source = after_read self.old.source result } }
        ensures given { IfOk result (λ n. buf.new ≡ take n self.old.source.left ++ drop n buf.old) }
        ensures untouched { OnErr result (buf.new ≡ buf.old) }
        ensures beside { as_sink self.new ≡ as_sink self.old }
    {
        self.source.read(buf)
    }
}

impl Sink for MemoryEnd {
    ghost takes = { as_sink };

    ghost beside = { as_source };

    /// Writes to its sink.
    fn write(&mut self, piece: &[u8]) -> Result<usize, Failed>
        ensures count { WritesAtMost result piece.now }
        ensures took { IfOk result (λ n. Took (Some self.old.sink.taken) (Some self.new.sink.taken)
            (take n piece.now)) }
        ensures failed { OnErr result (Took (Some self.old.sink.taken) (Some self.new.sink.taken) []) }
        ensures cause { HasCause self.old.sink.faults self.new.sink.faults result }
        ensures zero { CountsZero self.old.sink.zeros self.new.sink.zeros result piece.now }
        ensures answer { result ≡ write_answer self.old.sink piece.now }
        ensures after { self.new ≡ record self.old { sink = after_write self.old.sink piece.now result } }
        ensures beside { as_source self.new ≡ as_source self.old }
    {
        self.sink.write(piece)
    }
}

impl Peer for MemoryEnd {
    ghost reads_beside = { λ _. refl };

    ghost writes_beside = { λ _. refl };
}
