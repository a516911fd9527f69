// A peer in memory of which each call gives or takes few bytes.
ghost use Rattle.std.specs.Prelude.{None, refl};

use link_traits::{Failed, MemoryEnd, Peer, Sink, Source};

/// A peer in memory. A read of it gives so many bytes at most, or one where that is 0, and a write takes as many. It
/// tells nothing of them.
#[derive(Drop)]
pub(crate) struct SlowEnd {
    pub(crate) end: MemoryEnd,
    pub(crate) most: usize,
}

impl Peer for SlowEnd {
    ghost reads_beside = { λ _. refl };

    ghost writes_beside = { λ _. refl };
}

impl Source for SlowEnd {
    ghost gives = { λ slow. record { left = None; faults = slow.end.source.faults } };

    ghost beside = { λ slow. record {
      taken = None;
      faults = slow.end.sink.faults;
      zeros = slow.end.sink.zeros;
    } };

    fn read(&mut self, buf: &mut [u8]) -> Result<usize, Failed> {
        let room = buf.len().min(self.most.max(1));
        self.end.read(&mut buf[..room])
    }
}

impl Sink for SlowEnd {
    ghost takes = { λ slow. record {
      taken = None;
      faults = slow.end.sink.faults;
      zeros = slow.end.sink.zeros;
    } };

    ghost beside = { λ slow. record { left = None; faults = slow.end.source.faults } };

    fn write(&mut self, piece: &[u8]) -> Result<usize, Failed> {
        let count = piece.len().min(self.most.max(1));
        self.end.write(piece.split_at(count).0)
    }
}
