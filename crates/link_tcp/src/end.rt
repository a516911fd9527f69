// The end of a connection over TCP that was accepted.
ghost use Rattle.std.specs.Prelude.{◌≡◌, refl};
ghost use Rattle.std.specs.Io.{ReadsAtMost, WritesAtMost};
ghost use Rattle.link_traits.specs.Counts.{HasCause};
ghost use Rattle.link_traits.specs.Sinks.{CountsZero};
ghost use Rattle.link_tcp.specs.TcpAccepts.{after_read, after_write, as_sink, as_source, fresh_end};

use link_traits::{Failed, Faults, Peer, Sink, Source};
use std::io::{Read, Write};
use std::marker::Model;
use std::net::Net;

/// The end of a connection over TCP, which is closed where it is dropped. It tells nothing of what its peer
/// sends and takes.
#[derive(Drop)]
pub struct TcpEnd<R: Net> {
    stream: R::Stream,
    read_faults: Faults,
    write_faults: Faults,
    zeros: u64,
}

impl<R: Net> Model for TcpEnd<R> {
    ghost use Rattle.link_tcp.specs.TcpAccepts.{TcpEndState};

    ghost Value = { TcpEndState };

    ghost view = { λ end. record {
      read_faults = end.read_faults;
      write_faults = end.write_faults;
      zeros = end.zeros;
    } };
}

impl<R: Net> TcpEnd<R> {
    // The end of this connection, with its counts at 0.
    pub(crate) fn new(stream: R::Stream) -> TcpEnd<R>
        ensures { result ≡ fresh_end }
    {
        TcpEnd {
            stream,
            read_faults: Faults::none(),
            write_faults: Faults::none(),
            zeros: 0,
        }
    }

    /// How often it failed to read.
    pub fn read_faults(&self) -> u64
        ensures { result ≡ self.now.read_faults }
    {
        self.read_faults.count()
    }

    /// How often it failed to write.
    pub fn write_faults(&self) -> u64
        ensures { result ≡ self.now.write_faults }
    {
        self.write_faults.count()
    }

    /// How often it took nothing of a piece that is not empty.
    pub fn zeros(&self) -> u64
        ensures { result ≡ self.now.zeros }
    {
        self.zeros
    }
}

impl<R: Net> Peer for TcpEnd<R> {
    ghost reads_beside = { λ _. refl };

    ghost writes_beside = { λ _. refl };
}

impl<R: Net> Source for TcpEnd<R> {
    ghost gives = { as_source };

    ghost beside = { as_sink };

    /// Reads what has come, once something has, or 0 bytes where the peer sends no more.
    fn read(&mut self, buf: &mut [u8]) -> Result<usize, Failed>
        ensures count { ReadsAtMost result buf.new }
        ensures cause { HasCause self.old.read_faults self.new.read_faults result }
        ensures after { self.new ≡ after_read self.old result }
        ensures beside { as_sink self.new ≡ as_sink self.old }
    {
        match self.stream.read(buf) {
            Ok(count) => Ok(count),
            Err(_) => Err(self.read_faults.fail()),
        }
    }
}

impl<R: Net> Sink for TcpEnd<R> {
    ghost takes = { as_sink };

    ghost beside = { as_source };

    /// Writes as much of the piece as the system takes at once.
    fn write(&mut self, piece: &[u8]) -> Result<usize, Failed>
        ensures count { WritesAtMost result piece.now }
        ensures cause { HasCause self.old.write_faults self.new.write_faults result }
        ensures zero { CountsZero self.old.zeros self.new.zeros result piece.now }
        ensures after { self.new ≡ after_write self.old piece.now result }
        ensures beside { as_source self.new ≡ as_source self.old }
    {
        match self.stream.write(piece) {
            Ok(count) => {
                if count == 0 && !piece.is_empty() {
                    self.zeros = self.zeros.saturating_add(1);
                }
                Ok(count)
            }
            Err(_) => Err(self.write_faults.fail()),
        }
    }
}
