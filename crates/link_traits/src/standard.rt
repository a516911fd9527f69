// Standard input, output and error and the system's clock, behind the traits.
ghost use Rattle.std.specs.Prelude.{◌≡◌, None};
ghost use Rattle.link_traits.specs.Sinks.{no_sink};
ghost use Rattle.link_traits.specs.Sources.{no_source};

use crate::clock::Clock;
use crate::faults::Faults;
use crate::sink::Sink;
use crate::source::{Failed, Source};
use std::io::{Read, Stderr, Stdin, Stdout, Write};
use std::marker::Model;
use std::time;

/// A source over a reader, seen as the count of its faults. It tells no content.
#[derive(Drop)]
pub struct ReaderSource<R: Read> {
    reader: R,
    faults: Faults,
}

/// Standard input as a source. A read is one call of the system.
pub type StandardInput = ReaderSource<Stdin>;

impl<R: Read> Model for ReaderSource<R> {
    ghost use Rattle.std.specs.Prelude.{ℕ};

    ghost Value = { ℕ };

    ghost view = { λ source. source.faults };
}

impl<R: Read> ReaderSource<R> {
    /// A source over the reader, with its count at 0.
    pub fn new(reader: R) -> ReaderSource<R>
        ensures { result ≡ 0 }
    {
        ReaderSource {
            reader,
            faults: Faults::none(),
        }
    }
}

impl<R: Read> Source for ReaderSource<R> {
    ghost gives = { λ source. record { left = None; faults = source } };

    ghost beside = { λ _. no_sink };

    fn read(&mut self, buf: &mut [u8]) -> Result<usize, Failed> {
        match self.reader.read(buf) {
            Ok(count) => Ok(count),
            Err(_) => Err(self.faults.fail()),
        }
    }
}

/// A sink over a writer that keeps no buffer, seen as its two counts. It tells no content.
#[derive(Drop)]
pub struct WriterSink<W: Write> {
    writer: W,
    faults: Faults,
    zeros: u64,
}

/// Standard output as a sink. A write is one call of the system.
pub type StandardOutput = WriterSink<Stdout>;

/// Standard error as a sink. A write is one call of the system.
pub type StandardError = WriterSink<Stderr>;

impl<W: Write> Model for WriterSink<W> {
    ghost use Rattle.link_traits.specs.Sinks.{SinkCounts};

    ghost Value = { SinkCounts };

    ghost view = { λ sink. record { faults = sink.faults; zeros = sink.zeros } };
}

impl<W: Write> WriterSink<W> {
    /// A sink over the writer, with its counts at 0.
    pub fn new(writer: W) -> WriterSink<W>
        ensures { result ≡ record { faults = 0; zeros = 0 } }
    {
        WriterSink {
            writer,
            faults: Faults::none(),
            zeros: 0,
        }
    }
}

impl<W: Write> Sink for WriterSink<W> {
    ghost takes = { λ sink. record { taken = None; faults = sink.faults; zeros = sink.zeros } };

    ghost beside = { λ _. no_source };

    fn write(&mut self, piece: &[u8]) -> Result<usize, Failed> {
        match self.writer.write(piece) {
            Ok(count) => {
                if count == 0 && !piece.is_empty() {
                    self.zeros = self.zeros.saturating_add(1);
                }
                Ok(count)
            }
            Err(_) => Err(self.faults.fail()),
        }
    }
}

/// The clock of the system. It tells no answer ahead.
#[derive(Drop)]
pub struct SystemClock<R: time::Clock> {
    system: R,
}

impl<R: time::Clock> SystemClock<R> {
    /// A clock over that of the system.
    pub fn new(system: R) -> SystemClock<R> {
        SystemClock { system }
    }
}

impl<R: time::Clock> Clock for SystemClock<R> {
    ghost next = { λ _. None };

    /// The whole seconds since 1970 began, or 0 where the system's clock cannot be read or is set to a
    /// time before then.
    fn now(&mut self) -> u64 {
        match self.system.since_1970() {
            Ok(since_1970) => since_1970.as_secs(),
            Err(_) => 0,
        }
    }
}
