// A source and a sink over a device of the system that fails, and a clock.
ghost use Rattle.std.specs.Prelude.{◌≤◌, IfOk};

use link_traits::{Clock, FixedClock, ReaderSource, Sink, Source, WriterSink};
use rows_shell::Shown;
use std::io;
use std::io::{ErrorKind, Read, Write};

/// A device that gives and takes two bytes a call, and fails at its second.
#[derive(Drop)]
struct Device {
    calls: u32,
}

impl Device {
    // How many bytes a call gives or takes.
    fn count(&mut self, most: usize) -> io::Result<usize>
        ensures { IfOk result (λ n. n ≤ most) }
    {
        self.calls = self.calls.saturating_add(1);
        if self.calls == 2 {
            return Err(ErrorKind::BrokenPipe.into());
        }
        Ok(most.min(2))
    }
}

impl Read for Device {
    fn read(&mut self, buf: &mut [u8]) -> io::Result<usize> {
        self.count(buf.len())
    }
}

impl Write for Device {
    fn write(&mut self, buf: &[u8]) -> io::Result<usize> {
        self.count(buf.len())
    }

    fn flush(&mut self) -> io::Result<()> {
        Ok(())
    }
}

// What three reads, three writes and a clock answer.
pub(crate) fn called(shown: &mut Shown) {
    let mut source = ReaderSource::new(Device { calls: 0 });
    let mut sink = WriterSink::new(Device { calls: 0 });
    for _ in 0..3 {
        match source.read(&mut [0u8; 3]) {
            Ok(count) => shown.add_count(b"read ", count),
            Err(_) => shown.add(b"not read"),
        }
        match sink.write(b"abc") {
            Ok(count) => shown.add_count(b", wrote ", count),
            Err(_) => shown.add(b", not written"),
        }
        shown.add(b", ");
    }
    shown.add(b"time ");
    shown.add_number(FixedClock::new(7).now());
}
