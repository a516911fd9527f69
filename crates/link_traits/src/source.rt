// Where bytes come from: the trait, and how a source is read to its end.
ghost use Rattle.std.specs.Prelude.{◌≡◌, ◌+◌, ◌<◌, ◌≤◌, ◌^◌, [], take, length, Ok, Err, IfOk, OnErr, vec_len};
ghost use Rattle.std.specs.Io.{ReadsAtMost};
ghost use Rattle.link_traits.specs.Counts.{HasCause};
ghost use Rattle.link_traits.specs.Sinks.{SinkTold};
ghost use Rattle.link_traits.specs.Sources.{CountsFault, Gave, GaveAtMost, GaveJust, GaveWhole, IsAtEnd, SourceTold};

use std::alloc::Global;
use value_bytes::{Bytes, OutOfMemory};

/// A device failed.
#[derive(Clone, Copy, Debug, PartialEq, Eq)]
pub struct Failed;

/// Where bytes come from. It counts its faults, and may tell which bytes it has left.
pub trait Source {
    /// What it tells of itself.
    ghost gives: { Self → SourceTold };

    /// What it tells as a sink, where it is one beside (`Peer`): reading leaves that as it is.
    ghost beside: { Self → SinkTold };

    /// Puts the next bytes at the front of the buffer, and answers how many. 0 for a buffer that
    /// is not empty is the end. The count of faults rises by one where it fails, and only there.
    fn read(&mut self, buf: &mut [u8]) -> Result<usize, Failed>
        ensures count { ReadsAtMost result buf.new }
        ensures gave { IfOk result (λ n. Gave (gives self.old).left (gives self.new).left (take n buf.new)) }
        ensures end { result ≡ Ok 0 → 0 < length buf.new → IsAtEnd (gives self.new).left }
        ensures failed { OnErr result ((gives self.new).left ≡ (gives self.old).left) }
        ensures cause { HasCause (gives self.old).faults (gives self.new).faults result }
        ensures beside { beside self.new ≡ beside self.old };
}

/// Why a source was not read to its end.
#[derive(Clone, Copy, Debug, PartialEq, Eq)]
pub enum ReadStop {
    /// The source failed.
    Fault,
    /// It gave more bytes than the limit allows.
    TooLong,
    /// Memory was refused.
    OutOfMemory,
}

// How many bytes are asked for at once.
const PIECE: usize = 65_536;

// Room for one piece.
fn piece_buffer(alloc: Global) -> Result<Vec<u8>, OutOfMemory>
    ensures { IfOk result (λ buffer. vec_len buffer ≡ PIECE) }
{
    Ok(vec![in alloc; 0u8; PIECE]?)
}

/// Reads the source to its end, which is to come within `most` bytes.
///
/// One byte more is `TooLong`, and no byte after it is read. A read that failed is `Fault`, and refused memory is
/// `OutOfMemory`: then the source has given at most `most` bytes.
pub fn read_whole<S: Source>(alloc: Global, source: &mut S, most: usize) -> Result<Bytes, ReadStop>
    requires { most < 2 ^ 32 }
    ensures ok { IfOk result (λ text. GaveWhole (S.gives source.old).left (S.gives source.new).left text most) }
    ensures too_long { result ≡ Err ReadStop.TooLong
        → GaveJust (S.gives source.old).left (S.gives source.new).left (most + 1) }
    ensures stopped { result ≡ Err ReadStop.Fault
        → GaveAtMost (S.gives source.old).left (S.gives source.new).left most }
    ensures refused { result ≡ Err ReadStop.OutOfMemory
        → GaveAtMost (S.gives source.old).left (S.gives source.new).left most }
    ensures faults { CountsFault result (S.gives source.old).faults (S.gives source.new).faults }
{
    let mut buffer = match piece_buffer(alloc) {
        Ok(buffer) => buffer,
        Err(OutOfMemory) => return Err(ReadStop::OutOfMemory),
    };
    let mut text = Bytes::new(alloc);
    loop {
        let room = most + 1 - text.len();
        let piece = &mut buffer.as_mut_slice()[..room.min(PIECE)];
        match source.read(piece) {
            Err(Failed) => return Err(ReadStop::Fault),
            Ok(0) => return Ok(text),
            Ok(count) if count == room => return Err(ReadStop::TooLong),
            Ok(count) => {
                if let Err(OutOfMemory) = text.append(&piece[..count]) {
                    return Err(ReadStop::OutOfMemory);
                }
            }
        }
    }
}
