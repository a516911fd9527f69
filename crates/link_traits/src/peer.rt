// The peer at the other end of a connection, both a source and a sink: the trait.
ghost use Rattle.std.specs.Prelude.{◌≡◌};

use crate::sink::Sink;
use crate::source::Source;

/// The peer at the other end of a connection: what it sends is read, and it is sent what is written. Reading
/// leaves what it tells as a sink, and writing leaves what it tells as a source.
pub trait Peer: Source + Sink {
    ghost reads_beside: { (peer : Self) → Self.Source.beside peer ≡ Self.takes peer };

    ghost writes_beside: { (peer : Self) → Self.Sink.beside peer ≡ Self.gives peer };
}
