// Where bytes go: the trait, and how a text is written whole.
ghost use Rattle.std.specs.Prelude.{◌≡◌, [], take, IfOk, OnOk, OnErr};
ghost use Rattle.std.specs.Io.{WritesAtMost};
ghost use Rattle.link_traits.specs.Counts.{HasCause};
ghost use Rattle.link_traits.specs.Sinks.{CountsZero, SinkTold, Took, TookPart, faults_written, zeros_written};
ghost use Rattle.link_traits.specs.Sources.{SourceTold};

use crate::source::Failed;

/// Where bytes go. It counts its faults and its answers 0 to a piece that is not empty, and may
/// tell which bytes it has taken.
pub trait Sink {
    /// What it tells of itself.
    ghost takes: { Self → SinkTold };

    /// What it tells as a source, where it is one beside (`Peer`): writing leaves that as it is.
    ghost beside: { Self → SourceTold };

    /// Takes a first part of the piece, and answers how many bytes. The count of faults rises by one where it fails,
    /// and only there; that of answers 0 where it takes nothing of a piece that is not empty, and only there.
    fn write(&mut self, piece: &[u8]) -> Result<usize, Failed>
        ensures count { WritesAtMost result piece.now }
        ensures took { IfOk result (λ n. Took (takes self.old).taken (takes self.new).taken (take n piece.now)) }
        ensures failed { OnErr result (Took (takes self.old).taken (takes self.new).taken []) }
        ensures cause { HasCause (takes self.old).faults (takes self.new).faults result }
        ensures zero { CountsZero (takes self.old).zeros (takes self.new).zeros result piece.now }
        ensures beside { beside self.new ≡ beside self.old };
}

/// Why a text was not written whole.
#[derive(Clone, Copy, Debug, PartialEq, Eq)]
pub enum WriteFault {
    /// The sink failed.
    Fault,
    /// The sink took nothing of a piece that was not empty.
    TookNothing,
}

/// Writes the whole text. After a fault the sink has taken a prefix of it, and is asked no more: of its counts the one
/// that tells of the fault rose by one. Without a fault both are as they were.
pub fn write_whole<K: Sink>(sink: &mut K, text: &[u8]) -> Result<(), WriteFault>
    ensures ok { OnOk result (Took (K.takes sink.old).taken (K.takes sink.new).taken text.now) }
    ensures err { OnErr result (TookPart (K.takes sink.old).taken (K.takes sink.new).taken text.now) }
    ensures faults { (K.takes sink.new).faults ≡ faults_written (K.takes sink.old).faults result }
    ensures zeros { (K.takes sink.new).zeros ≡ zeros_written (K.takes sink.old).zeros result }
    ensures beside { K.beside sink.new ≡ K.beside sink.old }
{
    let mut rest = text;
    while !rest.is_empty() {
        match sink.write(rest) {
            Err(Failed) => return Err(WriteFault::Fault),
            Ok(0) => return Err(WriteFault::TookNothing),
            Ok(count) => rest = rest.split_at(count).1,
        }
    }
    Ok(())
}
