// Texts that are written whole.
ghost use Rattle.std.specs.Prelude.{◌≡◌, ◌++◌, OnErr, OnOk};
ghost use Rattle.link_traits.specs.Sinks.{Took, TookPart, faults_written, zeros_written};
ghost use Rattle.program_shell.specs.Statuses.{line};

use link_traits::{Sink, WriteFault, write_whole};

// Writes two texts whole, one after the other.
fn write_two<K: Sink>(sink: &mut K, first: &[u8], second: &[u8]) -> Result<(), WriteFault>
    ensures ok { OnOk result (Took (K.takes sink.old).taken (K.takes sink.new).taken (first.now ++ second.now)) }
    ensures err { OnErr result (TookPart (K.takes sink.old).taken (K.takes sink.new).taken (first.now ++ second.now)) }
    ensures faults { (K.takes sink.new).faults ≡ faults_written (K.takes sink.old).faults result }
    ensures zeros { (K.takes sink.new).zeros ≡ zeros_written (K.takes sink.old).zeros result }
{
    if let Err(fault) = write_whole(sink, first) {
        return Err(fault);
    }
    write_whole(sink, second)
}

/// Writes a line: how it begins, what ends it, and LF. After an error the sink has taken a prefix of it.
pub fn write_line<K: Sink>(sink: &mut K, head: &[u8], detail: &[u8]) -> Result<(), WriteFault>
    ensures ok { OnOk result (Took (K.takes sink.old).taken (K.takes sink.new).taken (line head.now detail.now)) }
    ensures err { OnErr result (TookPart (K.takes sink.old).taken (K.takes sink.new).taken
        (line head.now detail.now)) }
    ensures faults { (K.takes sink.new).faults ≡ faults_written (K.takes sink.old).faults result }
    ensures zeros { (K.takes sink.new).zeros ≡ zeros_written (K.takes sink.old).zeros result }
{
    if let Err(fault) = write_whole(sink, head) {
        return Err(fault);
    }
    write_two(sink, detail, b"\n")
}
