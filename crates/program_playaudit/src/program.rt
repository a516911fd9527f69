// The program, from its words to its status.
ghost use Rattle.std.specs.Prelude.{◌≡◌};
ghost use Rattle.program_playaudit.specs.Program.{Answers, IsDone, IsFound, IsWritten};
ghost use Rattle.program_playaudit.specs.Statuses as spec;
ghost use Rattle.program_shell.specs.Words.{texts};

use crate::complaint::tell;
use crate::line::line_of;
use audit_text::framed;
use audit_verdict::{Verdict, audit};
use link_traits::{Sink, Source, write_whole};
use program_shell::{Status, read_input};
use std::alloc::Global;
use value_bytes::OutOfMemory;

/// The longest input that is read, in bytes.
const MOST_INPUT: usize = 67_108_864;

/// What the program came to. A text that is no play is refused by its verdict. The program's own fault is that the
/// input is not framed.
pub type AuditStatus = Status<Verdict>;

/// The program, from its words to its status. It takes no words. The input is read whole: the decimal length of a
/// scenario of at most 4,194,304 bytes, an LF, the scenario, and a text that claims to be the printed play of it. The
/// text is audited, and the verdict is written to the output: `play`, or `not a play: ` with the verdict's name and
/// value. A status other than `Ok` and `Refused` is told by one line on the complaints; where that line cannot be
/// written the answer is `WriteFault`.
///
/// `Usage` exactly where there is a word, and then nothing is read or written. `Ok` exactly where the verdict is
/// `Play`, `Refused` where it is another one. `ReadFault` only where the input failed, `WriteFault` only where the
/// output or the complaints failed or took nothing. `InputTooLong` exactly where byte 67,108,865 was read, and
/// `OwnFault` exactly where the whole input is not framed so. `OutOfMemory` where memory was refused.
pub fn playaudit<S: Source, K: Sink, E: Sink>(
    alloc: Global,
    words: &[String],
    input: &mut S,
    output: &mut K,
    complaints: &mut E,
) -> AuditStatus
    ensures { Answers (texts words.now)
        (S.gives input.old) (S.gives input.new)
        (K.takes output.old) (K.takes output.new)
        (E.takes complaints.old) (E.takes complaints.new) result }
{
    let status = status(alloc, words, input, output);
    tell(status, complaints)
}

// The status by the words, the input and the output.
fn status<S: Source, K: Sink>(
    alloc: Global,
    words: &[String],
    input: &mut S,
    output: &mut K,
) -> AuditStatus
    ensures { IsFound (texts words.now)
        (S.gives input.old) (S.gives input.new)
        (K.takes output.old) (K.takes output.new) result }
{
    match words {
        [] => audit_input(alloc, input, output),
        [_, ..] => Status::Usage,
    }
}

// The status by the input and the output.
fn audit_input<S: Source, K: Sink>(alloc: Global, input: &mut S, output: &mut K) -> AuditStatus
    ensures { IsDone (S.gives input.old) (S.gives input.new)
        (K.takes output.old) (K.takes output.new) result }
{
    let text = match read_input(alloc, input, MOST_INPUT) {
        Err(status) => return status,
        Ok(text) => text,
    };
    let Some((scenario, play)) = framed(text.as_slice()) else {
        return Status::OwnFault;
    };
    match audit(alloc, scenario, play) {
        Err(OutOfMemory) => Status::OutOfMemory,
        Ok(verdict) => write_verdict(alloc, verdict, output),
    }
}

// What the program comes to by a verdict.
fn status_of(verdict: Verdict) -> AuditStatus
    ensures { result ≡ spec.status_of verdict }
{
    if matches!(verdict, Verdict::Play) {
        Status::Ok
    } else {
        Status::Refused(verdict)
    }
}

// Writes the line of a verdict.
fn write_verdict<K: Sink>(alloc: Global, verdict: Verdict, output: &mut K) -> AuditStatus
    ensures { IsWritten verdict (K.takes output.old) (K.takes output.new) result }
{
    let line = match line_of(alloc, &verdict) {
        Err(OutOfMemory) => return Status::OutOfMemory,
        Ok(line) => line,
    };
    match write_whole(output, line.as_slice()) {
        Ok(()) => status_of(verdict),
        Err(_) => Status::WriteFault,
    }
}
