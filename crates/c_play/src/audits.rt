// A printed play, audited.
ghost use Rattle.std.specs.Prelude.{◌≡◌, ◌≢◌};
ghost use Rattle.c_handle.specs.Codes.{IsKept};
ghost use Rattle.c_play.specs.Audits.{IsAudited, IsVerdictTold};
ghost use Rattle.program_playaudit.specs.Statuses.{verdict_line};

use crate::plays::refused;
use audit_verdict::{Verdict, audit};
use c_handle::{OUT_OF_MEMORY, write};
use program_playaudit::line_of;
use std::alloc::Global;
use value_bytes::OutOfMemory;

// Tells the line of a verdict.
fn told(verdict: &Verdict, line: &[u8], room: &mut [u8], len: &mut usize) -> u32
    requires { line.now ≡ verdict_line verdict.now }
    ensures told { IsVerdictTold verdict.now room.old room.new len.new result }
    ensures bound { result ≢ OUT_OF_MEMORY }
{
    match verdict {
        Verdict::Play => write(line, room, len),
        Verdict::Scenario(_)
        | Verdict::History(_)
        | Verdict::Illegal(_)
        | Verdict::Stranger(_)
        | Verdict::Calls(_)
        | Verdict::Text(_) => refused(line, room, len),
    }
}

/// Audits a text that claims to be the printed play of a scenario over its own servers, as `playaudit` does: which
/// history it holds, whether the book gives it, and whether each document's run makes just these calls and prints this
/// text. Both are bytes of any length. Writes the line of the verdict: `play`, or `not a play: ` with the verdict's
/// name and value.
///
/// `OK` where the text is a play of the scenario; `NO` where it is not, or the scenario is refused; `TOO_SHORT` where
/// `room` has less than `len` bytes for the line; `OUT_OF_MEMORY`. Except for `OK` and `NO` nothing is written to
/// `room`, and with `OUT_OF_MEMORY` nothing to `len`.
#[unsafe(no_mangle)]
pub extern "C" fn fiorrudda_audit(
    alloc: Global,
    scenario: &[u8],
    play: &[u8],
    room: &mut [u8],
    len: &mut usize,
) -> u32
    ensures told { result ≢ OUT_OF_MEMORY → IsAudited scenario.now play.now room.old room.new len.new result }
    ensures out_of_memory { result ≡ OUT_OF_MEMORY → IsKept room.old room.new len.old len.new }
{
    let verdict = match audit(alloc, scenario, play) {
        Ok(verdict) => verdict,
        Err(OutOfMemory) => return OUT_OF_MEMORY,
    };
    match line_of(alloc, &verdict) {
        Ok(line) => told(&verdict, line.as_slice(), room, len),
        Err(OutOfMemory) => OUT_OF_MEMORY,
    }
}
