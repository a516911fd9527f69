// The text of a play, compared with another text.
ghost use Rattle.std.specs.Prelude.{IfOk};
ghost use Rattle.play_text.specs.Text.{play_text};
ghost use Rattle.script_events.specs.Endings.{HasText};
ghost use Rattle.audit_replay.specs.Differences.{AreCompared};

use crate::comparing::Comparing;
use book_calls::History;
use play_text::{Failure, write_play};
use script_events::Transcripts;
use std::alloc::Global;
use value_bytes::OutOfMemory;

/// Where the text of a play differs from another text: the first offset at which they have another byte, or at which
/// one of them ends and the other does not. `None` exactly where they are equal. The text of the play is not built
/// whole.
pub fn differs_from(
    alloc: Global,
    transcripts: &Transcripts,
    history: &History,
    text: &[u8],
) -> Result<Option<u64>, OutOfMemory>
    requires { HasText transcripts.now }
    ensures { IfOk result (AreCompared (play_text transcripts.now history.now) text.now) }
{
    let mut sink = Comparing::with(text);
    match write_play(alloc, transcripts, history, &mut sink) {
        Err(Failure::OutOfMemory) => Err(OutOfMemory),
        Ok(()) => Ok(sink.difference()),
        Err(Failure::Fault) => Ok(sink.difference()),
        Err(Failure::TookNothing) => Ok(sink.difference()),
    }
}
