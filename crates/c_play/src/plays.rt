// A scenario, played and printed.
ghost use Rattle.std.specs.Prelude.{◌≡◌, ◌≢◌, IfOk};
ghost use Rattle.c_handle.specs.Codes.{IsKept};
ghost use Rattle.c_play.specs.Plays.{IsRefusedAt, IsTextInOrder, IsTold};
ghost use Rattle.script_reading.specs.Scenarios.{scenario_of};
ghost use Rattle.script_scenarios.specs.Valid.{IsValid};

use crate::page::GrowingText;
use c_handle::{NO, OK, OUT_OF_MEMORY, write};
use play_serial::play_in_turn;
use play_text::write_play;
use script_reading::read_scenario;
use script_scenarios::Scenario;
use std::alloc::Global;
use value_bytes::OutOfMemory;

// The text of a play of the scenario.
fn printed(alloc: Global, scenario: &Scenario) -> Result<GrowingText, OutOfMemory>
    requires { IsValid scenario.now }
    ensures { IfOk result (λ text. IsTextInOrder scenario.entry.now text.bytes.items) }
{
    let played = play_in_turn(alloc, scenario)?;
    let mut text = GrowingText::new(alloc);
    match write_play(alloc, &played.transcripts, &played.history, &mut text) {
        Ok(()) => Ok(text),
        Err(_) => Err(OutOfMemory),
    }
}

// Tells a text by which something is refused.
pub(crate) fn refused(place: &[u8], room: &mut [u8], len: &mut usize) -> u32
    ensures told { IsRefusedAt place.now room.old room.new len.new result }
    ensures bound { result ≢ OUT_OF_MEMORY }
{
    match write(place, room, len) {
        OK => NO,
        short => short,
    }
}

/// Plays a scenario over its own servers, from its own time on: its documents one after another, over one book, with no
/// thread. Writes the text of that play, as `fetchplay play` writes one. The scenario is the bytes of its JSON, of any
/// length. A call with too little room plays too, and the next call plays again.
///
/// `OK`; `NO` where the scenario is refused, and then `room` has the place: `json`, or the way from the root to the
/// value, as `/documents/0/url`; `TOO_SHORT` where `room` has less than `len` bytes for either; `OUT_OF_MEMORY`. Except
/// for `OK` and `NO` nothing is written to `room`, and with `OUT_OF_MEMORY` nothing to `len`.
#[unsafe(no_mangle)]
pub extern "C" fn fiorrudda_play(
    alloc: Global,
    scenario: &[u8],
    room: &mut [u8],
    len: &mut usize,
) -> u32
    ensures told { result ≢ OUT_OF_MEMORY
        → IsTold IsTextInOrder (scenario_of scenario.now) room.old room.new len.new result }
    ensures out_of_memory { result ≡ OUT_OF_MEMORY → IsKept room.old room.new len.old len.new }
{
    let scenario = match read_scenario(alloc, scenario) {
        Ok(Ok(scenario)) => scenario,
        Ok(Err(place)) => return refused(place.text.as_slice(), room, len),
        Err(OutOfMemory) => return OUT_OF_MEMORY,
    };
    match printed(alloc, &scenario) {
        Ok(text) => write(text.as_slice(), room, len),
        Err(OutOfMemory) => OUT_OF_MEMORY,
    }
}
