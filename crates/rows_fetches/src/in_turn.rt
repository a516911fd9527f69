// Documents that are played one after another, without threads.
use crate::documents::show;
use crate::scenarios::{TWO_DOCUMENTS, scenario_in};
use play_serial::play_in_turn;
use rows_shell::{Failed, Shown};
use std::alloc::Global;

/// Plays the two documents of `TWO_DOCUMENTS` by the call that takes no runtime.
pub fn play_two_in_turn(alloc: Global, shown: &mut Shown) -> Result<(), Failed> {
    let scenario = scenario_in(alloc, TWO_DOCUMENTS)?;
    let played = play_in_turn(alloc, &scenario.value)?;
    show(alloc, &played.transcripts, &played.history, shown)
}
