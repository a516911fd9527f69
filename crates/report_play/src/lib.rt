// A play of a scenario over its own servers, with the reports of its documents.
#![tactic(auto)]

mod deliveries;
mod in_turn;
mod play;

pub use in_turn::report_in_turn;
pub use play::{Reported, play_reported};
