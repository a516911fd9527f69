// A play of a scenario over its own servers, one document after another.
#![tactic(auto)]

mod in_turn;

pub use in_turn::{WithBook, play_in_turn, play_with_book};
