// Plays: the documents of a scenario on threads over one shared book, each over its own link.
#![tactic(auto)]

mod play;

pub use play::{play_over, play_scripted};
