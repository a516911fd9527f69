// Plays over links: how links are made for a play's documents and taken back, what their faults show, and what is left
// of a play that is refused. These are definitions.
#![tactic(auto)]

mod threads;

pub use threads::SCRIPTED_THREADS;
