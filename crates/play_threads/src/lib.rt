// The documents of a scenario on threads, by whoever plays one, each on its own seat.
#![tactic(auto)]

mod seating;
mod threads;

pub use threads::play_all;
