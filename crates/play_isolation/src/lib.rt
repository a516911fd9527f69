// Isolation: in a play each document sends and sees what it would alone.
#![tactic(auto)]

mod laws;

pub use laws::{law_alone, law_apart, law_isolated, law_own_calls, law_two_worlds};
