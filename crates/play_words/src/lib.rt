// Laws of what is printed of a play: each call has words that can be read back, each line is one, and how many calls
// there are at most.
#![tactic(auto)]

mod laws;

pub use laws::{law_few_calls, law_own_words};
