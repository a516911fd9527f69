// Laws of scenarios and plays on which fetchplay does not rest.
#![tactic(auto)]

mod laws;

pub use laws::{law_hidden, law_migrated, law_one_in_order, law_one_play, law_same_calls};
