// Laws of the whole fetch: how often it asks the shared book, with which operations, and what of the answers it rests
// on.
#![tactic(auto)]

mod laws;
mod views;

pub use laws::{law_asks, law_own_ops};
pub use views::{law_shown, law_views};
