// A document's run: what its script does, what it shows, and how it ends.
#![tactic(auto)]

mod running;
mod shown;

pub use running::{Running, fault_event, outcome_event};
pub use shown::Shown;
