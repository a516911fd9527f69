// Content security policies: which of a document's policies a request or its response violates.
#![tactic(auto)]

mod check;
mod compile;
mod compiled;
mod directives;
mod laws;
mod listed;

pub use check::Violations;
pub use compiled::Compiled;
pub use laws::{law_empty_as_none, law_violated_alike};
