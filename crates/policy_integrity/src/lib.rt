// Subresource integrity: the metadata of an integrity text, and whether a body matches it.
#![tactic(auto)]

mod matching;
mod metadata;
mod parse;

pub use matching::matches;
pub use metadata::{HashExpression, Metadata};
pub use parse::parse_metadata;
