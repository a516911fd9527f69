// Source expressions of a content security policy: the one that a word is, whether it matches a URL, and lists of them.
#![tactic(auto)]

mod grammar;
mod list;
mod matching;
mod parse;
mod paths;
mod source;

pub use list::SourceList;
pub use matching::matches;
pub use parse::parse_source;
pub use source::{HostSource, Part, Source, SourcePort};
