// A document, played over a link and a share of the book: its script, by whoever plays fetches.
#![tactic(auto)]

mod asking;
mod commands;
mod document;

pub use document::ByFetches;
