// Scripts of documents, read from a JSON tree.
#![tactic(auto)]

mod commands;
mod conditions;
mod fetches;
mod loads;
mod script;
mod texts;

pub use script::DocumentScript;
