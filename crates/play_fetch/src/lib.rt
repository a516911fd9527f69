// A fetch, played over a link and a share of the book: by itself, and inside a document's run.
#![tactic(auto)]

mod act;
mod fetch;
mod held;

pub use fetch::{OverLink, drive_fetch};
