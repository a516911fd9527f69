// The printed text of a play, with the history of the shared book, and its summary.
#![tactic(auto)]

mod escape;
mod failure;
mod history;
mod lines;
mod page;
mod play;
mod summary;

pub use failure::Failure;
pub use lines::{add_event, add_number};
pub use page::Page;
pub use play::{write_entries, write_play, write_text};
pub use summary::write_summary;
