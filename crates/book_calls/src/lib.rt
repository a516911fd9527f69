// The book that all documents share: its operations, their history, and what a share of it promises.
#![tactic(auto)]

mod book;
mod entry;
mod history;
mod laws;
mod op;
mod share;
mod solo;

pub use book::Book;
pub use entry::Entry;
pub use history::History;
pub use laws::{law_grown, law_own, law_past, law_pasts};
pub use op::{Op, Reply};
pub use share::Share;
pub use solo::{SoloBook, SoloPass};
