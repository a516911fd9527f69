// The texts of an audit: the frame of its input, and the history that the text of a play holds, read back.
#![tactic(auto)]

mod calls;
mod entry;
mod frame;
mod history;
mod laws;
mod lists;
mod tail;
mod words;

pub use entry::read_entry;
pub use frame::{MOST_SCENARIO, framed};
pub use history::{Reading, read_history};
pub use laws::{law_one_reading, law_printed};
