// A book as a text: written, and read back.
#![tactic(auto)]

mod fields;
mod laws;
mod lines;
mod read;
mod refusal;
mod write;

pub use laws::law_read_written;
pub use read::book_of;
pub use refusal::{ReadError, Reason, Refusal};
pub use write::text_of;
