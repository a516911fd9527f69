// The shell of a program that reads an input and writes an output: what it comes to, its input, and its complaints.
#![tactic(auto)]

mod complaint;
mod input;
mod status;
mod writing;

pub use complaint::{complain, told};
pub use input::{read_as, read_input};
pub use status::{Status, status_of};
pub use writing::write_line;
