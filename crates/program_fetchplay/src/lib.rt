// The program's top call: words and streams in, a status out.
#![tactic(auto)]

mod complaint;
mod program;
mod words;

pub use program::{PlayStatus, fetchplay};
