// A CORS server's top call: words, a table and connections in, a status out.
#![tactic(auto)]

mod complaint;
mod connections;
mod program;

pub use program::{ServeStatus, corsserve};
