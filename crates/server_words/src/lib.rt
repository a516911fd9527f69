// The words of the program that serves: an address, and how many connections are served.
#![tactic(auto)]

mod command;
mod words;

pub use words::{Task, task_of};
