// A book that threads share: each call on it has its turn, and all calls are one history.
#![tactic(auto)]

mod book;
mod close;
mod desk;
mod laws;
mod pass;
mod steps;
mod turn;
mod view;

pub use book::{TurnBook, TurnShare};
pub use close::Closed;
pub use desk::Desk;
pub use laws::{law_turns, law_whole};
pub use pass::{FIRST, TurnPass};
pub use view::{Ended, View};
