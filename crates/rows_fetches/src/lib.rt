// What rows play below the programs' top calls: documents, single requests and what a document sees of a server with an
// allow table, over links in memory and books of their own.
#![tactic(auto)]

mod access;
mod documents;
mod fetches;
mod in_turn;
mod inits;
mod requests;
mod scenarios;
mod seats;

pub use access::{AccessKind, kind_of, play_access};
pub use documents::play_group;
pub use in_turn::play_two_in_turn;
pub use requests::play_request;
pub use scenarios::{TWO_DOCUMENTS, scenario_in};
pub use seats::play_on_seats;
