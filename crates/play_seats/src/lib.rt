// The seats of a play's documents: the book that it opens with, a pass of it and a link for each document. And the
// links to a scenario's scripted servers.
#![tactic(auto)]

mod book;
mod laws;
mod opening;
mod passes;
mod request;
mod seats;
mod sim_link;
mod sim_links;

pub use book::opened;
pub use laws::law_answers_by_parts;
pub use opening::{OpenPlay, open_play};
pub use passes::passes_of;
pub use seats::{seat_all, unseat};
pub use sim_link::SimLink;
pub use sim_links::SimLinks;
