// Runs of the programs' top calls over streams, links and listeners in memory, as rows write them, and what is shown
// of them.
#![tactic(auto)]

mod gates;
mod net;
mod reports;
mod rows;
mod runs;
mod servers;

pub use gates::play_gates;
pub use net::play_net;
pub use rows::play_row;
pub use servers::play_server;
