// What rows write of links, streams, peers, listeners and tables in memory, and what is shown of them: all that needs
// nothing that plays documents.
#![tactic(auto)]

mod accepts;
mod histories;
mod inputs;
mod links;
mod outputs;
mod serving;
mod slow;
mod streams;
mod tables;
mod waiting;

pub use accepts::accepts_in;
pub use histories::show_count;
pub use inputs::{check_words, in_pieces, input_in, program_words};
pub use links::{link_in, links_in, show_link, show_links};
pub use outputs::show_streams;
pub use serving::show_served;
pub use streams::{Streams, show_status, words_of};
pub use tables::{show_answer, show_table, table_in};
pub use waiting::{Asked, Manner, WaitingLink, WaitingLinks, waiting_for};
