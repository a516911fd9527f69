// Rows of the wire: what answers in pieces, requests, links in memory and failing devices come to. `wire.rt` says how a
// row is written.
#![tactic(auto)]

mod answer;
mod cut;
mod device;
mod link;
mod reading;
mod request;
mod wire;

pub use wire::show_row;
