// The outside: where bytes come from and where they go, with counts of its faults; links to servers, what makes them
// and by which routes; accepted connections, and clocks.
#![tactic(auto)]

mod accepts;
mod clock;
mod faults;
mod kept_asks;
mod link;
mod links;
mod memory_accepts;
mod memory_end;
mod memory_link;
mod memory_links;
mod memory_sink;
mod memory_source;
mod peer;
mod pieces;
mod routes;
mod sink;
mod source;
mod standard;
mod target;

pub use accepts::Accepts;
pub use clock::{Clock, FixedClock};
pub use faults::Faults;
pub use link::Link;
pub use links::Links;
pub use memory_accepts::MemoryAccepts;
pub use memory_end::MemoryEnd;
pub use memory_link::MemoryLink;
pub use memory_links::MemoryLinks;
pub use memory_sink::MemorySink;
pub use memory_source::MemorySource;
pub use peer::Peer;
pub use routes::{Route, Routes};
pub use sink::{Sink, WriteFault, write_whole};
pub use source::{Failed, ReadStop, Source, read_whole};
pub use standard::{
    ReaderSource, StandardError, StandardInput, StandardOutput, SystemClock, WriterSink,
};
pub use target::{Ask, Target};
