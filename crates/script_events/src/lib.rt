// What a document's run shows: its events, and how it ended.
#![tactic(auto)]

mod events;

pub use events::{Ending, Event, Events, Transcript, Transcripts, has_text};
