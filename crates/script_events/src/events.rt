// What a document's run shows, and how it ended.
ghost use Rattle.std.specs.Prelude.{◌↔◌, IsTrue};
ghost use Rattle.script_events.specs.Endings as spec;

use book_calls::{Op, Reply};
use value_bytes::{Boxed, Bytes, Items, Shared};
use value_requests::{Destination, Hop, NetError, Outcome, TypeFault, Violation};

/// One thing that a document's run shows.
#[derive(Drop)]
pub enum Event {
    /// The fetch of that number starts.
    Fetch(u32),
    /// The load of that number starts.
    Load(u32, Destination),
    /// An operation was done on the shared book, and replied.
    Call(Shared<Op>, Reply),
    /// A request was sent.
    Sent(Boxed<Hop>),
    /// A policy was violated.
    Told(Boxed<Violation>),
    /// What a fetch came to, or a load that succeeded.
    Result(Boxed<Outcome>),
    /// The network error of a load.
    LoadFailed(NetError),
    /// A fetch of which no request was made.
    TypeError(TypeFault),
    /// A load of which no request was made.
    LoadError(TypeFault),
}

/// The events of a document's run, in order.
pub type Events = Items<Event>;

/// How a document's run ended.
#[derive(Clone, Copy, Debug, PartialEq, Eq)]
pub enum Ending {
    /// After its last command.
    Finished,
    /// Before a fetch or load, since 1,024 of them had started.
    Fetches,
    /// Before a command, since 16,384 of them had started.
    Commands,
    /// Before a fetch or load, since its lines were longer than 8,388,608 bytes.
    Text,
    /// Memory was refused.
    Memory,
}

/// The run of one document: its number and key, its events, how it ended, and its clock then.
#[derive(Drop)]
pub struct Transcript {
    pub document: u32,
    pub key: Bytes,
    pub events: Events,
    pub ending: Ending,
    pub clock: u64,
}

/// The runs of the documents, in order.
pub type Transcripts = Items<Transcript>;

/// Whether the play has a text: no document ended for want of memory.
pub fn has_text(transcripts: &Transcripts) -> bool
    ensures { IsTrue result ↔ spec.HasText transcripts.now }
{
    transcripts
        .as_slice()
        .iter()
        .all(|transcript| transcript.ending != Ending::Memory)
}
