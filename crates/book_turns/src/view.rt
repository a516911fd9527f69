// What a pass knows of the shared book, as only clauses read it.
use book_calls::{Book, Entry};
use std::collections::LinkedList;

/// What a pass knows. No value of it is made: contracts alone speak of it.
pub struct View {
    /// The pass hasn't been taken in by another pass.
    pub live: bool,
    pub document: u32,
    /// The book that the shared book was opened with.
    pub opening: Book,
    /// How many tickets the pass drew, one a call.
    pub draws: u64,
    /// The pass waits with this ticket, or has its turn.
    pub waits: bool,
    pub ticket: u64,
    /// The pass has its turn.
    pub served: bool,
    /// The pass has noted what its turn adds to the history: an entry, or nothing.
    pub noted: bool,
    pub item: LinkedList<Entry>,
    /// The entries of the pass's own calls.
    pub own: LinkedList<Entry>,
    /// The history up to its last turn.
    pub seen: LinkedList<Entry>,
    /// Of the first pass alone: the documents of the others, and the passes that have ended.
    pub made: LinkedList<u32>,
    pub ended: LinkedList<Ended>,
    /// The document that the next pass is to have.
    pub next: u32,
}

/// What the first pass keeps of one that has ended.
pub struct Ended {
    pub document: u32,
    pub draws: u64,
    pub own: LinkedList<Entry>,
    pub seen: LinkedList<Entry>,
}
