// The history of a book, which grows by an entry for each operation that is done.
ghost use Rattle.std.specs.Prelude.{◌≡◌, ◌<◌, [], ◌∷◌, ◌++◌, length, slice_get, Some, OnOk, OnErr, IfOk};
ghost use Rattle.book_calls.specs.Book.{after, reply};
ghost use Rattle.book_calls.specs.Entries.{entry};
ghost use Rattle.book_calls.specs.Ops.{InRange};

use crate::book::Book;
use crate::entry::Entry;
use crate::op::{Op, Reply};
use std::alloc::Global;
use std::marker::Model;
use value_bytes::{OutOfMemory, Shared};

/// What was done on the book, seen as the list of its entries.
#[derive(Drop)]
pub struct History {
    entries: Vec<Entry>,
}

impl Model for History {
    ghost use Rattle.std.specs.Prelude.{List};
    ghost use Rattle.book_calls.specs.declared.entry.Entry.{Entry};

    ghost Value = { List Entry };

    ghost view = { λ history. history.entries.items };
}

impl History {
    /// The empty history. It takes no memory.
    pub fn new(alloc: Global) -> History
        ensures { result ≡ [] }
    {
        History {
            entries: Vec::new(alloc),
        }
    }

    /// Adds an entry at the end.
    pub fn push(&mut self, item: Entry) -> Result<(), OutOfMemory>
        ensures ok { OnOk result (self.new ≡ self.old ++ item ∷ []) }
        ensures err { OnErr result (self.new ≡ self.old) }
    {
        self.entries.push(item)?;
        Ok(())
    }

    /// How many entries there are.
    pub fn len(&self) -> usize
        ensures { result ≡ length self.now }
    {
        self.entries.len()
    }

    /// The entry at an index below the length.
    pub fn at(&self, index: usize) -> &Entry
        requires { index < length self.now }
        ensures { slice_get self.now index ≡ Some result.now }
    {
        &self.entries[index]
    }

    /// The entries, in order.
    pub fn as_slice(&self) -> &[Entry]
        ensures { result.now ≡ self.now }
    {
        self.entries.as_slice()
    }

    /// Does an operation that is in range on the book and keeps its entry. The room for the entry is
    /// taken first, so that a refused operation leaves book and history as they were.
    pub fn apply(
        &mut self,
        alloc: Global,
        book: &mut Book,
        turn: u64,
        document: u32,
        op: Shared<Op>,
    ) -> Result<Reply, OutOfMemory>
        requires { InRange op }
        ensures reply { IfOk result (λ answer. answer ≡ reply book.old op) }
        ensures book { OnOk result (book.new ≡ after book.old op) }
        ensures history { IfOk result (λ answer. self.new ≡ self.old ++ entry turn document op answer ∷ []) }
        ensures err { OnErr result ((self.new ≡ self.old) × (book.new ≡ book.old)) }
    {
        self.entries.reserve(1)?;
        let reply = book.apply(alloc, op.get())?;
        self.entries.push_reserved(Entry {
            turn,
            document,
            op,
            reply,
        });
        Ok(reply)
    }
}
