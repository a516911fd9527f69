// A document's calls of the shared book, to which a given history replies in place of a book.
ghost use Rattle.std.specs.Prelude.{◌≡◌, ◌≢◌, ◌==◌, ◌+◌, ◌<◌, [], drop, length, position, slice_get, Some};
ghost use Rattle.std.specs.Prelude.{IfOk, MatchBool, MatchOption, OnErr};
ghost use Rattle.book_calls.specs.Entries.{entries_of};
ghost use Rattle.audit_replay.specs.Legality.{AreRight};
ghost use Rattle.audit_replay.specs.Private.Calls as calls;
ghost use Rattle.audit_replay.specs.Tapes as spec;

use crate::ops::same_op;
use crate::stray::stray_reply;
use book_calls::{Book, Entry, Op, Reply, Share};
use std::alloc::Global;
use std::marker::Model;
use std::snapshot::Snapshot;
use value_bytes::{OutOfMemory, Shared};

/// A share that replies to each call of a document by the document's next entry of a given history. It calls no book.
#[derive(Drop)]
pub struct TapeShare<'a> {
    history: &'a [Entry],
}

impl<'a> TapeShare<'a> {
    /// A share over this history.
    pub fn new(history: &'a [Entry]) -> TapeShare<'a>
        ensures { result.history.now ≡ history.now }
    {
        TapeShare { history }
    }
}

/// A document's pass of it: how far the history was passed.
///
/// A call that is not that of the document's next entry is a stray, as is each call after it. A stray is replied to as
/// some book would, so that a run goes on to its end; whether there was one, `is_used_up` tells.
#[derive(Drop)]
pub struct TapePass<'a> {
    document: u32,
    history: &'a [Entry],
    opening: &'a Snapshot<Book>,
    at: usize,
    strays: Vec<Shared<Op>>,
    calls: u64,
}

impl<'a> Model for TapePass<'a> {
    ghost use Rattle.audit_replay.specs.Tapes.{IsTape, Tape};

    ghost Value = { Tape };

    ghost view = { λ pass. record {
      document = pass.document;
      opening = pass.opening.now.value;
      history = pass.history.now;
      at = pass.at;
      strays = pass.strays.items;
      calls = pass.calls;
    } };

    ghost invariant = { λ pass. IsTape (record {
      document = pass.document;
      opening = pass.opening.now.value;
      history = pass.history.now;
      at = pass.at;
      strays = pass.strays.items;
      calls = pass.calls;
    }) };
}

// Where the first entry of a document is.
fn next_of(document: u32, entries: &[Entry]) -> Option<usize>
    ensures { result ≡ position (λ entry. entry.document == document) entries.now }
{
    entries.iter().position(|entry| entry.document == document)
}

// The entry at an index.
fn entry_in(entries: &[Entry], index: usize) -> &Entry
    requires { index < length entries.now }
    ensures { slice_get entries.now index ≡ Some result.now }
{
    &entries[index]
}

impl<'a> TapePass<'a> {
    /// The pass of a document, over a history that the opening book gives. It takes no memory.
    pub fn new(
        alloc: Global,
        document: u32,
        history: &'a [Entry],
        opening: &'a Snapshot<Book>,
    ) -> TapePass<'a>
        requires { AreRight opening.now.value 0 history.now }
        ensures { result ≡ record {
          document = document;
          opening = opening.now.value;
          history = history.now;
          at = 0;
          strays = [];
          calls = 0;
        } }
    {
        TapePass {
            document,
            history,
            opening,
            at: 0,
            strays: Vec::new(alloc),
            calls: 0,
        }
    }

    // Where the document's next entry is, among all entries.
    fn next(&self) -> Option<usize>
        ensures { MatchOption result (entries_of self.now.document (drop self.now.at self.now.history) ≡ [])
            (calls.IsNext self.now) }
    {
        let index = next_of(self.document, self.history.split_at(self.at).1)?;
        Some(self.at + index)
    }

    // Whether no call was a stray.
    fn is_on_tape(&self) -> bool
        ensures tape { spec.IsTape self.now }
        ensures on { MatchBool result (self.now.strays ≡ []) (self.now.strays ≢ []) }
    {
        self.strays.as_slice().is_empty()
    }

    // The entry at an index.
    fn entry_at(&self, index: usize) -> &Entry
        requires { index < length self.now.history }
        ensures { slice_get self.now.history index ≡ Some result.now }
    {
        entry_in(self.history, index)
    }

    /// Whether the calls that were made are the document's entries of the history.
    pub fn is_used_up(&self) -> bool
        ensures tape { spec.IsTape self.now }
        ensures used { MatchBool result (spec.IsUsedUp self.now) (¬ (spec.IsUsedUp self.now)) }
    {
        if !self.is_on_tape() {
            return false;
        }
        match self.next() {
            None => true,
            Some(_) => false,
        }
    }

    // A call more is made.
    fn count(&mut self)
        requires { self.old.calls < 4294967295 }
        ensures tape { spec.IsTape self.new }
        ensures counted { self.new ≡ record self.old { calls = self.old.calls + 1 } }
    {
        self.calls += 1;
    }

    // The reply of the next entry, where that is of this op. The entry is passed then.
    fn replied(&mut self, op: &Op) -> Option<Reply>
        requires { spec.IsTape self.old }
        ensures { MatchOption result ((self.new ≡ self.old) × calls.IsNone self.old op.now)
            (λ reply. calls.IsPassed self.old op.now reply self.new) }
    {
        if !self.is_on_tape() {
            return None;
        }
        let index = self.next()?;
        let entry = self.entry_at(index);
        if !same_op(entry.op.get(), op) {
            return None;
        }
        let reply = entry.reply;
        self.at = index + 1;
        Some(reply)
    }

    // The call is a stray.
    fn stray(&mut self, op: Shared<Op>) -> Result<Reply, OutOfMemory>
        requires { calls.IsNone self.old op }
        ensures ok { IfOk result (λ reply. calls.IsStrayed self.old op reply self.new) }
        ensures err { OnErr result (self.new ≡ self.old) }
    {
        let reply = stray_reply(op.get());
        self.strays.push(op)?;
        Ok(reply)
    }
}

impl<'a> Share for TapeShare<'a> {
    type Pass = TapePass<'a>;

    // A pass is over the share's history.
    ghost belongs = { λ share pass. pass.history ≡ share.history.now };

    ghost account = { spec.account_of };

    fn call(
        &self,
        _alloc: Global,
        pass: &mut TapePass<'a>,
        op: Shared<Op>,
    ) -> Result<Reply, OutOfMemory> {
        pass.count();
        match pass.replied(op.get()) {
            Some(reply) => Ok(reply),
            None => pass.stray(op),
        }
    }
}
