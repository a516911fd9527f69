// A share of the book that one pass has for itself, which keeps the book and its history.
ghost use Rattle.std.specs.Prelude.{◌≡◌, [], ◌++◌, length};
ghost use Rattle.book_calls.specs.Entries.{HasTurnsFrom, Legal, book_after};
ghost use Rattle.book_calls.specs.Solo.{AreOf};

use crate::book::Book;
use crate::history::History;
use crate::op::{Op, Reply};
use crate::share::Share;
use std::alloc::Global;
use std::marker::Model;
use std::snapshot::Snapshot;
use value_bytes::{OutOfMemory, Shared};

/// A share that one pass has for itself, seen as the entries that stood in the history when it was opened.
#[derive(Drop)]
pub struct SoloBook {
    behind: Snapshot<History>,
}

impl Model for SoloBook {
    ghost use Rattle.std.specs.Prelude.{List};
    ghost use Rattle.book_calls.specs.declared.entry.Entry.{Entry};

    ghost Value = { List Entry };

    ghost view = { λ share. share.behind.value };
}

/// The one pass of it, which keeps the book and its history.
#[derive(Drop)]
pub struct SoloPass {
    document: u32,
    book: Book,
    history: History,
    opening: Snapshot<Book>,
    behind: Snapshot<History>,
    calls: u64,
}

impl Model for SoloPass {
    ghost use Rattle.book_calls.specs.Private.Solo.{IsSolo, solo_of};
    ghost use Rattle.book_calls.specs.Solo.{Solo};

    ghost Value = { Solo };

    ghost view = { λ pass. solo_of pass.document pass.opening.value pass.behind.value pass.history pass.calls };

    ghost invariant = { λ pass. IsSolo pass.book pass.history
        (solo_of pass.document pass.opening.value pass.behind.value pass.history pass.calls) };
}

impl SoloBook {
    /// Opens a book to one pass for document 0, and a history. It takes no memory.
    pub fn new(alloc: Global, book: Book) -> (SoloBook, SoloPass)
        ensures share { result.0 ≡ [] }
        ensures pass { result.1 ≡ record { document = 0; opening = book; behind = []; entries = []; calls = 0 } }
    {
        SoloBook::resumed(book, History::new(alloc), 0)
    }

    /// Opens a book to one pass for this document, behind a history, in which the turn of entry i is i. It takes no
    /// memory.
    pub fn resumed(book: Book, history: History, document: u32) -> (SoloBook, SoloPass)
        requires { HasTurnsFrom 0 history }
        ensures share { result.0 ≡ history }
        ensures pass { result.1
            ≡ record { document = document; opening = book; behind = history; entries = []; calls = 0 } }
    {
        let share = SoloBook {
            behind: Snapshot::of(&history),
        };
        let pass = SoloPass {
            document,
            opening: Snapshot::of(&book),
            behind: Snapshot::of(&history),
            book,
            history,
            calls: 0,
        };
        (share, pass)
    }

    /// The book and its history, which has grown by the pass's entries. These are legal from the opening book, they are
    /// of the pass's document, and the turn of entry i of the history is i. It takes no memory.
    pub fn close(self, pass: SoloPass) -> (Book, History)
        ensures book { result.0 ≡ book_after pass.opening pass.entries }
        ensures grown { result.1 ≡ pass.behind ++ pass.entries }
        ensures legal { Legal pass.opening pass.entries }
        ensures of_document { AreOf pass.document pass.entries }
        ensures turns { HasTurnsFrom 0 result.1 }
    {
        let SoloPass {
            document: _,
            book,
            history,
            opening: _,
            behind: _,
            calls: _,
        } = pass;
        (book, history)
    }
}

impl Share for SoloBook {
    type Pass = SoloPass;

    ghost use Rattle.std.specs.Prelude.{◌≡◌};
    ghost use Rattle.book_calls.specs.Solo.{solo_account};

    ghost belongs = { λ share pass. pass.behind ≡ share };

    ghost account = { solo_account };

    fn call(
        &self,
        alloc: Global,
        pass: &mut SoloPass,
        op: Shared<Op>,
    ) -> Result<Reply, OutOfMemory> {
        let turn = pass.history.len() as u64;
        pass.calls += 1;
        pass.history
            .apply(alloc, &mut pass.book, turn, pass.document, op)
    }
}
