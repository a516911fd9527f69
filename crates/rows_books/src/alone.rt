// Calls on a book that nobody shares: on the book itself, and by one pass.
ghost use Rattle.std.specs.Prelude.{◌≡◌, ◌<◌, length, OnOk};

use crate::books::reply;
use crate::ops::op_of;
use book_calls::{Book, Entry, History, Reply, Share, SoloBook, SoloPass};
use rows_shell::{Failed, Shown};
use std::alloc::Global;
use value_bytes::Shared;

/// Each operation on a book.
const CALLS: [&[u8]; 10] = [
    b"known 0 a.b.test",
    b"note 10 subdomains 0 b.test",
    b"known 9 a.b.test",
    b"known 10 a.b.test",
    b"covers k http://b.test/x other PUT - 0",
    b"learn k http://b.test/x other 5 PUT - 0",
    b"covers k http://b.test/x other PUT - 4",
    b"covers k http://b.test/x other PUT - 5",
    b"clear k http://b.test/x 4",
    b"covers k http://b.test/x other PUT - 4",
];

/// Whether a name under a host is known.
const KNOWN: &[u8] = b"known 9 a.b.test";

/// A field of the host.
const NOTE: &[u8] = b"note 10 subdomains 0 b.test";

// A reply as it is printed.
fn add_reply(reply: Reply, shown: &mut Shown) {
    shown.add(match reply {
        Reply::Yes => b"Yes\n".as_slice(),
        Reply::No => b"No\n",
        Reply::Done => b"Done\n",
    });
}

// Does an operation on a book, and shows the reply.
fn tell(alloc: Global, book: &mut Book, text: &[u8], shown: &mut Shown) {
    match reply(alloc, book, op_of(alloc, text)) {
        Ok(reply) => add_reply(reply, shown),
        Err(_) => shown.fail(),
    }
}

// A book that nobody shares, and each operation on it.
pub(crate) fn show_book(alloc: Global, shown: &mut Shown) {
    shown.add(b"# one book\n");
    let mut book = Book::new(alloc);
    for text in CALLS {
        tell(alloc, &mut book, text, shown);
    }
}

// The entries of a history.
pub(crate) fn show_entries(entries: &[Entry], shown: &mut Shown) {
    for entry in entries {
        shown.add(b"turn ");
        shown.add_number(entry.turn);
        shown.add_count(b" of document ", entry.document as usize);
        shown.add(b": ");
        add_reply(entry.reply, shown);
    }
}

// An entry more of a history.
fn lengthen(alloc: Global, history: &mut History) -> Result<(), Failed>
    ensures { OnOk result (0 < length history.new) }
{
    history.push(Entry {
        turn: 7,
        document: 1,
        op: Shared::new(alloc, op_of(alloc, KNOWN)?)?,
        reply: Reply::No,
    })?;
    Ok(())
}

// A history, and its last turn once more.
fn show_history(history: &History, shown: &mut Shown)
    requires { 0 < length history.now }
{
    shown.add_number(history.len() as u64);
    shown.add(b" entries\n");
    show_entries(history.as_slice(), shown);
    shown.add(b"the last has turn ");
    shown.add_number(history.at(history.len() - 1).turn);
    shown.add(b"\n");
}

// Two calls on a pass.
fn note_and_ask(alloc: Global, share: &SoloBook, pass: &mut SoloPass) -> Result<(), Failed>
    requires calls { pass.old.calls ≡ 0 }
    requires belongs { pass.old.behind ≡ share.now }
{
    share.call(alloc, pass, Shared::new(alloc, op_of(alloc, NOTE)?)?)?;
    share.call(alloc, pass, Shared::new(alloc, op_of(alloc, KNOWN)?)?)?;
    Ok(())
}

// The book and the history that a pass leaves.
fn left(alloc: Global, shown: &mut Shown) -> (Book, History) {
    let (share, mut pass) = SoloBook::new(alloc, Book::new(alloc));
    if note_and_ask(alloc, &share, &mut pass).is_err() {
        shown.fail();
    }
    share.close(pass)
}

// A book that one pass has for itself. The book is asked once more, and its history takes an entry more.
pub(crate) fn show_pass(alloc: Global, shown: &mut Shown) -> Result<(), Failed> {
    shown.add(b"# one pass\n");
    let (mut book, mut history) = left(alloc, shown);
    tell(alloc, &mut book, KNOWN, shown);
    lengthen(alloc, &mut history)?;
    show_history(&history, shown);
    shown.add_count(b"a new history has ", History::new(alloc).len());
    shown.add(b" entries\n");
    Ok(())
}
