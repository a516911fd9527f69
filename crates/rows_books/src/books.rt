// Rows of operations on a book, as `ops.rt` writes them, but that a clear has no time and that there may be several
// hosts. A row comes to
//
//     learn, clear                  the key and its entries after it
//     covers, known                 whether it does, or whether each host is known
//     note, forget                  how many hosts there are after all of them
ghost use Rattle.std.specs.Prelude.{IfOk};
ghost use Rattle.book_calls.specs.Ops.{InRange};

use crate::ops::{Kind, first_host, op_in};
use book_calls::{Book, Op, Reply};
use book_preflights::{Allowed, CacheEntry};
use rows_shell::{Failed, Held, Row, Shown};
use std::alloc::Global;

// The reply of a book to an operation.
pub(crate) fn reply(alloc: Global, book: &mut Book, op: Result<Op, Failed>) -> Result<Reply, Failed>
    requires { IfOk op InRange }
{
    let op = Held { value: op? };
    Ok(book.apply(alloc, &op.value)?)
}

// What a row of this kind comes to on a book.
pub(crate) fn answer(
    alloc: Global,
    book: &mut Book,
    kind: Kind,
    words: &Row,
    shown: &mut Shown,
) -> Result<(), Failed> {
    let first = first_host(kind);
    for index in first..words.len() {
        let reply = reply(alloc, book, op_in(alloc, kind, words, index))?;
        show_reply(reply, index > first, shown);
    }
    show_after(book, kind, words.text(1), shown);
    Ok(())
}

// `yes` or `no` after a question, behind a space where it is not the first.
fn show_reply(reply: Reply, is_later: bool, shown: &mut Shown) {
    if reply == Reply::Done {
        return;
    }
    if is_later {
        shown.add(b" ");
    }
    shown.add_yes_or_no(reply == Reply::Yes);
}

// What is shown of a book after the operations of a row.
fn show_after(book: &Book, kind: Kind, key: &[u8], shown: &mut Shown) {
    match kind {
        Kind::Learn | Kind::Clear => show_entries(book, key, shown),
        Kind::Note | Kind::Forget => shown.add_number(book.hosts().len() as u64),
        Kind::Covers | Kind::Known => {}
    }
}

// A key and its entries, in order.
fn show_entries(book: &Book, key: &[u8], shown: &mut Shown) {
    shown.add(key);
    for entry in book.cache().entries_of(key) {
        show_entry(entry, shown);
    }
}

// What an entry is.
fn show_entry(entry: &CacheEntry, shown: &mut Shown) {
    shown.add(b" ");
    shown.add(entry.url.as_slice());
    shown.add(b",");
    shown.add(match &entry.allowed {
        Allowed::Method(method) => method.as_slice(),
        Allowed::HeaderName(name) => name.as_slice(),
    });
    shown.add(b",");
    shown.add_number(entry.made);
    shown.add(b"+");
    shown.add_number(entry.age);
    if entry.include {
        shown.add(b",include");
    }
}
