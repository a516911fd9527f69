// Reads rows of the wire (`wire.rt` of `rows_wire`) and of operations on a book (`books.rt`), one a line of the input,
// and prints what each comes to. Then it makes calls on a book: on one that nobody shares, by one pass, by two passes
// and by two threads. Prints what they come to, and the histories. A line that begins with `#` is a title, which is
// printed as it is, and so is an empty line.
#![tactic(auto)]

mod alone;
mod books;
mod ops;
mod passes;
mod questions;
mod threads;
mod turns;

use crate::ops::KINDS;
use book_calls::Book;
use rows_shell::{Failed, Lines, Row, Shown, named, play, print_text};
use rows_wire::show_row;
use std::alloc::Global;
use std::process::ExitCode;
use std::sync::Wait;
use std::thread::Threads;

/// The rows, and the book of the operations.
#[derive(Drop)]
struct Rows {
    book: Book,
}

impl Lines for Rows {
    fn answer(&mut self, alloc: Global, line: &str, shown: &mut Shown) -> Result<(), Failed> {
        let words = Row::of(alloc, line.as_bytes(), b' ')?;
        match named(&KINDS, words.text(0)) {
            Ok(kind) => books::answer(alloc, &mut self.book, kind, &words, shown),
            Err(_) => show_row(alloc, line.as_bytes(), shown),
        }
    }
}

// Each part with calls on a book, printed where it has come to its end.
fn play_calls<R: Threads + Wait + Sync + Print + AllocGlobal>(rt: &R) -> Result<(), Failed> {
    let alloc = rt.alloc();
    let mut shown = Shown::new(alloc);
    alone::show_book(alloc, &mut shown);
    alone::show_pass(alloc, &mut shown)?;
    turns::show_passes(rt, alloc, &mut shown)?;
    threads::show_threads(rt, alloc, &mut shown)?;
    print_text(rt, shown)
}

fn run<R: Threads + Wait + Sync + Input + Print + AllocGlobal>(rt: &R) -> Result<(), Failed> {
    let book = Book::new(rt.alloc());
    play(rt, &mut Rows { book })?;
    play_calls(rt)
}

fn main(rt: HostRuntime) -> ExitCode {
    match run(&rt) {
        Ok(()) => ExitCode::SUCCESS,
        Err(_) => ExitCode::FAILURE,
    }
}
