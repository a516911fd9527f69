// Does some work in so many rounds, for the scripts of bench/, and prints the words and what it counted:
//
//     bench precache KEYS ROUNDS
//     bench hsts HOSTS ROUNDS
//     bench http1 KIND PIECE ROUNDS
//     bench turn THREADS PASSES CALLS
//     bench csp POLICIES WORDS PATH ROUNDS
//     bench filter CALL NAMES HEADERS ROUNDS
//     bench all
//
// The last does a little of each of the others.
#![tactic(auto)]

mod caches;
mod heads;
mod hosts;
mod lessons;
mod policies;
mod readers;
mod turns;
mod words;

use crate::words::words_of;
use rows_shell::{Failed, Row, Shown, named, print_text};
use std::alloc::Global;
use std::env;
use std::process::ExitCode;
use std::rt::Env;
use std::sync::Wait;
use std::thread::Threads;

/// The kinds of work.
#[derive(Clone, Copy)]
enum Work {
    Precache,
    Hsts,
    Http1,
    Turn,
    Csp,
    Filter,
}

/// Their names.
const WORKS: [(&[u8], Work); 6] = [
    (b"precache", Work::Precache),
    (b"hsts", Work::Hsts),
    (b"http1", Work::Http1),
    (b"turn", Work::Turn),
    (b"csp", Work::Csp),
    (b"filter", Work::Filter),
];

/// A little of each.
const ALL: [&[u8]; 6] = [
    b"precache 3 5 ",
    b"hsts 64 2 ",
    b"http1 chunked 1460 2 ",
    b"turn 2 3 9 ",
    b"csp 16 20 0 3 ",
    b"filter filtered * 16 3 ",
];

// What the work counts that the words name.
fn counted<R: AllocGlobal + Threads + Wait + Sync>(rt: &R, words: &Row) -> Result<u64, Failed> {
    let alloc = rt.alloc();
    match named(&WORKS, words.text(0))? {
        Work::Precache => caches::covered(alloc, words),
        Work::Hsts => hosts::known(alloc, words),
        Work::Http1 => readers::total(alloc, words),
        Work::Turn => turns::answered(rt, alloc, words),
        Work::Csp => policies::violations(alloc, words),
        Work::Filter => heads::kept(alloc, words),
    }
}

// Does the work that the words of a text name, and prints them and what it counted.
fn show<R: Print + AllocGlobal + Threads + Wait + Sync>(rt: &R, text: &[u8]) -> Result<(), Failed> {
    let mut shown = Shown::new(rt.alloc());
    shown.add(text);
    shown.add_number(counted(rt, &Row::of(rt.alloc(), text, b' ')?)?);
    shown.add(b"\n");
    print_text(rt, shown)
}

// Does the work of each text.
fn show_each<R: Print + AllocGlobal + Threads + Wait + Sync>(
    rt: &R,
    texts: &[&[u8]],
) -> Result<(), Failed> {
    for text in texts {
        show(rt, text)?;
    }
    Ok(())
}

fn run<R: Env + Print + AllocGlobal + Threads + Wait + Sync>(rt: &R) -> Result<(), Failed> {
    let words = env::args(rt)?.skip(1).collect::<Vec<String>>(rt.alloc())?;
    let text = words_of(rt.alloc(), words.as_slice())?;
    if text.as_slice() == b"all ".as_slice() {
        show_each(rt, &ALL)
    } else {
        show(rt, text.as_slice())
    }
}

fn main(rt: HostRuntime) -> ExitCode {
    match run(&rt) {
        Ok(()) => ExitCode::SUCCESS,
        Err(_) => ExitCode::FAILURE,
    }
}
