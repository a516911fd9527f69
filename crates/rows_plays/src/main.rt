// Plays worked rows over streams and links in memory, and prints for each what it came to. A line of the input that
// begins with `#` is a title, which is printed as it is, and so is an empty line. The other lines are
//
//     a scenario, or some words, a tab and a scenario: it is played by the top call of `fetchplay`, or by those of
//     `cspreport` and `playaudit`. `inputs.rt` of `rows_links` says how it is written.
//     `url=URL ..`, a tab and what a request meets: it is fetched by itself. `requests.rt` of `rows_fetches` says how.
//     `{ .. }`, a tab and what a document meets: the lines of this kind up to an empty line are played over one book.
//     `documents.rt` of `rows_fetches` says how.
//     `net=TIME`, a tab and a scenario, and after it lines that begin with `link`, up to an empty line: it is played
//     by the top call with the word `net`. `net.rt` of `rows_runs` says how.
//     `program`, a tab and texts: a run of the server that answers by an allow table. `servers.rt` of `rows_runs` says
//     how.
//     a word of `access.rt` of `rows_fetches`, a tab and texts: such a server by itself, and documents that ask it.
//
// Before them it plays links and a connection over TCP, as `tcp.rt` says, and then documents on threads, over links
// that wait for each other: by the top call, as `gates.rt` of `rows_runs` says, and by `play_all` itself, as `seats.rt`
// of `rows_fetches` does. And it plays the same documents one after another, without threads.
#![tactic(auto)]

mod tcp;

use crate::tcp::play_tcp;
use rows_fetches::{
    kind_of, play_access, play_group, play_on_seats, play_request, play_two_in_turn,
};
use rows_runs::{play_gates, play_net, play_row, play_server};
use rows_shell::{Failed, Shown, is_title, print_text};
use std::io;
use std::process::ExitCode;
use std::sync::Wait;
use std::thread::Threads;
use value_text::before_byte;

// Plays the lines of a group.
fn play_together<R: Threads + Wait + Sync + AllocGlobal>(
    rt: &R,
    lines: &[&str],
    shown: &mut Shown,
) -> Result<(), Failed> {
    match lines {
        [first, rest @ ..] => match first.strip_prefix("net=") {
            Some(row) => play_net(rt, row, rest, shown),
            None => play_group(rt, lines, shown),
        },
        [] => Ok(()),
    }
}

// Whether a line is one of a group: the lines of the last two kinds, up to an empty line.
fn stands_together(line: &str) -> bool {
    line.starts_with("net=")
        || line.starts_with("link")
        || (line.starts_with('{') && line.contains('\t'))
}

// Plays a row of a server, or of another program.
fn play_program<R: Threads + Wait + Sync + AllocGlobal>(
    rt: &R,
    line: &str,
    shown: &mut Shown,
) -> Result<(), Failed> {
    if before_byte(line.as_bytes(), b'\t') == b"program".as_slice() {
        return play_server(rt.alloc(), line.as_bytes(), shown);
    }
    match kind_of(line.as_bytes()) {
        Ok(kind) => play_access(rt, kind, line.as_bytes(), shown),
        Err(_) => play_row(rt, line, shown),
    }
}

// Plays a line that is in no group.
fn play_alone<R: Threads + Wait + Sync + AllocGlobal>(
    rt: &R,
    line: &str,
    shown: &mut Shown,
) -> Result<(), Failed> {
    if is_title(line) {
        shown.add(line.as_bytes());
        shown.add(b"\n");
        Ok(())
    } else if line.starts_with("url=") {
        play_request(rt, line, shown)
    } else {
        play_program(rt, line, shown)
    }
}

// Plays a line by itself, after the group before it where the line is empty and so ends one.
fn play_end<R: Threads + Wait + Sync + AllocGlobal>(
    rt: &R,
    line: &str,
    together: &mut Vec<&str>,
    shown: &mut Shown,
) -> Result<(), Failed> {
    if line.is_empty() {
        play_together(rt, together.as_slice(), shown)?;
        together.clear();
    }
    play_alone(rt, line, shown)
}

// Prints what was played, unless that failed.
fn print_played<R: Print + AllocGlobal>(
    rt: &R,
    played: Result<(), Failed>,
    mut shown: Shown,
) -> Result<(), Failed> {
    if played.is_err() {
        shown.fail();
    }
    print_text(rt, shown)
}

// Puts a line into the group, or plays it, after the group where it is the empty line that ends one.
fn play_line<'a, R: Threads + Wait + Sync + Print + AllocGlobal>(
    rt: &R,
    line: &'a str,
    together: &mut Vec<&'a str>,
) -> Result<(), Failed> {
    if stands_together(line) {
        together.push(line)?;
        return Ok(());
    }
    let mut shown = Shown::new(rt.alloc());
    let played = play_end(rt, line, together, &mut shown);
    print_played(rt, played, shown)
}

// Plays the documents on threads, by both calls, and then one after another.
fn play_all<R: Threads + Wait + Sync + AllocGlobal>(
    rt: &R,
    shown: &mut Shown,
) -> Result<(), Failed> {
    play_gates(rt, shown)?;
    shown.add(b"\n");
    play_on_seats(rt, shown)?;
    shown.add(b"\n");
    play_two_in_turn(rt.alloc(), shown)
}

// Plays the documents by each of these calls.
fn play_threads<R: Threads + Wait + Sync + Print + AllocGlobal>(rt: &R) -> Result<(), Failed> {
    let mut shown = Shown::new(rt.alloc());
    let played = play_all(rt, &mut shown);
    print_played(rt, played, shown)
}

// Plays the lines. The last of them may be a group that no empty line ends.
fn play_lines<R: Threads + Wait + Sync + Print + AllocGlobal>(
    rt: &R,
    text: &str,
) -> Result<(), Failed> {
    let mut together = Vec::new(rt.alloc());
    for line in text.lines() {
        play_line(rt, line, &mut together)?;
    }
    let mut shown = Shown::new(rt.alloc());
    let played = play_together(rt, together.as_slice(), &mut shown);
    print_played(rt, played, shown)
}

fn run<R: Threads + Wait + Sync + Print + AllocGlobal>(
    rt: &R,
    net: HostRuntime,
    text: &str,
) -> Result<(), Failed> {
    play_network(rt, net)?;
    play_threads(rt)?;
    play_lines(rt, text)
}

// Plays what goes over TCP.
fn play_network<R: Threads + Wait + Print + AllocGlobal>(
    rt: &R,
    net: HostRuntime,
) -> Result<(), Failed> {
    let mut shown = Shown::new(rt.alloc());
    let played = play_tcp(rt, net, &mut shown);
    print_played(rt, played, shown)
}

fn main(rt: HostRuntime) -> ExitCode {
    let Ok(text) = io::read_to_string(rt.alloc(), rt.stdin()) else {
        return ExitCode::FAILURE;
    };
    match run(&rt, rt, text.as_str()) {
        Ok(()) => ExitCode::SUCCESS,
        Err(_) => ExitCode::FAILURE,
    }
}
