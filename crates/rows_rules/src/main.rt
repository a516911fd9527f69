// Reads worked rows of the rules of a fetch, one a line, and prints each with what its call answers. A line that begins
// with `#` is a title, which is printed as it is, and so is an empty line. A row is a kind and its texts, with a tab
// between; `rows_shell`'s `row.rt` says how a text is written and `requests.rt` how a request is, and each file here
// which kinds it knows.
#![tactic(auto)]

mod checks;
mod cors;
mod headers;
mod lists;
mod loads;
mod origins;
mod ports;
mod requests;
mod responses;
mod sources;
mod texts;

use rows_shell::{Failed, Lines, Row, Shown, play};
use std::alloc::Global;
use std::process::ExitCode;

/// The table of the kinds of rows.
#[derive(Drop)]
struct Rules;

impl Lines for Rules {
    fn answer(&mut self, alloc: Global, line: &str, shown: &mut Shown) -> Result<(), Failed> {
        shown.add(line.as_bytes());
        shown.add(b" => ");
        let (kind, written) = line.split_once('\t').unwrap_or((line, ""));
        let row = Row::of(alloc, written.as_bytes(), b'\t')?;
        answer(alloc, kind, &row, shown)
    }
}

// What the row's call answers.
fn answer(alloc: Global, kind: &str, row: &Row, shown: &mut Shown) -> Result<(), Failed> {
    let is_known = texts::answer(kind, row, shown)
        || texts::parsed(alloc, kind, row, shown)?
        || lists::answer(alloc, kind, row, shown)?
        || requests::answer(alloc, kind, row, shown)?
        || origins::answer(alloc, kind, row, shown)?
        || ports::answer(kind, row, shown)
        || sources::answer(alloc, kind, row, shown)?
        || loads::answer(alloc, kind, row, shown)?;
    if is_known { Ok(()) } else { Err(Failed) }
}

fn main(rt: HostRuntime) -> ExitCode {
    match play(&rt, &mut Rules) {
        Ok(()) => ExitCode::SUCCESS,
        Err(_) => ExitCode::FAILURE,
    }
}
