// The program: it makes the real streams, calls the top call, and ends with its status.
#![tactic(auto)]

use link_traits::{StandardError, StandardInput, StandardOutput};
use program_playaudit::playaudit;
use std::env;
use std::process::ExitCode;
use std::rt::Env;

// The words after the program's name, where they can be had: one that is no UTF-8 cannot.
fn words<R: Env + AllocGlobal>(rt: &R) -> Option<Vec<String>> {
    env::args(rt).ok()?.skip(1).collect(rt.alloc()).ok()
}

fn main(rt: HostRuntime) -> ExitCode {
    // No words are accepted here. Words that cannot be had are the usage error, as an empty one is.
    let words = words(&rt);
    let faulty = [String::new(rt.alloc())];
    let words = match &words {
        Some(words) => words.as_slice(),
        None => faulty.as_slice(),
    };
    let mut input = StandardInput::new(rt.stdin());
    let mut output = StandardOutput::new(rt.stdout());
    let mut complaints = StandardError::new(rt.stderr());
    let status = playaudit(rt.alloc(), words, &mut input, &mut output, &mut complaints);
    ExitCode::from(status.number())
}
