// The program: it makes the real streams and the listener, calls the top call, and ends with its status.
#![tactic(auto)]

use link_tcp::TcpAccepts;
use link_traits::{StandardError, StandardInput, StandardOutput};
use program_corsserve::corsserve;
use std::env;
use std::process::ExitCode;
use std::rt::Env;

// The words after the program's name. Where they cannot be had there are none, which is the usage
// error.
fn words<R: Env + AllocGlobal>(rt: &R) -> Vec<String> {
    match env::args(rt) {
        Ok(args) => args
            .skip(1)
            .collect(rt.alloc())
            .unwrap_or(Vec::new(rt.alloc())),
        Err(_) => Vec::new(rt.alloc()),
    }
}

fn main(rt: HostRuntime) -> ExitCode {
    let words = words(&rt);
    let mut input = StandardInput::new(rt.stdin());
    let mut output = StandardOutput::new(rt.stdout());
    let mut complaints = StandardError::new(rt.stderr());
    let mut accepts = TcpAccepts::new(&rt);
    let status = corsserve(
        rt.alloc(),
        words.as_slice(),
        &mut input,
        &mut output,
        &mut complaints,
        &mut accepts,
    );
    ExitCode::from(status.number())
}
