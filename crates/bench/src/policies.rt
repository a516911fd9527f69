// Content security policies: how long it takes to check a request against many words.
ghost use Rattle.value_requests.specs.Requests.{IsRequest};

use crate::words::count_in;
use policy_csp::Compiled;
use policy_csp_text::{Policies, parse_policies};
use rows_shell::{Failed, Row, Shown, request_of};
use std::alloc::Global;
use value_bytes::Bytes;
use value_requests::Request;

// A path of so many bytes.
fn path_of(alloc: Global, length: u32) -> Result<Bytes, Failed> {
    let mut path = Shown::new(alloc);
    if length > 0 {
        path.add(b"/");
    }
    for _ in 1..length {
        path.add(b"x");
    }
    path.into_bytes()
}

// Adds the host of a number and a path.
fn add_host(text: &mut Shown, number: u32, path: &[u8]) {
    text.add(b"host-");
    text.add_number(u64::from(number));
    text.add(b".example.test");
    text.add(path);
}

// Adds a directive of so many hosts with this path.
fn add_directive(text: &mut Shown, hosts: u32, path: &[u8]) {
    text.add(b"connect-src");
    for number in 0..hosts {
        text.add(b" ");
        add_host(text, number, path);
    }
    text.add(b", ");
}

// The value of a header with so many policies, each of so many hosts with this path.
fn value_of(alloc: Global, policies: u32, hosts: u32, path: &[u8]) -> Result<Bytes, Failed> {
    let mut value = Shown::new(alloc);
    for _ in 0..policies {
        add_directive(&mut value, hosts, path);
    }
    value.into_bytes()
}

// The policies, compiled, unless there are too many of them.
fn compiled(alloc: Global, policies: &Policies) -> Result<Compiled, Failed> {
    if policies.len() >= 4_294_967_296 {
        return Err(Failed);
    }
    Ok(Compiled::of(alloc, policies)?)
}

// So many policies, each of so many hosts with this path.
fn made(alloc: Global, policies: u32, hosts: u32, path: &[u8]) -> Result<Compiled, Failed> {
    let value = value_of(alloc, policies, hosts, path)?;
    compiled(alloc, &parse_policies(alloc, value.as_slice(), true)?)
}

// The words of a request of https://a.test for a URL of the last host with this path.
fn request_words(alloc: Global, hosts: u32, path: &[u8]) -> Result<Bytes, Failed> {
    let mut words = Shown::new(alloc);
    words.add(b"from=https://a.test/ url=https://");
    let path = if path.is_empty() { b"/x" } else { path };
    add_host(&mut words, hosts.saturating_sub(1), path);
    words.into_bytes()
}

// How many violations so many checks of the request give.
fn checked(
    alloc: Global,
    compiled: &Compiled,
    request: &Request,
    rounds: u32,
) -> Result<u64, Failed>
    requires { IsRequest request.now }
{
    let mut violations = 0u64;
    for _ in 0..rounds {
        let found = compiled.check_request(alloc, request, &request.origin, true)?;
        violations = violations.saturating_add(found.len() as u64);
    }
    Ok(violations)
}

/// Makes so many policies of so many host words, each ending in a path of so many bytes, of which the last word alone
/// matches, checks a request against them in so many rounds, and counts the violations. With a path of 0 bytes the
/// words have none.
pub(crate) fn violations(alloc: Global, words: &Row) -> Result<u64, Failed> {
    let hosts = count_in(words, 2)?;
    let rounds = count_in(words, 4)?;
    let path = path_of(alloc, count_in(words, 3)?)?;
    let request = request_words(alloc, hosts, path.as_slice())?;
    let request = request_of(alloc, request.as_slice())?;
    let compiled = made(alloc, count_in(words, 1)?, hosts, path.as_slice())?;
    checked(alloc, &compiled, &request, rounds)
}
