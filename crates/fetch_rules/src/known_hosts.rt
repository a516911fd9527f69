// Known HSTS hosts in a fetch: which host the book is asked for, and what an answer tells it (RFC 6797, sections 8.1
// and 8.3).
ghost use Rattle.std.specs.Prelude.{◌≡◌, ◌<◌, ◌^◌, IfOk, IfSome, option_copied};
ghost use Rattle.std.specs.List.{find};
ghost use Rattle.url.specs.Parts.{nonempty_host};
ghost use Rattle.book_calls.specs.Ops.{InRange};
ghost use Rattle.value_headers.specs.Headers.{is_named};
ghost use Rattle.fetch_rules.specs.KnownHosts as spec;
ghost use Rattle.value_requests.specs.Requests.{IsRequest};

use book_calls::Op;
use book_hosts::{Sts, parse_sts};
use std::alloc::Global;
use url::{Host, Url};
use value_bytes::{Bytes, OutOfMemory};
use value_headers::Field;
use value_origins::is_local_name;
use value_requests::{Head, Request};
use value_text::eq_fold;

// The name by which the host of a URL is known.
fn name_of_host(url: &Url) -> Option<&str>
    ensures { option_copied result ≡ spec.name_of_host (nonempty_host url.now) }
{
    match url.host() {
        Some(Host::Domain(name)) if !is_local_name(name.as_bytes()) => Some(name),
        _ => None,
    }
}

// The name by which the host of a URL of this scheme is known.
fn name_at<'a>(scheme: &str, url: &'a Url) -> Option<&'a str>
    ensures { option_copied result ≡ spec.name_at scheme.now url.now }
{
    if url.scheme() == scheme {
        name_of_host(url)
    } else {
        None
    }
}

// The host that is asked for.
fn host_to_match(request: &Request) -> Option<&str>
    requires { IsRequest request.now }
    ensures { option_copied result ≡ spec.host_to_match request.now }
{
    name_at("http", request.current_url())
}

// The host of which a field is noted.
fn host_to_note(request: &Request) -> Option<&str>
    requires { IsRequest request.now }
    ensures { option_copied result ≡ spec.host_to_note request.now }
{
    name_at("https", request.current_url())
}

// The first header of a name.
fn first_named<'a>(name: &[u8], headers: &'a [Field]) -> Option<&'a Field>
    ensures { option_copied result ≡ find (is_named name.now) headers.now }
{
    headers.iter().find(|header| eq_fold(header.name(), name))
}

// The value of the first header of a name.
fn first_value<'a>(name: &[u8], headers: &'a [Field]) -> Option<&'a [u8]>
    ensures { option_copied result ≡ spec.first_value name.now headers.now }
{
    Some(first_named(name, headers)?.value())
}

// What the Strict-Transport-Security field of a head says.
fn sts_of(alloc: Global, head: &Head) -> Result<Option<Sts>, OutOfMemory>
    ensures { IfOk result (λ sts. sts ≡ spec.sts_of head.now) }
{
    match first_value(b"Strict-Transport-Security", head.headers.as_slice()) {
        None => Ok(None),
        Some(value) => parse_sts(alloc, value),
    }
}

/// The question that main fetch asks of the book before a request is sent: whether its host is a known HSTS
/// host. There is none where the current URL is not http, or its host is an IP address or a localhost name
/// (Fetch, section 4.1, "main fetch", step 10; RFC 6797, section 8.3).
pub fn match_of(alloc: Global, request: &Request, now: u64) -> Result<Option<Op>, OutOfMemory>
    requires { IsRequest request.now }
    ensures value { IfOk result (λ op. op ≡ spec.match_of now request.now) }
    ensures range { now < 2 ^ 48 → IfOk result (λ op. IfSome op InRange) }
{
    match host_to_match(request) {
        None => Ok(None),
        Some(host) => Ok(Some(Op::Match(Bytes::of(alloc, host.as_bytes())?, now))),
    }
}

/// What the book is told of an answer to a request that has this head: what its first
/// Strict-Transport-Security field says of the host. There is nothing where the current URL is not https, its
/// host is an IP address or a localhost name, or the head has no such field or its first one is ignored (RFC
/// 6797, section 8.1).
pub fn note_of(
    alloc: Global,
    request: &Request,
    head: &Head,
    now: u64,
) -> Result<Option<Op>, OutOfMemory>
    requires { IsRequest request.now }
    ensures value { IfOk result (λ op. op ≡ spec.note_of now request.now head.now) }
    ensures range { now < 2 ^ 48 → IfOk result (λ op. IfSome op InRange) }
{
    let Some(host) = host_to_note(request) else {
        return Ok(None);
    };
    match sts_of(alloc, head)? {
        None => Ok(None),
        Some(sts) => Ok(Some(Op::Note(Bytes::of(alloc, host.as_bytes())?, sts, now))),
    }
}
