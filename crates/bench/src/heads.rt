// Filtered responses: how long exposing and hiding the headers of a head takes.
ghost use Rattle.value_requests.specs.Requests.{IsRequest};

use crate::words::{count_in, numbered};
use policy_filter::{filtered, hide};
use rows_shell::{Failed, Row, named, request_of};
use std::alloc::Global;
use value_bytes::Bytes;
use value_headers::{HeaderList, PackedHeaders};
use value_requests::{Head, Hop, Request};

/// The request that the head answers.
const REQUEST: &[u8] = b"url=https://b.test/ from=https://a.test/ tainting=cors";

/// What is called.
#[derive(Clone, Copy)]
enum Call {
    Filtered,
    Hide,
}

/// Their names.
const CALLS: [(&[u8], Call); 2] = [(b"filtered", Call::Filtered), (b"hide", Call::Hide)];

// The headers of a head: the CORS check passes, these names are exposed, and each of the others has a name of its own.
fn headers_of(alloc: Global, exposed: &[u8], count: u32) -> Result<HeaderList, Failed> {
    let mut headers = HeaderList::new(alloc);
    headers.append(b"Access-Control-Allow-Origin", b"*")?;
    headers.append(b"Access-Control-Expose-Headers", exposed)?;
    for number in 2..count {
        let name = numbered(alloc, b"X-Name-", number, b"")?;
        headers.append(name.as_slice(), b"a value")?;
    }
    Ok(headers)
}

// The request as it is sent, of which nothing counts here but that it is no preflight.
fn hop(alloc: Global) -> Hop {
    Hop {
        preflight: false,
        origin: Bytes::new(alloc),
        url: Bytes::new(alloc),
        method: Bytes::new(alloc),
        headers: PackedHeaders::new(alloc),
        body: None,
    }
}

// A copy of a head, for the call that takes it.
fn copy(alloc: Global, head: &Head) -> Result<Head, Failed> {
    Ok(Head {
        status: head.status,
        headers: head.headers.copy(alloc)?,
    })
}

// How many headers one call keeps.
fn kept_by(
    alloc: Global,
    call: Call,
    request: &Request,
    hop: &Hop,
    head: &Head,
) -> Result<usize, Failed>
    requires { IsRequest request.now }
{
    Ok(match call {
        Call::Filtered => filtered(alloc, request, copy(alloc, head)?, false)?
            .headers
            .len(),
        Call::Hide => hide(alloc, request, hop, head)?.headers.len(),
    })
}

// How many headers so many calls keep.
fn kept_in(
    alloc: Global,
    call: Call,
    request: &Request,
    head: &Head,
    rounds: u32,
) -> Result<u64, Failed>
    requires { IsRequest request.now }
{
    let hop = hop(alloc);
    let mut kept = 0u64;
    for _ in 0..rounds {
        kept = kept.saturating_add(kept_by(alloc, call, request, &hop, head)? as u64);
    }
    Ok(kept)
}

/// Makes a head of so many headers with different names that answers a request under tainting cors, exposes these
/// names and passes the CORS check, asks for its filtered response or hides it in so many rounds, and counts the
/// headers that are kept. The call is `filtered` or `hide`.
pub(crate) fn kept(alloc: Global, words: &Row) -> Result<u64, Failed> {
    let call = named(&CALLS, words.text(1))?;
    let rounds = count_in(words, 4)?;
    let request = request_of(alloc, REQUEST)?;
    let head = Head {
        status: 200,
        headers: headers_of(alloc, words.text(2), count_in(words, 3)?)?,
    };
    kept_in(alloc, call, &request, &head, rounds)
}
