// Requests: what is asked for.
ghost use Rattle.std.specs.Prelude.{◌≡◌, ◌≢◌, Some};
ghost use Rattle.c_calls.specs.Asked.{add_header, choose, set_text, IsLoad};
ghost use Rattle.c_calls.specs.Calls.{done};
ghost use Rattle.c_calls.specs.Choices as choices;
ghost use Rattle.c_fetch.specs.Asked.{fetch_of};

use crate::choices::{choice_numbered, load_numbered, words_numbered};
use c_fetch::Asked;
use c_handle::{Handle, NO_SUCH_NUMBER, OK, OUT_OF_MEMORY, Thing, WRONG_HANDLE, yes_or_no};
use std::alloc::Global;

/// Makes in a handle what a script asks of `fetch`: a URL, which may be relative to the client's, by a method (Fetch,
/// section 5.6). Its mode is cors, its credentials mode same-origin, its redirect mode follow, its referrer the client;
/// it has neither headers, body nor integrity metadata. What the handle held is freed.
///
/// `OK` or `OUT_OF_MEMORY`. Except for `OK` the handle holds what it held.
#[unsafe(no_mangle)]
pub extern "C" fn fiorrudda_request(
    alloc: Global,
    request: &mut Handle,
    method: &[u8],
    url: &[u8],
) -> u32
    ensures ok { result ≡ OK → request.new.held ≡ Some (Thing.Request (fetch_of method.now url.now)) }
    ensures out_of_memory { result ≢ OK → (result ≡ OUT_OF_MEMORY) × (request.new.held ≡ request.old.held) }
{
    match Asked::fetch(alloc, method, url) {
        Ok(asked) => request.fill(alloc, Thing::Request(asked)),
        Err(_) => OUT_OF_MEMORY,
    }
}

/// Makes in a handle what an element asks for that loads a resource (HTML, section 2.5.1, "create a potential-CORS
/// request"): one of the numbers `LOAD_..`, and a URL, which may be relative to the client's. It has no `crossorigin`
/// attribute, no nonce and no integrity metadata, and no parser inserted it. What the handle held is freed.
///
/// `OK`; `NO_SUCH_NUMBER`; `OUT_OF_MEMORY`. Except for `OK` the handle holds what it held.
#[unsafe(no_mangle)]
pub extern "C" fn fiorrudda_load(alloc: Global, request: &mut Handle, kind: u32, url: &[u8]) -> u32
    ensures told { result ≢ OUT_OF_MEMORY → IsLoad kind url.now result request.old.held request.new.held }
    ensures out_of_memory { result ≡ OUT_OF_MEMORY → request.new.held ≡ request.old.held }
{
    let Some(kind) = load_numbered(kind) else {
        return NO_SUCH_NUMBER;
    };
    match Asked::load(alloc, kind, url) {
        Ok(Some(asked)) => request.fill(alloc, Thing::Request(asked)),
        Ok(None) => NO_SUCH_NUMBER,
        Err(_) => OUT_OF_MEMORY,
    }
}

/// Adds a header to a `fetch`, its value without whitespace at its ends (Fetch, section 2.2.2, "normalize"). What is no
/// header is taken, and makes a fault of the request then.
///
/// `OK`; `NO`, of a load, which has no headers; `WRONG_HANDLE`; `OUT_OF_MEMORY`. The request is as it was but for `OK`.
#[unsafe(no_mangle)]
pub extern "C" fn fiorrudda_request_header(
    alloc: Global,
    request: &mut Handle,
    name: &[u8],
    value: &[u8],
) -> u32
    ensures told { result ≢ OUT_OF_MEMORY
        → done result request.new.held ≡ add_header name.now value.now request.old.held }
    ensures out_of_memory { result ≡ OUT_OF_MEMORY → request.new.held ≡ request.old.held }
{
    let Some(asked) = request.request() else {
        return WRONG_HANDLE;
    };
    match asked.add_header(alloc, name, value) {
        Ok(added) => yes_or_no(added),
        Err(_) => OUT_OF_MEMORY,
    }
}

/// Sets a text of a request: its body, its integrity metadata or its nonce (Fetch, section 2.2.5), by one of the
/// numbers `REQUEST_..`.
///
/// `OK`; `NO` where it has none, as a `fetch` has no nonce and a load no body; `WRONG_HANDLE`; `NO_SUCH_NUMBER`;
/// `OUT_OF_MEMORY`. The request is as it was but for `OK`.
#[unsafe(no_mangle)]
pub extern "C" fn fiorrudda_request_text(
    alloc: Global,
    request: &mut Handle,
    which: u32,
    text: &[u8],
) -> u32
    ensures told { result ≢ OUT_OF_MEMORY
        → done result request.new.held ≡ set_text (choices.words_numbered which) text.now request.old.held }
    ensures out_of_memory { result ≡ OUT_OF_MEMORY → request.new.held ≡ request.old.held }
{
    let Some(asked) = request.request() else {
        return WRONG_HANDLE;
    };
    let Some(words) = words_numbered(which) else {
        return NO_SUCH_NUMBER;
    };
    match asked.set_text(alloc, words, text) {
        Ok(has) => yes_or_no(has),
        Err(_) => OUT_OF_MEMORY,
    }
}

/// Makes a choice of a request (Fetch, section 2.2.5; HTML, section 2.5.1): one of the numbers `CHOOSE_..`, and the
/// number that it is set to.
///
/// `OK`; `NO` where the request has no such choice, as a load has no mode; `WRONG_HANDLE`; `NO_SUCH_NUMBER`. The
/// request is as it was but for `OK`.
#[unsafe(no_mangle)]
pub extern "C" fn fiorrudda_request_choose(request: &mut Handle, choice: u32, number: u32) -> u32
    ensures { done result request.new.held ≡ choose (choices.choice_numbered choice number) request.old.held }
{
    let Some(asked) = request.request() else {
        return WRONG_HANDLE;
    };
    match choice_numbered(choice, number) {
        None => NO_SUCH_NUMBER,
        Some(choice) => yes_or_no(asked.set(choice)),
    }
}
