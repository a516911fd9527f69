// What a document asks of `fetch`, in words with spaces between. What is not said is as in the second column. The mode
// is cors.
//
//     url=URL                   the empty text
//     method=METHOD             GET
//     credentials=MODE          same-origin
//     header=NAME:VALUE         none or more
//     body=TEXT                 no body
//     upload                    no upload listener is there
ghost use Rattle.std.specs.Prelude.{◌<◌, ◌^◌, length, IfOk};
ghost use Rattle.value_requests.specs.Requests.{IsClient, IsRequest};

use fetch_requests::new_request;
use rows_shell::{Failed, has_word, named, value_of, values_of};
use std::alloc::Global;
use value_bytes::Bytes;
use value_requests::{
    Client, Credentials, Init, Mode, Pair, Pairs, RedirectMode, ReferrerPolicy, Request,
};
use value_text::{after_byte, before_byte};

/// The credentials modes.
const CREDENTIALS: [(&[u8], Credentials); 4] = [
    (b"", Credentials::SameOrigin),
    (b"same-origin", Credentials::SameOrigin),
    (b"omit", Credentials::Omit),
    (b"include", Credentials::Include),
];

/// How many headers there are at most.
const MOST_HEADERS: usize = 64;

// The headers that a text writes.
fn pairs_in(alloc: Global, text: &[u8]) -> Result<Pairs, Failed> {
    let mut pairs = Pairs::new(alloc);
    for header in values_of(alloc, text, b"header")?.as_slice() {
        let header = header.as_slice();
        pairs.push(Pair {
            name: Bytes::of(alloc, before_byte(header, b':'))?,
            value: Bytes::of(alloc, after_byte(header, b':'))?,
        })?;
    }
    Ok(pairs)
}

// The headers, few of them.
fn few_pairs_in(alloc: Global, text: &[u8]) -> Result<Pairs, Failed>
    ensures { IfOk result (λ pairs. length pairs < 2 ^ 32) }
{
    let pairs = pairs_in(alloc, text)?;
    if pairs.len() > MOST_HEADERS {
        return Err(Failed);
    }
    Ok(pairs)
}

// The method.
fn method_in(text: &[u8]) -> &[u8] {
    match value_of(text, b"method") {
        [] => b"GET",
        method => method,
    }
}

// The body, if there is one.
fn body_in(alloc: Global, text: &[u8]) -> Result<Option<Bytes>, Failed> {
    if !has_word(text, b"body") {
        return Ok(None);
    }
    Ok(Some(Bytes::of(alloc, value_of(text, b"body"))?))
}

// What a text asks of `fetch`.
fn init_in(alloc: Global, text: &[u8]) -> Result<Init, Failed>
    ensures { IfOk result (λ init. length init.headers < 2 ^ 32) }
{
    Ok(Init {
        url: Bytes::of(alloc, value_of(text, b"url"))?,
        method: Bytes::of(alloc, method_in(text))?,
        mode: Mode::Cors,
        credentials: named(&CREDENTIALS, value_of(text, b"credentials"))?,
        redirect: RedirectMode::Follow,
        headers: few_pairs_in(alloc, text)?,
        body: body_in(alloc, text)?,
        client_referrer: true,
        referrer_policy: ReferrerPolicy::Empty,
        integrity: Bytes::new(alloc),
        upload: has_word(text, b"upload"),
    })
}

// The request that a client makes of it.
pub(crate) fn request_in(alloc: Global, client: &Client, text: &[u8]) -> Result<Request, Failed>
    requires { IsClient client.now }
    ensures { IfOk result IsRequest }
{
    let init = init_in(alloc, text)?;
    match new_request(alloc, &init, client)? {
        Ok(request) => Ok(request),
        Err(_) => Err(Failed),
    }
}
