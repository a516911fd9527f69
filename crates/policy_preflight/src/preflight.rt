// The CORS-preflight request that goes before a request (Fetch, section 4.8 "CORS-preflight fetch", steps 1 to 6).
ghost use Rattle.std.specs.Prelude.{◌≡◌, [], ◌∷◌, IfOk, IsTrue};
ghost use Rattle.std.specs.List.{join_with_byte};
ghost use Rattle.value_text.specs.Ascii.{comma};
ghost use Rattle.value_requests.specs.Lines.{all_appended_where};
ghost use Rattle.value_requests.specs.Requests.{IsAtHttp, IsRequest, is_determined};
ghost use Rattle.value_requests.specs.Targets.{IsSendable};
ghost use Rattle.policy_preflight.specs.Preflight as spec;

use policy_checks::{referrer_value, serialized_origin};
use std::alloc::Global;
use url::Url;
use value_bytes::{Bytes, BytesList, OutOfMemory};
use value_headers::PackedHeaders;
use value_requests::{
    ACCEPT_ENCODING, CONNECTION, Hop, Request, USER_AGENT, append_where, host_value, origin_text,
    slice_of, target_of,
};

// How many lines a preflight has at most.
const MOST_LINES: usize = 9;

// How many bytes the lines that each preflight has are beside its host, its method and its origin: 80 of names, and 27
// of values that are always the same.
const SAME_BYTES: usize = 107;

// The names in a row, with a comma between each two.
#[tactic(auto, using(value_lemmas::proofs::Lists::join_with_byte_cons))]
fn comma_joined(alloc: Global, first: &Bytes, names: &[Bytes]) -> Result<Bytes, OutOfMemory>
    ensures { IfOk result (λ text. text ≡ join_with_byte comma (first.now ∷ names.now)) }
{
    let mut text = first.copy(alloc)?;
    for name in names {
        text.append(b",")?;
        text.append(name.as_slice())?;
    }
    Ok(text)
}

// The value of Access-Control-Request-Headers, where there are names.
fn names_value(alloc: Global, names: &[Bytes]) -> Result<Option<Bytes>, OutOfMemory>
    ensures { IfOk result (λ value. value ≡ spec.names_value names.now) }
{
    match names.split_first() {
        None => Ok(None),
        Some((first, rest)) => Ok(Some(comma_joined(alloc, first, rest)?)),
    }
}

// How many bytes a line has, where there is a value.
fn line_length(name: &[u8], value: Option<&[u8]>) -> usize {
    value.map_or(0, |value| name.len().saturating_add(value.len()))
}

// No headers, with room for those of a preflight. The first value is that of Access-Control-Request-Headers, and the
// others are those that each preflight has.
fn with_room(
    alloc: Global,
    request: &Request,
    asked: Option<&[u8]>,
    always: &[&[u8]],
) -> Result<PackedHeaders, OutOfMemory>
    ensures { IfOk result (λ headers. headers ≡ []) }
{
    let mut bytes = SAME_BYTES
        .saturating_add(line_length(b"Access-Control-Request-Headers", asked))
        .saturating_add(line_length(b"Referer", referrer_value(&request.referrer)));
    for value in always {
        bytes = bytes.saturating_add(value.len());
    }
    PackedHeaders::with_room(alloc, MOST_LINES, bytes)
}

// The header list of the preflight as it is sent to a URL, from Host on.
fn preflight_lines(
    alloc: Global,
    request: &Request,
    names: &[Bytes],
    url: &Url,
) -> Result<PackedHeaders, OutOfMemory>
    ensures { IfOk result (λ headers. headers
        ≡ all_appended_where (spec.preflight_lines request.now names.now url.now) []) }
{
    let method = request.method.as_slice();
    let host = host_value(url).as_bytes();
    let given = names_value(alloc, names)?;
    let asked = slice_of(&given);
    let client = serialized_origin(alloc, request)?;
    let origin = client.as_slice();
    let mut headers = with_room(alloc, request, asked, &[host, method, origin])?;
    append_where(&mut headers, b"Host", Some(host))?;
    append_where(&mut headers, b"Accept", Some(b"*/*"))?;
    append_where(&mut headers, b"Access-Control-Request-Method", Some(method))?;
    append_where(&mut headers, b"Access-Control-Request-Headers", asked)?;
    append_where(&mut headers, b"User-Agent", Some(USER_AGENT))?;
    append_where(&mut headers, b"Accept-Encoding", Some(ACCEPT_ENCODING))?;
    append_where(&mut headers, b"Referer", referrer_value(&request.referrer))?;
    append_where(&mut headers, b"Origin", Some(origin))?;
    append_where(&mut headers, b"Connection", Some(CONNECTION))?;
    Ok(headers)
}

/// The CORS-preflight request of a request with these CORS-unsafe request-header names, as it is sent
/// to the request's current URL (Fetch, section 4.8, "CORS-preflight fetch", and section 4.6): OPTIONS
/// without a body. Its header list has the lines of `preflight_lines` (`specs/Preflight.antt`) that have a
/// value. No credentials are sent. Neither its method nor its target has a space.
pub fn preflight_of(alloc: Global, request: &Request, names: &BytesList) -> Result<Hop, OutOfMemory>
    requires request { IsRequest request.now }
    requires at_http { IsAtHttp request.now }
    requires determined { IsTrue (is_determined request.now.referrer) }
    ensures hop { IfOk result (λ hop. hop ≡ spec.preflight_of request.now names.now) }
    ensures sendable { IfOk result IsSendable }
{
    let url = request.current_url();
    Ok(Hop {
        preflight: true,
        origin: origin_text(alloc, url)?,
        url: Bytes::of(alloc, target_of(url).as_bytes())?,
        method: Bytes::of(alloc, b"OPTIONS")?,
        headers: preflight_lines(alloc, request, names.as_slice(), url)?,
        body: None,
    })
}
