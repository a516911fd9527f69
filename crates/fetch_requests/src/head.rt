// The header list of a request as it is sent (Fetch, section 4.6 "HTTP-network-or-cache fetch", step 8).
ghost use Rattle.std.specs.Prelude.{◌≡◌, [], option_copied, IfOk, OnOk, None, codes, if◌then◌else◌};
ghost use Rattle.value_origins.specs.Origins as origins;
ghost use Rattle.fetch_requests.specs.Heads as spec;
ghost use Rattle.value_requests.specs.Lines.{all_appended_where, appended_where};
ghost use Rattle.policy_checks.specs.OriginHeader.{origin_value};
ghost use Rattle.value_requests.specs.Targets.{origin_text};

use policy_checks::{origin_value, referrer_value};
use std::alloc::Global;
use url::Url;
use value_bytes::{Bytes, OutOfMemory};
use value_headers::{HeaderList, PackedHeaders};
use value_requests::{
    ACCEPT_ENCODING, CONNECTION, Cookie, Credentials, Request, Tainting, USER_AGENT, append_where,
    host_value, is_post_or_put, slice_of,
};

// How many lines are sent beside a request's own: Host, and those of `append_added` but Cookie, which is rare.
const USUAL_LINES: usize = 7;

// How many bytes those lines have beside a host, a referrer and an origin: 66 of names, 24 of values that are always
// the same, and one digit.
const USUAL_BYTES: usize = 91;

/// Whether credentials are included: in mode include, and in mode same-origin while the tainting is
/// basic (Fetch, section 4.6, step 8.3). It takes no memory.
pub fn includes_credentials(credentials: Credentials, tainting: Tainting) -> bool
    ensures { result ≡ spec.includes_credentials credentials tainting }
{
    match credentials {
        Credentials::Include => true,
        Credentials::SameOrigin => matches!(tainting, Tainting::Basic),
        Credentials::Omit => false,
    }
}

// The first value of an origin in a table of cookies.
fn cookie_of<'a>(cookies: &'a [Cookie], origin: &[u8]) -> Option<&'a [u8]>
    ensures { option_copied result ≡ spec.cookie_of origin.now cookies.now }
{
    for cookie in cookies {
        if cookie.origin.as_slice() == origin {
            return Some(cookie.value.as_slice());
        }
    }
    None
}

// The value of Cookie for requests to an origin, where credentials are included and the table has
// one.
fn cookie_value<'a>(cookies: &'a [Cookie], request: &Request, origin: &[u8]) -> Option<&'a [u8]>
    ensures { option_copied result ≡ (if spec.includes_credentials request.now.credentials request.now.tainting
        then spec.cookie_of origin.now cookies.now else None) }
{
    if includes_credentials(request.credentials, request.tainting) {
        cookie_of(cookies, origin)
    } else {
        None
    }
}

// The value of User-Agent, where the request gives none.
fn user_agent_value(headers: &HeaderList) -> Option<&'static [u8]>
    ensures { option_copied result ≡ spec.user_agent_value headers.now }
{
    if headers.contains(b"User-Agent") {
        None
    } else {
        Some(USER_AGENT)
    }
}

// The value of Content-Length: the body's, or 0 for POST and PUT without one.
fn length_value(
    alloc: Global,
    method: &[u8],
    body: &Option<Bytes>,
) -> Result<Option<Bytes>, OutOfMemory>
    ensures { IfOk result (λ value. value ≡ spec.length_value method.now body.now) }
{
    match body {
        Some(body) => {
            let length = body.len().to_string(alloc)?;
            Ok(Some(Bytes::of(alloc, length.as_bytes())?))
        }
        None if is_post_or_put(method) => Ok(Some(Bytes::of(alloc, b"0")?)),
        None => Ok(None),
    }
}

// Appends Origin, where the request gives its origin.
fn append_origin(
    alloc: Global,
    headers: &mut PackedHeaders,
    request: &Request,
    url: &Url,
) -> Result<(), OutOfMemory>
    ensures { OnOk result (headers.new
        ≡ appended_where (codes "Origin") (origin_value request.now url.now) headers.old) }
{
    let value = origin_value(alloc, request, url)?;
    append_where(headers, b"Origin", slice_of(&value))
}

// Appends Content-Length, where it is sent.
fn append_length(
    alloc: Global,
    headers: &mut PackedHeaders,
    method: &[u8],
    body: &Option<Bytes>,
) -> Result<(), OutOfMemory>
    ensures { OnOk result (headers.new
        ≡ appended_where (codes "Content-Length") (spec.length_value method.now body.now) headers.old) }
{
    let value = length_value(alloc, method, body)?;
    append_where(headers, b"Content-Length", slice_of(&value))
}

// Appends the lines that are sent after the request's own headers.
fn append_added(
    alloc: Global,
    headers: &mut PackedHeaders,
    cookies: &[Cookie],
    request: &Request,
    url: &Url,
    origin: &[u8],
) -> Result<(), OutOfMemory>
    requires { origin.now ≡ origin_text (origins.origin_of url.now) }
    ensures { OnOk result (headers.new
        ≡ all_appended_where (spec.added_lines cookies.now request.now url.now) headers.old) }
{
    append_where(headers, b"User-Agent", user_agent_value(&request.headers))?;
    append_where(headers, b"Accept-Encoding", Some(ACCEPT_ENCODING))?;
    append_where(headers, b"Referer", referrer_value(&request.referrer))?;
    append_origin(alloc, headers, request, url)?;
    append_where(headers, b"Cookie", cookie_value(cookies, request, origin))?;
    append_length(alloc, headers, request.method.as_slice(), &request.body)?;
    append_where(headers, b"Connection", Some(CONNECTION))?;
    Ok(())
}

// No headers, with room for those that are sent to this host. Few clients have a longer origin than the URL, and then
// there is only less room at first.
fn with_room(
    alloc: Global,
    request: &Request,
    host: &[u8],
    origin: &[u8],
) -> Result<PackedHeaders, OutOfMemory>
    ensures { IfOk result (λ headers. headers ≡ []) }
{
    let referrer = referrer_value(&request.referrer).map_or(0, |value| value.len());
    let bytes = USUAL_BYTES
        .saturating_add(host.len())
        .saturating_add(referrer)
        .saturating_add(origin.len());
    PackedHeaders::with_room_beside(alloc, &request.headers, USUAL_LINES, bytes)
}

// The header list as it is sent to a URL of an origin, from Host on.
pub(crate) fn head_lines(
    alloc: Global,
    cookies: &[Cookie],
    request: &Request,
    url: &Url,
    origin: &[u8],
) -> Result<PackedHeaders, OutOfMemory>
    requires { origin.now ≡ origin_text (origins.origin_of url.now) }
    ensures { IfOk result (λ headers. headers ≡ spec.head_lines cookies.now request.now url.now) }
{
    let host = host_value(url).as_bytes();
    let mut headers = with_room(alloc, request, host, origin)?;
    headers.append(b"Host", host)?;
    headers.append_all(request.headers.as_slice())?;
    append_added(alloc, &mut headers, cookies, request, url, origin)?;
    Ok(headers)
}
