// Requests that a text writes, in words with spaces between. What is not said is as in the second column.
//
//     url=URL                   one or more: the URL list, all http or https
//     from=URL                  http://a.test/: the document's URL, whose origin is the request's
//     to=DESTINATION            fetch
//     method=METHOD             GET
//     mode=MODE                 cors
//     credentials=MODE          same-origin
//     redirect=MODE             follow
//     tainting=TAINTING         basic
//     redirects=COUNT           0
//     header=NAME:VALUE         none or more: the header list
//     referrer=URL              none
//     policy=POLICY             the empty one
//     integrity=TEXT            the empty one
//     nonce=TEXT                the empty one
//     parser=yes                no: the parser flag
//     upload=yes                no: the use-preflight flag
ghost use Rattle.std.specs.Prelude.{◌≡◌, ◌≤◌, IfOk, OnOk, IsTrue};
ghost use Rattle.value_text.specs.Tokens.{is_token};
ghost use Rattle.value_requests.specs.Requests as spec;

use crate::failed::Failed;
use crate::urls::{origin_written, url_written};
use crate::words::{destination_named, named, policy_named, value_of, values_of};
use std::alloc::Global;
use url::Url;
use value_bytes::Bytes;
use value_headers::HeaderList;
use value_origins::{Origin, is_http_url};
use value_requests::{
    Credentials, Destination, MOST_REDIRECTS, Mode, RedirectMode, Referrer, ReferrerPolicy,
    Request, Tainting, Urls,
};
use value_text::{after_byte, before_byte, is_token, parse_digits};

/// The modes.
const MODES: [(&[u8], Mode); 4] = [
    (b"", Mode::Cors),
    (b"cors", Mode::Cors),
    (b"no-cors", Mode::NoCors),
    (b"same-origin", Mode::SameOrigin),
];

/// The credentials modes.
const CREDENTIALS: [(&[u8], Credentials); 4] = [
    (b"", Credentials::SameOrigin),
    (b"same-origin", Credentials::SameOrigin),
    (b"omit", Credentials::Omit),
    (b"include", Credentials::Include),
];

/// The redirect modes.
const REDIRECTS: [(&[u8], RedirectMode); 4] = [
    (b"", RedirectMode::Follow),
    (b"follow", RedirectMode::Follow),
    (b"error", RedirectMode::Error),
    (b"manual", RedirectMode::Manual),
];

/// The response taintings.
const TAINTINGS: [(&[u8], Tainting); 4] = [
    (b"", Tainting::Basic),
    (b"basic", Tainting::Basic),
    (b"cors", Tainting::Cors),
    (b"opaque", Tainting::Opaque),
];

// The method, which is a token.
fn method_in(alloc: Global, text: &[u8]) -> Result<Bytes, Failed>
    ensures { IfOk result (λ method. IsTrue (is_token method)) }
{
    let written = value_of(text, b"method");
    if written.is_empty() {
        return Ok(Bytes::of(alloc, b"GET")?);
    }
    if !is_token(written) {
        return Err(Failed);
    }
    Ok(Bytes::of(alloc, written)?)
}

// Whether there is a URL, and each but the last is http or https.
fn were_http(urls: &[Url]) -> bool
    ensures { result ≡ spec.were_http urls.now }
{
    match urls {
        [] => false,
        [url, rest @ ..] => rest.is_empty() || (is_http_url(url) && were_http(rest)),
    }
}

// The URLs that the text writes.
fn written_urls(alloc: Global, text: &[u8]) -> Result<Urls, Failed> {
    let mut urls = Urls::new(alloc);
    for written in values_of(alloc, text, b"url")?.as_slice() {
        urls.push(url_written(alloc, written.as_slice())?)?;
    }
    Ok(urls)
}

// The URL list, which is one of a request.
fn urls_in(alloc: Global, text: &[u8]) -> Result<Urls, Failed>
    ensures { IfOk result (λ urls. IsTrue (spec.were_http urls)) }
{
    let urls = written_urls(alloc, text)?;
    if !were_http(urls.as_slice()) {
        return Err(Failed);
    }
    Ok(urls)
}

// Adds the headers that the text writes.
fn add_headers(alloc: Global, headers: &mut HeaderList, text: &[u8]) -> Result<(), Failed> {
    for header in values_of(alloc, text, b"header")?.as_slice() {
        let header = header.as_slice();
        headers.append(before_byte(header, b':'), after_byte(header, b':'))?;
    }
    Ok(())
}

// The origin of the document.
fn origin_in(alloc: Global, text: &[u8]) -> Result<Origin, Failed> {
    match value_of(text, b"from") {
        [] => origin_written(alloc, b"http://a.test/"),
        written => origin_written(alloc, written),
    }
}

// The referrer: none, or an http or https URL.
fn referrer_in(alloc: Global, text: &[u8]) -> Result<Referrer, Failed>
    ensures http { IfOk result (λ referrer. IsTrue (spec.is_http_referrer referrer)) }
    ensures determined { IfOk result (λ referrer. IsTrue (spec.is_determined referrer)) }
{
    let written = value_of(text, b"referrer");
    if written.is_empty() {
        return Ok(Referrer::NoReferrer);
    }
    let url = url_written(alloc, written)?;
    if !is_http_url(&url) {
        return Err(Failed);
    }
    Ok(Referrer::Address(url))
}

// The redirect count, which is at most that of a request.
fn redirects_in(text: &[u8]) -> u32
    ensures { result ≤ spec.most_redirects }
{
    let most = u64::from(MOST_REDIRECTS);
    let count = parse_digits(value_of(text, b"redirects"), most).unwrap_or(0);
    count.min(most) as u32
}

// A request with these, and in all else as the second column says.
fn request_with(
    alloc: Global,
    method: Bytes,
    urls: Urls,
    origin: Origin,
    referrer: Referrer,
) -> Request
    requires method { IsTrue (is_token method) }
    requires urls { IsTrue (spec.were_http urls) }
    requires referrer { IsTrue (spec.is_http_referrer referrer) }
    ensures valid { spec.IsRequest result }
    ensures referrer { result.referrer ≡ referrer }
{
    Request {
        method,
        urls,
        headers: HeaderList::new(alloc),
        body: None,
        origin,
        mode: Mode::Cors,
        credentials: Credentials::SameOrigin,
        redirect: RedirectMode::Follow,
        referrer,
        policy: ReferrerPolicy::Empty,
        integrity: Bytes::new(alloc),
        nonce: Bytes::new(alloc),
        parser: false,
        unsafe_request: false,
        use_preflight: false,
        destination: Destination::Fetch,
        tainting: Tainting::Basic,
        redirects: 0,
    }
}

// A request in a place of its own, where it is dropped in one step.
fn boxed(alloc: Global, request: Request) -> Result<Box<Request>, Failed>
    ensures { IfOk result (λ boxed. boxed.value ≡ request) }
{
    match Box::new(alloc, request) {
        Ok(boxed) => Ok(boxed),
        Err(_) => Err(Failed),
    }
}

// The request of the method, the URLs, the origin and the referrer that a text writes.
fn begun(alloc: Global, text: &[u8]) -> Result<Box<Request>, Failed>
    ensures valid { IfOk result (λ request. spec.IsRequest request.value) }
    ensures determined { IfOk result (λ request. IsTrue (spec.is_determined request.value.referrer)) }
{
    let method = method_in(alloc, text)?;
    let urls = urls_in(alloc, text)?;
    let origin = origin_in(alloc, text)?;
    let referrer = referrer_in(alloc, text)?;
    boxed(alloc, request_with(alloc, method, urls, origin, referrer))
}

// Sets what is a word, a flag or a number.
fn set_words(request: &mut Request, text: &[u8]) -> Result<(), Failed>
    requires { spec.IsRequest request.old }
    ensures valid { OnOk result (spec.IsRequest request.new) }
    ensures referrer { OnOk result (request.new.referrer ≡ request.old.referrer) }
{
    request.mode = named(&MODES, value_of(text, b"mode"))?;
    request.credentials = named(&CREDENTIALS, value_of(text, b"credentials"))?;
    request.redirect = named(&REDIRECTS, value_of(text, b"redirect"))?;
    request.policy = policy_named(value_of(text, b"policy"))?;
    request.destination = destination_named(value_of(text, b"to"))?;
    request.tainting = named(&TAINTINGS, value_of(text, b"tainting"))?;
    request.parser = !value_of(text, b"parser").is_empty();
    request.use_preflight = !value_of(text, b"upload").is_empty();
    request.redirects = redirects_in(text);
    Ok(())
}

// Sets the headers and the texts.
fn set_texts(alloc: Global, request: &mut Request, text: &[u8]) -> Result<(), Failed>
    requires { spec.IsRequest request.old }
    ensures valid { OnOk result (spec.IsRequest request.new) }
    ensures referrer { OnOk result (request.new.referrer ≡ request.old.referrer) }
{
    add_headers(alloc, &mut request.headers, text)?;
    request.integrity.append(value_of(text, b"integrity"))?;
    request.nonce.append(value_of(text, b"nonce"))?;
    Ok(())
}

/// The request that a text writes, as this file says. Its current URL is http or https, and its referrer is
/// none or a URL.
pub fn request_of(alloc: Global, text: &[u8]) -> Result<Box<Request>, Failed>
    ensures valid { IfOk result (λ request. spec.IsRequest request.value) }
    ensures at_http { IfOk result (λ request. spec.IsAtHttp request.value) }
    ensures determined { IfOk result (λ request. IsTrue (spec.is_determined request.value.referrer)) }
{
    let mut request = begun(alloc, text)?;
    set_words(&mut request, text)?;
    set_texts(alloc, &mut request, text)?;
    if !is_http_url(request.current_url()) {
        return Err(Failed);
    }
    Ok(request)
}
