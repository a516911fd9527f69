// Where a redirect leads, and what it is refused for (Fetch, section 4.5 "HTTP-redirect fetch", steps 3 to 10).
ghost use Rattle.std.specs.Prelude.{◌≡◌, All, IfOk};
ghost use Rattle.percent_encoding.specs.Percent.{IsKept};
ghost use Rattle.url.specs.Parts as parts;
ghost use Rattle.url.specs.declared.sets.TheConstants.{FRAGMENT};
ghost use Rattle.value_requests.specs.Requests.{IsRequest};
ghost use Rattle.fetch_answers.specs.Redirects as spec;

use crate::answers::Redirection;
use crate::judging::is_to_follow;
use std::alloc::Global;
use url::Url;
use value_bytes::{BytesList, OutOfMemory};
use value_lists::{Extracted, Rule, extract_values};
use value_origins::{is_http_url, is_origin_of};
use value_requests::{
    Head, MOST_REDIRECTS, NetError, Request, has_credentials, unless_long, url_against,
};

// The URL with this fragment, which is that of a URL.
fn with_fragment(url: Url, fragment: &str) -> Result<Url, OutOfMemory>
    requires valid { parts.IsValid url }
    requires kept { All (IsKept FRAGMENT) fragment.now }
    ensures { IfOk result (λ changed. changed ≡ record url { fragment = Some fragment.now }) }
{
    let mut changed = url;
    match changed.set_fragment(Some(fragment)) {
        Ok(()) => Ok(changed),
        Err(_) => Err(OutOfMemory),
    }
}

// The URL, with the fragment of the current one where it has none.
fn with_fragment_of(current: &Url, url: Url) -> Result<Url, OutOfMemory>
    ensures { IfOk result (λ whole. whole ≡ spec.with_fragment_of current.now url) }
{
    if url.fragment().is_some() {
        return Ok(url);
    }
    match current.fragment() {
        None => Ok(url),
        Some(fragment) => with_fragment(url, fragment),
    }
}

// The URL that the value of Location gives against the current URL.
fn location_url(alloc: Global, current: &Url, text: &[u8]) -> Result<Option<Url>, OutOfMemory>
    ensures { IfOk result (λ url. url ≡ spec.location_url current.now text.now) }
{
    match url_against(alloc, current, text)? {
        None => Ok(None),
        Some(url) => Ok(unless_long(Some(with_fragment_of(current, url)?))),
    }
}

// The URL of the one value.
fn extracted_url(
    alloc: Global,
    current: &Url,
    values: &BytesList,
) -> Result<Option<Url>, OutOfMemory>
    ensures { IfOk result (λ url. url ≡ spec.extracted_url current.now (Extracted.Items values.now)) }
{
    if values.len() == 1 {
        location_url(alloc, current, values.at(0))
    } else {
        Ok(None)
    }
}

// Whether the URL has credentials, and the tainting is cors, or the mode is cors and its origin is not
// the request's.
fn shows_credentials(request: &Request, url: &Url) -> bool
    ensures { result ≡ spec.shows_credentials request.now url.now }
{
    has_credentials(url)
        && (request.tainting.is_cors()
            || (request.mode.is_cors() && !is_origin_of(&request.origin, url)))
}

// A redirect to this URL, or what it is refused for.
fn redirection_to(request: &Request, url: Url) -> Redirection
    requires { IsRequest request.now }
    ensures value { result ≡ spec.redirection_to request.now url }
    ensures may_go { spec.MayGo request.now result }
{
    if !is_http_url(&url) {
        Redirection::Refuses(NetError::RedirectScheme)
    } else if request.redirects == MOST_REDIRECTS {
        Redirection::Refuses(NetError::TooManyRedirects)
    } else if shows_credentials(request, &url) {
        Redirection::Refuses(NetError::RedirectCredentials)
    } else {
        Redirection::Goes(url)
    }
}

// A redirect to the URL that there is.
fn redirection_where(request: &Request, url: Option<Url>) -> Redirection
    requires { IsRequest request.now }
    ensures value { result ≡ spec.redirection_where request.now url }
    ensures may_go { spec.MayGo request.now result }
{
    match url {
        None => Redirection::Refuses(NetError::BadLocation),
        Some(url) => redirection_to(request, url),
    }
}

// A redirect by what was extracted of Location.
fn redirection_by(
    alloc: Global,
    request: &Request,
    location: Extracted,
) -> Result<Redirection, OutOfMemory>
    requires { IsRequest request.now }
    ensures value { IfOk result (λ redirection. redirection ≡ spec.redirection_by request.now location) }
    ensures may_go { IfOk result (λ redirection. spec.MayGo request.now redirection) }
{
    match location {
        Extracted::Absent => Ok(Redirection::Stays),
        Extracted::Failure => Ok(redirection_where(request, None)),
        Extracted::Items(values) => {
            let url = extracted_url(alloc, request.current_url(), &values)?;
            Ok(redirection_where(request, url))
        }
    }
}

/// What comes of the head of an answer as a redirect (Fetch, section 4.5 "HTTP-redirect fetch", steps 3 to 10, and
/// section 2.2.6 "location URL").
/// It `Stays` where the status is no redirect status, the redirect mode is not follow, or there is no
/// Location. It is refused, by the first of these that applies: `BadLocation` where Location is there
/// twice, is not UTF-8 or no URL against the current URL, or the text of that URL, with the fragment of
/// the current URL where it has none, is longer than 8,192 bytes (this project's own choice);
/// `RedirectScheme` where the URL is neither http nor https; `TooManyRedirects` at redirect count 20;
/// `RedirectCredentials` where the URL has credentials and the tainting is cors, or the mode is cors and
/// the URL has another origin than the request's. Else it `Goes` to the URL.
pub fn redirection(
    alloc: Global,
    request: &Request,
    head: &Head,
) -> Result<Redirection, OutOfMemory>
    requires { IsRequest request.now }
    ensures value { IfOk result (λ redirection. redirection ≡ spec.redirection request.now head.now) }
    ensures may_go { IfOk result (λ redirection. spec.MayGo request.now redirection) }
{
    if !is_to_follow(request, head) {
        return Ok(Redirection::Stays);
    }
    let location = extract_values(alloc, &head.headers, b"Location", Rule::Single)?;
    redirection_by(alloc, request, location)
}
