// The request after a redirect (Fetch, section 4.5 "HTTP-redirect fetch", steps 8 to 19).
ghost use Rattle.std.specs.Prelude.{◌≡◌, ◌<◌, length, not, IfOk, OnOk};
ghost use Rattle.policy_checks.specs.PermittedNames as permitted;
ghost use Rattle.value_requests.specs.Requests.{IsAtHttp, IsRequest, most_redirects};
ghost use Rattle.fetch_answers.specs.Following as spec;

use policy_checks::has_name_among;
use std::alloc::Global;
use url::Url;
use value_bytes::{Bytes, OutOfMemory};
use value_headers::{Field, HeaderList, HeaderTest};
use value_origins::have_same_origin;
use value_requests::{Head, Request, is_get_or_head, policy_of_header, policy_or};
use value_text::AUTHORIZATION;

// The request-body-header names.
const BODY_HEADER_NAMES: [&[u8]; 4] = [
    b"Content-Encoding",
    b"Content-Language",
    b"Content-Location",
    b"Content-Type",
];

// Whether a redirect of this status turns the method to GET (step 12).
fn turns_to_get(method: &[u8], status: u16) -> bool
    ensures { result ≡ spec.turns_to_get method.now status }
{
    ((status == 301 || status == 302) && method == b"POST".as_slice())
        || (status == 303 && !is_get_or_head(method))
}

// Headers without a request-body-header name pass.
#[derive(Drop)]
struct NotOfBody;

impl HeaderTest for NotOfBody {
    ghost passing = { λ _ header. not (permitted.has_name_among spec.body_header_names header) };

    fn passes(&self, header: &Field) -> bool {
        !has_name_among(&BODY_HEADER_NAMES, header)
    }
}

// Gives the request the method GET, and takes its body and the headers that speak of it.
fn turn_to_get(alloc: Global, request: &mut Request) -> Result<(), OutOfMemory>
    ensures { OnOk result (request.new ≡ spec.turned_to_get request.old) }
{
    request.method = Bytes::of(alloc, b"GET")?;
    request.headers.retain(&NotOfBody);
    request.body = None;
    Ok(())
}

// So it is where a redirect of this status turns its method.
fn set_method_after(alloc: Global, status: u16, request: &mut Request) -> Result<(), OutOfMemory>
    ensures { OnOk result (request.new ≡ spec.with_method_after status request.old) }
{
    if turns_to_get(request.method.as_slice(), status) {
        turn_to_get(alloc, request)
    } else {
        Ok(())
    }
}

// Takes Authorization from the request where the URL has another origin than the current URL (step 13).
fn set_authorization_at(url: &Url, request: &mut Request)
    requires { 0 < length request.old.urls }
    ensures { request.new ≡ spec.with_authorization_at url.now request.old }
{
    if !have_same_origin(request.current_url(), url) {
        request.headers.delete(AUTHORIZATION);
    }
}

// Gives the request the referrer policy that the headers of the answer name, where they do (step 19).
fn set_policy_of(
    alloc: Global,
    headers: &HeaderList,
    request: &mut Request,
) -> Result<(), OutOfMemory>
    ensures { OnOk result (request.new ≡ spec.with_policy_of headers.now request.old) }
{
    let named = policy_of_header(alloc, headers)?;
    request.policy = policy_or(named, request.policy);
    Ok(())
}

// Gives the request one URL more, and counts a redirect (steps 18 and 8).
fn go_to(url: Url, request: &mut Request) -> Result<(), OutOfMemory>
    requires { request.old.redirects < most_redirects }
    ensures { OnOk result (request.new ≡ spec.at_next url request.old) }
{
    request.urls.push(url)?;
    request.redirects += 1;
    Ok(())
}

/// Makes of a request the one after the redirect of a head to a URL (Fetch, "HTTP-redirect fetch", steps 8 to 19). A
/// redirect of status 301 or 302 turns POST to GET, and one of 303 any method but GET and HEAD: the request then has
/// no body and no request-body headers. Where the URL has another origin than the current URL,
/// Authorization is deleted. A policy that Referrer-Policy names replaces the request's ("set request's
/// referrer policy on redirect", Referrer Policy, section 8.2). The URL is appended to the URL list, and
/// the redirect count rises by one. The only error is want of memory, after which the request may be changed in part.
pub fn redirect_request(
    alloc: Global,
    request: &mut Request,
    head: &Head,
    url: Url,
) -> Result<(), OutOfMemory>
    requires request { IsRequest request.old }
    requires few { request.old.redirects < most_redirects }
    requires at_http { IsAtHttp request.old }
    ensures value { OnOk result (request.new ≡ spec.redirected_request request.old head.now url) }
    ensures request { OnOk result (IsRequest request.new) }
{
    set_method_after(alloc, head.status, request)?;
    set_authorization_at(&url, request);
    set_policy_of(alloc, &head.headers, request)?;
    go_to(url, request)
}

/// The request after a redirect to a URL that keeps the method and names no policy (Fetch, "HTTP-redirect fetch", steps
/// 13, 18 and 8): where the URL has another origin than the current URL, Authorization is deleted. The only error is
/// want of memory.
pub fn moved_to(request: Request, url: Url) -> Result<Request, OutOfMemory>
    requires request { IsRequest request }
    requires few { request.redirects < most_redirects }
    requires at_http { IsAtHttp request }
    ensures value { IfOk result (λ next. next ≡ spec.moved_to url request) }
    ensures request { IfOk result IsRequest }
{
    let mut next = request;
    set_authorization_at(&url, &mut next);
    go_to(url, &mut next)?;
    Ok(next)
}
