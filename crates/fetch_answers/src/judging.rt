// What the head of an answer is refused for, and whether a redirect is followed (Fetch, section 4.4 "HTTP fetch",
// steps 4.4, 5 and 6).
ghost use Rattle.std.specs.Prelude.{◌≡◌, IfOk};
ghost use Rattle.fetch_answers.specs.Judging as spec;
ghost use Rattle.policy_filter.specs.Views as views;
ghost use Rattle.value_requests.specs.Requests.{IsRequest};

use policy_checks::{is_blocked, passes_check};
use std::alloc::Global;
use value_bytes::OutOfMemory;
use value_headers::HeaderList;
use value_requests::{Head, NetError, Request, Tainting, is_redirect_status};

// The network error of the check of a response by the request's tainting.
fn check_error(
    alloc: Global,
    request: &Request,
    headers: &HeaderList,
) -> Result<Option<NetError>, OutOfMemory>
    requires { IsRequest request.now }
    ensures { IfOk result (λ error. error ≡ spec.check_error request.now.tainting request.now headers.now) }
{
    match request.tainting {
        Tainting::Basic => Ok(None),
        Tainting::Cors => {
            let fails = !passes_check(alloc, request, headers)?;
            Ok(fails.then_some(NetError::CorsCheck))
        }
        Tainting::Opaque => {
            let blocked = is_blocked(alloc, request, headers)?;
            Ok(blocked.then_some(NetError::Corp))
        }
    }
}

// Whether the head is a redirect in redirect mode error.
fn is_error(request: &Request, head: &Head) -> bool
    ensures { result ≡ views.is_error request.now head.now }
{
    is_redirect_status(head.status) && request.redirect.is_error()
}

/// Whether the response of a head is an opaque-redirect one: the head is a redirect, and the redirect
/// mode is manual (Fetch, "HTTP fetch", step 6.2). It takes no memory.
pub fn is_manual(request: &Request, head: &Head) -> bool
    ensures { result ≡ views.is_manual request.now head.now }
{
    is_redirect_status(head.status) && request.redirect.is_manual()
}

/// Whether a head is a redirect that is to be followed, where it leads somewhere: the redirect mode is
/// follow (Fetch, "HTTP fetch", step 6.2). It takes no memory.
pub fn is_to_follow(request: &Request, head: &Head) -> bool
    ensures { result ≡ spec.is_to_follow request.now head.now }
{
    is_redirect_status(head.status) && request.redirect.is_follow()
}

/// The network error that the head of an answer is refused for, by the first of these that applies
/// (Fetch, "HTTP fetch", steps 4.4, 5 and 6.2): `CorsCheck` where the tainting is cors and the CORS check
/// fails; `Corp` where the tainting is opaque and the cross-origin resource policy check fails;
/// `RedirectMode` where the head is a redirect and the redirect mode is error; none else.
pub fn refusal_after(
    alloc: Global,
    request: &Request,
    head: &Head,
) -> Result<Option<NetError>, OutOfMemory>
    requires { IsRequest request.now }
    ensures { IfOk result (λ error. error ≡ spec.refusal_after request.now head.now) }
{
    match check_error(alloc, request, &head.headers)? {
        Some(error) => Ok(Some(error)),
        None => Ok(is_error(request, head).then_some(NetError::RedirectMode)),
    }
}
