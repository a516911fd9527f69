// The permitted view of a head: what a document may learn of an answer (this project's own).
ghost use Rattle.std.specs.Prelude.{◌≡◌, filter, IfOk, map};
ghost use Rattle.policy_filter.specs.Filtered.{exposed_to};
ghost use Rattle.policy_filter.specs.Views as spec;
ghost use Rattle.policy_checks.specs.PermittedNames.{preflight_status as status_told, preflight_view as preflight_told};
ghost use Rattle.value_requests.specs.Requests.{IsRequest};

use crate::keep::Keep;
use crate::listed::exposed_in;
use crate::responses::{exposure_to, without_forbidden};
use policy_checks::{is_blocked, passes_check};
use std::alloc::Global;
use value_bytes::OutOfMemory;
use value_headers::HeaderList;
use value_requests::{Destination, Head, Hop, Request, Tainting, is_ok_status, is_redirect_status};

// The headers that following a redirect rests on.
const REDIRECT_NAMES: [&[u8]; 2] = [b"Location", b"Referrer-Policy"];

// The headers that blocking for a MIME type rests on.
const TYPE_NAMES: [&[u8]; 2] = [b"X-Content-Type-Options", b"Content-Type"];

// Whether the check of a response by the request's tainting fails.
fn is_refused(alloc: Global, request: &Request, headers: &HeaderList) -> Result<bool, OutOfMemory>
    requires { IsRequest request.now }
    ensures { IfOk result (λ refused. refused ≡ spec.is_refused request.now headers.now) }
{
    match request.tainting {
        Tainting::Basic => Ok(false),
        Tainting::Cors => Ok(!passes_check(alloc, request, headers)?),
        Tainting::Opaque => is_blocked(alloc, request, headers),
    }
}

// Whether the head is a redirect that is not to be followed.
fn is_unfollowed(request: &Request, head: &Head) -> bool
    ensures { result ≡ spec.is_unfollowed request.now head.now }
{
    is_redirect_status(head.status) && !request.redirect.is_follow()
}

// Whether the head is a redirect that is followed.
fn is_followed(request: &Request, head: &Head) -> bool
    ensures { result ≡ spec.is_followed request.now head.now }
{
    is_redirect_status(head.status)
        && request.redirect.is_follow()
        && head.headers.contains(b"Location")
}

// Of a head, this status and the headers that the check of the tainting rests on or that have these
// names.
fn told(
    alloc: Global,
    head: &Head,
    tainting: Tainting,
    names: &[&[u8]],
    status: u16,
) -> Result<Head, OutOfMemory>
    ensures { IfOk result (λ view. view
        ≡ spec.told tainting (map (λ name. name.now) names.now) status head.now) }
{
    let headers = head
        .headers
        .copy_where(alloc, &Keep::Told(tainting, names))?;
    Ok(Head { status, headers })
}

// Of the status that answers a preflight, whether it is an ok status.
fn preflight_status(status: u16) -> u16
    ensures { result ≡ status_told status }
{
    if is_ok_status(status) { 200 } else { 500 }
}

// Of a head that answers a preflight, what a verdict on it rests on.
fn preflight_view(alloc: Global, head: &Head) -> Result<Head, OutOfMemory>
    ensures { IfOk result (λ view. view ≡ preflight_told head.now) }
{
    let headers = head.headers.copy_where(alloc, &Keep::Preflight)?;
    let status = preflight_status(head.status);
    Ok(Head { status, headers })
}

// Of an opaque response, what blocks it.
fn opaque_view(alloc: Global, request: &Request, head: &Head) -> Result<Head, OutOfMemory>
    ensures { IfOk result (λ view. view ≡ spec.opaque_view request.now head.now) }
{
    match request.destination {
        Destination::Style | Destination::Script => {
            told(alloc, head, Tainting::Opaque, &TYPE_NAMES, 200)
        }
        _ => told(alloc, head, Tainting::Opaque, &[], 200),
    }
}

// The headers that its filtered response keeps and those that the end of main fetch rests on.
fn cors_headers(
    alloc: Global,
    request: &Request,
    headers: &HeaderList,
) -> Result<HeaderList, OutOfMemory>
    ensures { IfOk result (λ list. list
        ≡ filter (spec.is_told_cors (exposed_to request.now headers.now)) headers.now) }
{
    let exposure = exposure_to(alloc, request, headers)?;
    let exposed = exposed_in(alloc, exposure, headers.as_slice())?;
    headers.copy_where(alloc, &Keep::ToldCors(&exposed))
}

// Of a CORS response, its status, what its filtered response keeps and what the end of main fetch
// rests on.
fn cors_view(alloc: Global, request: &Request, head: &Head) -> Result<Head, OutOfMemory>
    ensures { IfOk result (λ view. view ≡ spec.cors_view request.now head.now) }
{
    let headers = cors_headers(alloc, request, &head.headers)?;
    Ok(Head {
        status: head.status,
        headers,
    })
}

// Of a basic response, all but the headers with a forbidden response-header name.
fn basic_view(alloc: Global, head: &Head) -> Result<Head, OutOfMemory>
    ensures { IfOk result (λ view. view ≡ spec.basic_view head.now) }
{
    let headers = without_forbidden(alloc, &head.headers)?;
    Ok(Head {
        status: head.status,
        headers,
    })
}

// Of a response that is handed over, by the request's tainting.
fn response_view(alloc: Global, request: &Request, head: &Head) -> Result<Head, OutOfMemory>
    ensures { IfOk result (λ view. view ≡ spec.response_view request.now.tainting request.now head.now) }
{
    match request.tainting {
        Tainting::Basic => basic_view(alloc, head),
        Tainting::Cors => cors_view(alloc, request, head),
        Tainting::Opaque => opaque_view(alloc, request, head),
    }
}

/// What a document may learn of a head that answers its request, which was sent as this hop or, for
/// it, as a preflight: its permitted view, which is this project's own definition. It holds the
/// status and the headers that the rules of a fetch look at (Fetch, sections 4.1, 4.4 and 4.5), by
/// the first case that applies: the answer to a preflight, a response that the CORS check or the
/// cross-origin resource policy check refuses, a redirect that is not to be followed, one that is
/// followed, a response by the request's tainting. Each header is compared with the names of its
/// case, and of a CORS response with the exposed names that are listed, or looked up in a set of them
/// where both are more than eight. The only error is want of memory.
pub fn hide(alloc: Global, request: &Request, hop: &Hop, head: &Head) -> Result<Head, OutOfMemory>
    requires { IsRequest request.now }
    ensures { IfOk result (λ view. view ≡ spec.permitted_view request.now hop.now head.now) }
{
    if hop.preflight {
        preflight_view(alloc, head)
    } else if is_refused(alloc, request, &head.headers)? {
        told(alloc, head, request.tainting, &[], 200)
    } else if is_unfollowed(request, head) {
        told(alloc, head, request.tainting, &[], 302)
    } else if is_followed(request, head) {
        told(alloc, head, request.tainting, &REDIRECT_NAMES, head.status)
    } else {
        response_view(alloc, request, head)
    }
}
