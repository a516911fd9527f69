// How a fetch ends with its response, and with the body of it (Fetch, section 4.1 "main fetch", steps 14 to 23).
ghost use Rattle.std.specs.Prelude.{◌≡◌, IfOk};
ghost use Rattle.policy_filter.specs.Blocks as blocks;
ghost use Rattle.policy_filter.specs.Laws as where_asked;
ghost use Rattle.value_requests.specs.Requests.{IsRequest};
ghost use Rattle.fetch_answers.specs.Endings as spec;

use crate::answers::Ended;
use crate::bodies::{has_null_body, is_coded};
use crate::judging::is_manual;
use policy_filter::filtered;
use policy_integrity::{matches, parse_metadata};
use std::alloc::Global;
use value_bytes::OutOfMemory;
use value_headers::HeaderList;
use value_lists::{essence_of, mime_blocked, nosniff, nosniff_blocked};
use value_requests::{
    BodyEnd, Destination, Head, NetError, Outcome, Request, Response, Tainting, slice_of,
};

// Whether the destination is that of a `fetch`.
fn is_fetch(destination: Destination) -> bool
    ensures { result ≡ where_asked.is_fetch destination }
{
    matches!(destination, Destination::Fetch)
}

// Whether the destination is script.
fn is_script(destination: Destination) -> bool
    ensures { result ≡ blocks.is_script destination }
{
    matches!(destination, Destination::Script)
}

// Whether the destination is style.
fn is_style(destination: Destination) -> bool
    ensures { result ≡ blocks.is_style destination }
{
    matches!(destination, Destination::Style)
}

// Whether the tainting is opaque.
fn is_opaque_tainted(tainting: Tainting) -> bool
    ensures { result ≡ where_asked.is_opaque_tainted tainting }
{
    matches!(tainting, Tainting::Opaque)
}

// Whether the request asks for no integrity.
fn is_trusting(request: &Request) -> bool
    ensures { result ≡ spec.is_trusting request.now }
{
    request.integrity.is_empty()
}

// What a response comes to.
fn handed_over(request: &Request, response: Response) -> Outcome
    ensures { result ≡ spec.handed_over request.now response }
{
    if is_fetch(request.destination) {
        Outcome::Answer(response)
    } else {
        Outcome::Loaded
    }
}

// The response of a head, before its body is read.
fn response_of(alloc: Global, request: &Request, head: Head) -> Result<Response, OutOfMemory>
    requires { IsRequest request.now }
    ensures { IfOk result (λ response. response ≡ spec.response_of request.now head) }
{
    let manual = is_manual(request, &head);
    filtered(alloc, request, head, manual)
}

// The network error that a response is blocked for due to its MIME type, or due to nosniff.
fn error_of_type(
    alloc: Global,
    destination: Destination,
    headers: &HeaderList,
) -> Result<Option<NetError>, OutOfMemory>
    ensures { IfOk result (λ error. error ≡ spec.type_error destination headers.now) }
{
    let script = is_script(destination);
    let essence = essence_of(alloc, headers)?;
    if mime_blocked(slice_of(&essence), script) {
        Ok(Some(NetError::Mime))
    } else if nosniff(headers)
        && nosniff_blocked(slice_of(&essence), script, is_style(destination))
    {
        Ok(Some(NetError::NoSniff))
    } else {
        Ok(None)
    }
}

// The same; scripts and styles alone are looked at.
fn type_error(
    alloc: Global,
    destination: Destination,
    headers: &HeaderList,
) -> Result<Option<NetError>, OutOfMemory>
    ensures { IfOk result (λ error. error ≡ spec.type_error destination headers.now) }
{
    if is_script(destination) || is_style(destination) {
        error_of_type(alloc, destination, headers)
    } else {
        Ok(None)
    }
}

// The network error that a response is blocked for.
fn block_error(
    alloc: Global,
    blocked: bool,
    destination: Destination,
    headers: &HeaderList,
) -> Result<Option<NetError>, OutOfMemory>
    ensures { IfOk result (λ error. error ≡ spec.block_error blocked destination headers.now) }
{
    if blocked {
        return Ok(Some(NetError::CspResponse));
    }
    type_error(alloc, destination, headers)
}

// Whether the body of the response is null.
fn is_bodiless(request: &Request, head: &Head) -> bool
    ensures { result ≡ spec.is_bodiless request.now head.now }
{
    is_opaque_tainted(request.tainting) || is_manual(request, head) || has_null_body(request, head)
}

// A response whose body is null.
fn without_body(request: &Request, response: Response) -> Outcome
    ensures { result ≡ spec.without_body request.now response }
{
    if is_trusting(request) {
        handed_over(request, response)
    } else {
        Outcome::Error(NetError::Integrity)
    }
}

// Whether the body is read.
fn is_read(request: &Request) -> bool
    ensures { result ≡ spec.is_read request.now }
{
    is_fetch(request.destination) || !is_trusting(request)
}

// A response whose body is read, unless it is coded.
fn ended_read(alloc: Global, request: &Request, head: Head) -> Result<Ended, OutOfMemory>
    requires { IsRequest request.now }
    ensures { IfOk result (λ end. end ≡ spec.ended_read request.now head) }
{
    if is_coded(alloc, &head)? {
        Ok(Ended::Over(Outcome::Error(NetError::Coding)))
    } else {
        Ok(Ended::Reads(response_of(alloc, request, head)?))
    }
}

// A response that is not blocked.
fn ended_unblocked(alloc: Global, request: &Request, head: Head) -> Result<Ended, OutOfMemory>
    requires { IsRequest request.now }
    ensures { IfOk result (λ end. end ≡ spec.ended_unblocked request.now head) }
{
    if is_bodiless(request, &head) {
        let response = response_of(alloc, request, head)?;
        Ok(Ended::Over(without_body(request, response)))
    } else if !is_read(request) {
        Ok(Ended::Over(Outcome::Loaded))
    } else {
        ended_read(alloc, request, head)
    }
}

/// How a fetch ends with the head of its response (Fetch, the end of "main fetch"), where an enforced
/// policy of the document blocks the response or not (`blocked`, as `Compiled::check_response` of policy_csp
/// says). It is over, by the first of these that applies: with `CspResponse` where it is blocked; with
/// `Mime` or `NoSniff` where it is blocked due to its MIME type or due to nosniff; where its body is null
/// (of an opaque or an opaque-redirect response, of HEAD, of a null body status) with `Integrity` if
/// there is an integrity text, else handed over; as `Loaded` for a load without an integrity text, whose
/// body is not read (this project's own choice); with `Coding` where its body is coded. Else the body of
/// the filtered response is to be read. The only error is want of memory.
pub fn ended(
    alloc: Global,
    request: &Request,
    head: Head,
    blocked: bool,
) -> Result<Ended, OutOfMemory>
    requires { IsRequest request.now }
    ensures { IfOk result (λ end. end ≡ spec.ended blocked request.now head) }
{
    match block_error(alloc, blocked, request.destination, &head.headers)? {
        Some(error) => Ok(Ended::Over(Outcome::Error(error))),
        None => ended_unblocked(alloc, request, head),
    }
}

// Whether the body came whole and matches an integrity text.
fn is_matched(alloc: Global, integrity: &[u8], end: &BodyEnd) -> Result<bool, OutOfMemory>
    ensures { IfOk result (λ matched. matched ≡ spec.is_matched integrity.now end.now) }
{
    match end {
        BodyEnd::Whole(body) => {
            let metadata = parse_metadata(alloc, integrity)?;
            matches(alloc, body.as_slice(), &metadata)
        }
        _ => Ok(false),
    }
}

// Whether the body has the integrity that the request asks for.
fn is_accepted(alloc: Global, request: &Request, end: &BodyEnd) -> Result<bool, OutOfMemory>
    ensures { IfOk result (λ accepted. accepted ≡ spec.is_accepted request.now end.now) }
{
    if is_trusting(request) {
        return Ok(true);
    }
    is_matched(alloc, request.integrity.as_slice(), end)
}

// The response with this body.
fn with_body(response: Response, end: BodyEnd) -> Response
    ensures { result ≡ record response { body = end } }
{
    Response {
        body: end,
        ..response
    }
}

/// What a response comes to whose body came to this end (Fetch, the end of "main fetch", and Subresource
/// Integrity, "do bytes match metadataList"): the response with the body, or `Loaded`; where the request
/// has an integrity text, `Integrity` unless the body came whole and matches it. The only error is want
/// of memory.
pub fn after_body(
    alloc: Global,
    request: &Request,
    response: Response,
    end: BodyEnd,
) -> Result<Outcome, OutOfMemory>
    ensures { IfOk result (λ outcome. outcome ≡ spec.after_body request.now response end) }
{
    if is_accepted(alloc, request, &end)? {
        Ok(handed_over(request, with_body(response, end)))
    } else {
        Ok(Outcome::Error(NetError::Integrity))
    }
}
