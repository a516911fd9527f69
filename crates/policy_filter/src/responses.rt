// Filtered responses: basic, CORS, opaque and opaque-redirect ones (Fetch, section 2.2.6).
ghost use Rattle.std.specs.Prelude.{◌≡◌, false, filter, IfOk, IsOk, OnOk};
ghost use Rattle.policy_filter.specs.Filtered as spec;
ghost use Rattle.policy_filter.specs.Names.{is_safelisted};
ghost use Rattle.policy_filter.specs.Private.Exposing as private;
ghost use Rattle.value_headers.specs.Spelling.{HaveOneSpelling};
ghost use Rattle.value_requests.specs.Requests.{IsRequest};
ghost use Rattle.value_requests.specs.declared.mode.Tainting.TheVariants.{Opaque};

use crate::exposed::{Exposure, exposure_of};
use crate::keep::Keep;
use crate::listed::exposed_in;
use std::alloc::Global;
use value_bytes::{Bytes, OutOfMemory};
use value_headers::{HeaderList, PackedHeaders};
use value_requests::{BodyEnd, Head, Request, Response, ResponseKind, Tainting, without_fragment};

// The URL of a response.
fn response_url(alloc: Global, request: &Request) -> Result<Bytes, OutOfMemory>
    requires { IsRequest request.now }
    ensures { IfOk result (λ url. url ≡ spec.response_url request.now) }
{
    Bytes::of(alloc, without_fragment(request.current_url()).as_bytes())
}

// The headers without those that have a forbidden response-header name.
pub fn without_forbidden(alloc: Global, headers: &HeaderList) -> Result<HeaderList, OutOfMemory>
    ensures { IfOk result (λ list. list ≡ spec.without_forbidden headers.now) }
{
    headers.copy_where(alloc, &Keep::Allowed)
}

// What a header list exposes to a request.
pub fn exposure_to(
    alloc: Global,
    request: &Request,
    headers: &HeaderList,
) -> Result<Exposure, OutOfMemory>
    ensures { IfOk result (λ exposure. exposure ≡ private.exposure_to request.now headers.now) }
{
    exposure_of(alloc, headers, request.credentials.is_include())
}

// Takes out the headers that have a forbidden response-header name.
fn take_out_forbidden(headers: &mut HeaderList)
    ensures { headers.new ≡ spec.without_forbidden headers.old }
{
    headers.retain(&Keep::Allowed);
}

// Keeps the headers with a CORS-safelisted response-header name, given the names that the list exposes
// to a request.
fn keep_safelisted(
    alloc: Global,
    request: &Request,
    headers: &mut HeaderList,
) -> Result<(), OutOfMemory>
    ensures { OnOk result (headers.new
        ≡ filter (is_safelisted (spec.exposed_to request.now headers.old)) headers.old) }
{
    let exposure = exposure_to(alloc, request, headers)?;
    let exposed = exposed_in(alloc, exposure, headers.as_slice())?;
    headers.retain(&Keep::Safelisted(&exposed));
    Ok(())
}

// "basic filtered response"
fn basic_filtered(alloc: Global, request: &Request, head: Head) -> Result<Response, OutOfMemory>
    requires { IsRequest request.now }
    ensures value { IfOk result (λ response. response ≡ spec.basic_filtered request.now head) }
    ensures spelled { IfOk result (λ response. HaveOneSpelling response.headers) }
{
    let url = response_url(alloc, request)?;
    let Head {
        status,
        mut headers,
    } = head;
    take_out_forbidden(&mut headers);
    headers.law_one_spelling();
    Ok(Response {
        kind: ResponseKind::Basic,
        status,
        url: Some(url),
        headers: PackedHeaders::of(alloc, &headers)?,
        body: BodyEnd::Null,
    })
}

// "CORS filtered response"
fn cors_filtered(alloc: Global, request: &Request, head: Head) -> Result<Response, OutOfMemory>
    requires { IsRequest request.now }
    ensures value { IfOk result (λ response. response ≡ spec.cors_filtered request.now head) }
    ensures spelled { IfOk result (λ response. HaveOneSpelling response.headers) }
{
    let url = response_url(alloc, request)?;
    let Head {
        status,
        mut headers,
    } = head;
    keep_safelisted(alloc, request, &mut headers)?;
    headers.law_one_spelling();
    Ok(Response {
        kind: ResponseKind::Cors,
        status,
        url: Some(url),
        headers: PackedHeaders::of(alloc, &headers)?,
        body: BodyEnd::Null,
    })
}

// "opaque filtered response"
fn opaque_filtered(alloc: Global) -> Response
    ensures value { result ≡ spec.opaque_filtered }
    ensures spelled { HaveOneSpelling result.headers }
{
    Response {
        kind: ResponseKind::Opaque,
        status: 0,
        url: None,
        headers: PackedHeaders::new(alloc),
        body: BodyEnd::Null,
    }
}

// "opaque-redirect filtered response"
fn redirect_filtered(alloc: Global, request: &Request) -> Result<Response, OutOfMemory>
    requires { IsRequest request.now }
    ensures value { IfOk result (λ response. response ≡ spec.redirect_filtered request.now) }
    ensures spelled { IfOk result (λ response. HaveOneSpelling response.headers) }
{
    let url = response_url(alloc, request)?;
    Ok(Response {
        kind: ResponseKind::OpaqueRedirect,
        status: 0,
        url: Some(url),
        headers: PackedHeaders::new(alloc),
        body: BodyEnd::Null,
    })
}

/// The filtered response of a head (Fetch, section 2.2.6), whose body is null until it is read: an
/// opaque-redirect one where the head is a redirect and the redirect mode is manual, which `manual`
/// tells, and else a basic, CORS or opaque one by the request's tainting. Headers are in order and as
/// they are spelled, equal names in one spelling. Each header of a CORS response is compared with the
/// exposed names that are listed, or looked up in a set of them where both are more than eight. The
/// only error is want of memory, which an opaque response does not have.
pub fn filtered(
    alloc: Global,
    request: &Request,
    head: Head,
    manual: bool,
) -> Result<Response, OutOfMemory>
    requires { IsRequest request.now }
    ensures value { IfOk result (λ response. response ≡ spec.filtered request.now head manual) }
    ensures opaque { manual ≡ false → request.now.tainting ≡ Opaque → IsOk result }
    ensures spelled { IfOk result (λ response. HaveOneSpelling response.headers) }
{
    if manual {
        return redirect_filtered(alloc, request);
    }
    match request.tainting {
        Tainting::Basic => basic_filtered(alloc, request, head),
        Tainting::Cors => cors_filtered(alloc, request, head),
        Tainting::Opaque => Ok(opaque_filtered(alloc)),
    }
}
