// The request that rules look at.
ghost use Rattle.std.specs.Prelude.{IfOk};
ghost use Rattle.c_checks.specs.Requested as spec;
ghost use Rattle.c_rules.specs.Answers.{IsUnlessMemory};
ghost use Rattle.value_requests.specs.Requests.{IsRequest};

use c_fetch::{Asked, Settings, requested};
use c_rules::{Refusal, read_web_url};
use fetch_answers::moved_to;
use fetch_rules::is_at_http;
use std::alloc::Global;
use url::Url;
use value_requests::{MOST_REDIRECTS, Request};

/// The request that a client makes of what is asked for (Fetch, sections 5.4 and 5.6; HTML, section 2.5.1).
/// `NoRequest` where none can be made of it.
pub fn request_of(alloc: Global, settings: &Settings, asked: &Asked) -> Result<Request, Refusal>
    ensures told { IsUnlessMemory result (spec.request_of settings.now asked.now) }
    ensures valid { IfOk result IsRequest }
{
    match requested(alloc, settings, asked)? {
        Ok(request) => Ok(request),
        Err(_) => Err(Refusal::NoRequest),
    }
}

// The request after a redirect to a URL that keeps its method.
fn redirected_to(request: Request, url: Url) -> Result<Request, Refusal>
    requires { IsRequest request }
    ensures told { IsUnlessMemory result (spec.redirected_to request url) }
    ensures valid { IfOk result IsRequest }
{
    if !is_at_http(&request) || request.redirects >= MOST_REDIRECTS {
        return Err(Refusal::NoRequest);
    }
    Ok(moved_to(request, url)?)
}

// The request, or after a redirect to the URL that a text gives, where it is not empty.
fn redirected_by(alloc: Global, request: Request, redirect: &[u8]) -> Result<Request, Refusal>
    requires { IsRequest request }
    ensures told { IsUnlessMemory result (spec.redirected_by redirect.now request) }
    ensures valid { IfOk result IsRequest }
{
    if redirect.is_empty() {
        return Ok(request);
    }
    let url = read_web_url(alloc, redirect)?;
    redirected_to(request, url)
}

/// The request that a client makes of what is asked for, and after a redirect to a URL that keeps its method and names
/// no policy (Fetch, "HTTP-redirect fetch"); an empty text stands for no redirect. `NoRequest` where none can be made
/// of what is asked for, or its URL is neither http nor https, so that nothing redirects it; `NotUrl` or `NotHttp` of
/// the URL.
pub fn request_at(
    alloc: Global,
    settings: &Settings,
    asked: &Asked,
    redirect: &[u8],
) -> Result<Request, Refusal>
    ensures told { IsUnlessMemory result (spec.request_at settings.now asked.now redirect.now) }
    ensures valid { IfOk result IsRequest }
{
    let request = request_of(alloc, settings, asked)?;
    redirected_by(alloc, request, redirect)
}
