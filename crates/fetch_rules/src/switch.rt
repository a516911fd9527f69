// How main fetch has a request fetched, or refuses it (Fetch, section 4.1 "main fetch", step 12).
ghost use Rattle.std.specs.Prelude.{◌≡◌, IfOk};
ghost use Rattle.fetch_rules.specs.Switch as spec;
ghost use Rattle.value_requests.specs.Requests.{IsRequest};

use policy_safelist::unsafe_names;
use std::alloc::Global;
use value_bytes::OutOfMemory;
use value_origins::is_origin_of;
use value_requests::{Mode, NetError, RedirectMode, Request, Tainting, is_safelisted_method};

/// How a request is fetched (Fetch, section 4.1, "main fetch", step 12).
#[derive(Drop)]
pub enum Switch {
    /// By HTTP fetch, with this response tainting.
    Fetches(Tainting),
    /// By HTTP fetch with a CORS-preflight fetch before it, with the response tainting cors.
    Preflights,
    /// Not at all: main fetch refuses it.
    Refuses(NetError),
}

// Whether the current URL is of the request's own origin, and the request's response tainting is basic.
fn is_at_home(request: &Request) -> bool
    requires { IsRequest request.now }
    ensures { result ≡ spec.is_at_home request.now }
{
    request.tainting == Tainting::Basic && is_origin_of(&request.origin, request.current_url())
}

// Whether there are CORS-unsafe request-header names.
fn has_unsafe_names(alloc: Global, request: &Request) -> Result<bool, OutOfMemory>
    ensures { IfOk result (λ has. has ≡ spec.has_unsafe_names request.now) }
{
    let names = unsafe_names(alloc, &request.headers)?;
    Ok(!names.is_empty())
}

// Whether the server is to be asked first.
fn needs_preflight(alloc: Global, request: &Request) -> Result<bool, OutOfMemory>
    ensures { IfOk result (λ needs. needs ≡ spec.needs_preflight request.now) }
{
    if request.use_preflight {
        Ok(true)
    } else if !request.unsafe_request {
        Ok(false)
    } else if !is_safelisted_method(request.method.as_slice()) {
        Ok(true)
    } else {
        has_unsafe_names(alloc, request)
    }
}

// How a request in mode no-cors is fetched.
fn no_cors_switch(redirect: RedirectMode) -> Switch
    ensures { result ≡ spec.no_cors_switch redirect }
{
    match redirect {
        RedirectMode::Follow => Switch::Fetches(Tainting::Opaque),
        _ => Switch::Refuses(NetError::NoCorsRedirectMode),
    }
}

// How a request in mode cors is fetched.
fn cors_switch(alloc: Global, request: &Request) -> Result<Switch, OutOfMemory>
    ensures { IfOk result (λ switch. switch ≡ spec.cors_switch request.now) }
{
    if needs_preflight(alloc, request)? {
        Ok(Switch::Preflights)
    } else {
        Ok(Switch::Fetches(Tainting::Cors))
    }
}

// How a request is fetched by its mode.
fn away_switch(alloc: Global, mode: Mode, request: &Request) -> Result<Switch, OutOfMemory>
    ensures { IfOk result (λ switch. switch ≡ spec.away_switch mode request.now) }
{
    match mode {
        Mode::SameOrigin => Ok(Switch::Refuses(NetError::SameOriginMode)),
        Mode::NoCors => Ok(no_cors_switch(request.redirect)),
        Mode::Cors | Mode::Navigate => cors_switch(alloc, request),
    }
}

/// How main fetch fetches a request, by the first that applies (Fetch, section 4.1, "main fetch", step 12):
/// - at a URL of its own origin, with response tainting basic: with that tainting;
/// - in mode same-origin: it refuses with `SameOriginMode`;
/// - in mode no-cors: with response tainting opaque where redirects are followed, and else it refuses with
///   `NoCorsRedirectMode`;
/// - with the use-CORS-preflight flag, or with the unsafe-request flag and a method that is not
///   CORS-safelisted or CORS-unsafe request-header names: after a CORS-preflight fetch;
/// - else with response tainting cors.
pub fn switch_of(alloc: Global, request: &Request) -> Result<Switch, OutOfMemory>
    requires { IsRequest request.now }
    ensures { IfOk result (λ switch. switch ≡ spec.switch_of request.now) }
{
    if is_at_home(request) {
        Ok(Switch::Fetches(Tainting::Basic))
    } else {
        away_switch(alloc, request.mode, request)
    }
}

/// Gives the request this response tainting. It takes no memory.
pub fn set_tainting(request: &mut Request, tainting: Tainting)
    ensures { request.new ≡ spec.with_tainting tainting request.old }
{
    request.tainting = tainting;
}
