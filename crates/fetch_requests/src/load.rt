// The request of an element that loads a resource (HTML, section 2.5.1 "create a potential-CORS request").
ghost use Rattle.std.specs.Prelude.{◌≡◌, ◌≢◌, IfOk};
ghost use Rattle.fetch_requests.specs.Loading as spec;
ghost use Rattle.value_requests.specs.Requests.{IsClient, IsRequest};

use crate::fill::load_headers;
use crate::make::{url_given, urls_of};
use std::alloc::Global;
use url::Url;
use value_bytes::{Bytes, OutOfMemory};
use value_requests::{
    Client, Credentials, CrossOrigin, Destination, LoadInit, Mode, RedirectMode, Referrer, Request,
    Tainting, TypeFault,
};

// Whether resources of this kind are only ever fetched in mode cors.
fn is_always_cors(kind: Destination) -> bool
    ensures { result ≡ spec.is_always_cors kind }
{
    matches!(kind, Destination::Font | Destination::Manifest)
}

// The state of the CORS settings attribute that counts for a kind.
fn settings_of(kind: Destination, crossorigin: CrossOrigin) -> CrossOrigin
    ensures { result ≡ spec.settings_of kind crossorigin }
{
    match crossorigin {
        CrossOrigin::Absent if is_always_cors(kind) => CrossOrigin::Anonymous,
        settings => settings,
    }
}

// The mode by the CORS settings.
fn mode_of(settings: CrossOrigin) -> Mode
    ensures { result ≡ spec.mode_of settings }
{
    match settings {
        CrossOrigin::Absent => Mode::NoCors,
        CrossOrigin::Anonymous | CrossOrigin::UseCredentials => Mode::Cors,
    }
}

// The credentials mode by the CORS settings.
fn credentials_of(settings: CrossOrigin) -> Credentials
    ensures { result ≡ spec.credentials_of settings }
{
    match settings {
        CrossOrigin::Anonymous => Credentials::SameOrigin,
        CrossOrigin::Absent | CrossOrigin::UseCredentials => Credentials::Include,
    }
}

// The request of a load for a URL.
fn made_load(
    alloc: Global,
    client: &Client,
    init: &LoadInit,
    url: Url,
) -> Result<Request, OutOfMemory>
    ensures { IfOk result (λ request. request ≡ spec.made_load client.now init.now url) }
{
    let settings = settings_of(init.kind, init.crossorigin);
    Ok(Request {
        method: Bytes::of(alloc, b"GET")?,
        urls: urls_of(alloc, url)?,
        headers: load_headers(alloc, init.kind)?,
        body: None,
        origin: client.origin.copy(alloc)?,
        mode: mode_of(settings),
        credentials: credentials_of(settings),
        redirect: RedirectMode::Follow,
        referrer: Referrer::Client,
        policy: init.referrer_policy,
        integrity: init.integrity.copy(alloc)?,
        nonce: init.nonce.copy(alloc)?,
        parser: init.parser,
        unsafe_request: false,
        use_preflight: false,
        destination: init.kind,
        tainting: Tainting::Basic,
        redirects: 0,
    })
}

/// The request that an element makes for a client to load a resource of a kind other than `Fetch`
/// (HTML, section 2.5.1, "create a potential-CORS request"): a GET whose one header is Accept, with
/// redirect mode follow, the client as its referrer, and neither the unsafe-request nor the
/// use-preflight flag.
///
/// Without the `crossorigin` attribute its mode is no-cors and its credentials mode include, but for
/// fonts and manifests, which are as with `anonymous`. With `anonymous` the mode is cors and the
/// credentials mode same-origin, with `use-credentials` cors and include.
///
/// Its faults are `LongUrl`, where the URL's text has more than 786,432 bytes, and `BadUrl`, where it is not UTF-8,
/// gives no URL against the client's, or gives one whose text has more than 8,192 bytes. A URL may have a user name and
/// a password.
pub fn new_load(
    alloc: Global,
    init: &LoadInit,
    client: &Client,
) -> Result<Result<Request, TypeFault>, OutOfMemory>
    requires kind { init.now.kind ≢ Destination.Fetch }
    requires client { IsClient client.now }
    ensures request { IfOk result (λ made. made ≡ spec.new_load client.now init.now) }
    ensures valid { IfOk result (λ made. IfOk made IsRequest) }
{
    let url = match url_given(alloc, client, init.url.as_slice())? {
        Ok(url) => url,
        Err(fault) => return Ok(Err(fault)),
    };
    let request = made_load(alloc, client, init, url)?;
    Ok(Ok(request))
}
