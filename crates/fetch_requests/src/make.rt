// The request that a script's `fetch` makes (Fetch, sections 5.4 and 5.6).
ghost use Rattle.std.specs.Prelude.{◌≡◌, ◌∷◌, ◌<◌, ◌^◌, [], length, IfOk};
ghost use Rattle.fetch_requests.specs.Making as spec;
ghost use Rattle.value_requests.specs.Methods.{normalized};
ghost use Rattle.value_requests.specs.Requests.{IsClient, IsRequest};

use crate::fault::fault_of;
use crate::fill::header_list;
use std::alloc::Global;
use url::Url;
use value_bytes::{Bytes, OutOfMemory, copy_of};
use value_requests::{
    Client, Destination, Init, Referrer, Request, Tainting, TypeFault, Urls, normalized_method,
    unless_long, url_against,
};

// How many bytes the text of a URL has at most.
const MOST_URL_TEXT: usize = 786_432;

// The URL that a text gives against the client's, or why it gives none.
pub(crate) fn url_given(
    alloc: Global,
    client: &Client,
    text: &[u8],
) -> Result<Result<Url, TypeFault>, OutOfMemory>
    ensures { IfOk result (λ url. url ≡ spec.url_given client.now text.now) }
{
    if text.len() > MOST_URL_TEXT {
        return Ok(Err(TypeFault::LongUrl));
    }
    let url = unless_long(url_against(alloc, &client.url, text)?);
    Ok(url.ok_or(TypeFault::BadUrl))
}

// The referrer that a script asks for: the client, or none.
fn referrer_of(client_referrer: bool) -> Referrer
    ensures { result ≡ spec.referrer_of client_referrer }
{
    if client_referrer {
        Referrer::Client
    } else {
        Referrer::NoReferrer
    }
}

// The URL list of one URL.
pub(crate) fn urls_of(alloc: Global, url: Url) -> Result<Urls, OutOfMemory>
    ensures { IfOk result (λ urls. urls ≡ url ∷ []) }
{
    let mut urls = Urls::new(alloc);
    urls.push(url)?;
    Ok(urls)
}

// The request of an init without faults, by its normalized method.
fn made(
    alloc: Global,
    client: &Client,
    init: &Init,
    method: Bytes,
    url: Url,
) -> Result<Request, OutOfMemory>
    requires { method ≡ normalized init.now.method }
    ensures { IfOk result (λ request. request ≡ spec.made client.now init.now url) }
{
    Ok(Request {
        method,
        urls: urls_of(alloc, url)?,
        headers: header_list(alloc, init)?,
        body: copy_of(alloc, &init.body)?,
        origin: client.origin.copy(alloc)?,
        mode: init.mode,
        credentials: init.credentials,
        redirect: init.redirect,
        referrer: referrer_of(init.client_referrer),
        policy: init.referrer_policy,
        integrity: init.integrity.copy(alloc)?,
        nonce: Bytes::new(alloc),
        parser: false,
        unsafe_request: true,
        use_preflight: init.upload,
        destination: Destination::Fetch,
        tainting: Tainting::Basic,
        redirects: 0,
    })
}

/// The request that a script's `fetch` makes for a client, or its first fault (Fetch, sections 5.4
/// and 5.6). Faults are looked for in this order:
///
/// 1. `LongUrl`: the URL's text has more than 786,432 bytes.
/// 2. `BadUrl`: it is not UTF-8, gives no URL against the client's, or gives one whose text has more than 8,192 bytes.
/// 3. `UrlCredentials`: the URL has a user name or a password.
/// 4. `BadMethod`: the method is no token.
/// 5. `ForbiddenMethod`: it is CONNECT, TRACE or TRACK, in any ASCII case.
/// 6. `BodyWithGet`: there is a body, and the normalized method is GET or HEAD.
/// 7. `NoCorsMethod`: the mode is no-cors, and that method is not CORS-safelisted.
/// 8. `BadHeader`, with the index of the first header whose name is no token or whose value is none.
/// 9. `NavigateMode`: the mode is navigate.
/// 10. `TooLong`: the method and the headers, as they are given, have more than 16,384 bytes
///    together, or the body has more than 65,536.
///
/// The headers of the request are the given ones that the guard lets in, then the type of its body
/// and Accept, where none of their names is given.
pub fn new_request(
    alloc: Global,
    init: &Init,
    client: &Client,
) -> Result<Result<Request, TypeFault>, OutOfMemory>
    requires client { IsClient client.now }
    requires counted { length init.now.headers < 2 ^ 32 }
    ensures request { IfOk result (λ made. made ≡ spec.new_request client.now init.now) }
    ensures valid { IfOk result (λ made. IfOk made IsRequest) }
{
    let url = match url_given(alloc, client, init.url.as_slice())? {
        Ok(url) => url,
        Err(fault) => return Ok(Err(fault)),
    };
    let method = normalized_method(alloc, init.method.as_slice())?;
    if let Some(fault) = fault_of(init, method.as_slice(), &url) {
        return Ok(Err(fault));
    }
    let request = made(alloc, client, init, method, url)?;
    Ok(Ok(request))
}
