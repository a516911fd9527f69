// Requests that go over https instead: upgraded ones, and those to known hosts (Fetch, section 4.1 "main fetch",
// steps 5, 6 and 10).
ghost use Rattle.std.specs.Prelude.{◌≡◌, IfOk, IsTrue, Ok};
ghost use Rattle.url.specs.Parser.{Gives, GivesBy};
ghost use Rattle.fetch_rules.specs.Upgrading as spec;
ghost use Rattle.value_requests.specs.Requests.{IsRequest, IsAtHttp, is_http_url};

use policy_checks::upgrade;
use policy_csp::Compiled;
use url::{ParseResult, Url};
use value_bytes::OutOfMemory;
use value_requests::{Client, Request};

// Gives an http or https URL the scheme https.
fn set_https(url: &mut Url) -> ParseResult<()>
    requires { IsTrue (is_http_url url.old) }
    ensures { GivesBy (λ _. url.new) result (Ok (spec.with_https url.old)) }
{
    if url.scheme() == "https" {
        return Ok(());
    }
    url.set_scheme("https")
}

// A copy of an http or https URL with the scheme https, or why it could not be made.
fn https_copy(url: &Url) -> ParseResult<Url>
    requires { IsTrue (is_http_url url.now) }
    ensures { Gives result (Ok (spec.with_https url.now)) }
{
    let mut copy = url.clone()?;
    set_https(&mut copy)?;
    Ok(copy)
}

// A copy of an http or https URL with the scheme https.
fn with_https(url: &Url) -> Result<Url, OutOfMemory>
    requires { IsTrue (is_http_url url.now) }
    ensures { IfOk result (λ copy. copy ≡ spec.with_https url.now) }
{
    match https_copy(url) {
        Ok(copy) => Ok(copy),
        Err(_) => Err(OutOfMemory),
    }
}

/// Gives the current URL of a request, which is http or https, the scheme https; a port 443 is then the
/// default one and is left out (URL Standard, the scheme's setter). It is what becomes of a request to a
/// known HSTS host (Fetch, section 4.1, "main fetch", step 10) and of one that is upgraded. The only error is want of
/// memory, which a URL of 4 GB counts as; after it the request is some request for an http or https URL.
pub fn secure(request: &mut Request) -> Result<(), OutOfMemory>
    requires valid { IsRequest request.old }
    requires http { IsAtHttp request.old }
    ensures value { IfOk result (λ _. request.new ≡ spec.secured request.old) }
    ensures valid { IsRequest request.new }
    ensures http { IsAtHttp request.new }
{
    let url = with_https(request.current_url())?;
    request.urls.set_last(url);
    Ok(())
}

// The same, where so.
fn secure_where(yes: bool, request: &mut Request) -> Result<(), OutOfMemory>
    requires valid { IsRequest request.old }
    requires http { IsAtHttp request.old }
    ensures value { IfOk result (λ _. request.new ≡ spec.secured_where yes request.old) }
    ensures valid { IsRequest request.new }
    ensures http { IsAtHttp request.new }
{
    if yes { secure(request) } else { Ok(()) }
}

/// Gives the current URL of a client's request, which is http or https, the scheme https where an enforced
/// policy has `upgrade-insecure-requests` (Upgrade Insecure Requests, "upgrade request to a potentially
/// trustworthy URL, if appropriate"), or where it is for upgradeable content that would be mixed (Mixed Content,
/// section 4, "upgrade a mixed content request to a potentially trustworthy URL, if appropriate"): steps 5 and 6 of
/// main fetch. The only error is want of memory, as that of `secure`.
pub fn upgrade_request(
    request: &mut Request,
    client: &Client,
    policies: &Compiled,
) -> Result<(), OutOfMemory>
    requires valid { IsRequest request.old }
    requires http { IsAtHttp request.old }
    ensures value { IfOk result (λ _. request.new ≡ spec.upgraded client.now policies.now request.old) }
    ensures valid { IsRequest request.new }
    ensures http { IsAtHttp request.new }
{
    secure_where(policies.upgrades(), request)?;
    let mixed = upgrade(request, &client.origin, &client.top);
    secure_where(mixed, request)
}
