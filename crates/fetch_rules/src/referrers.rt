// The referrer of a request, by its referrer policy (Fetch, section 4.1 "main fetch", steps 8 and 9).
ghost use Rattle.std.specs.Prelude.{◌≡◌, IfOk, IsTrue};
ghost use Rattle.fetch_rules.specs.Policies.{with_policy as policied};
ghost use Rattle.fetch_rules.specs.Referrers as spec;
ghost use Rattle.value_requests.specs.Requests.{IsAtHttp, IsClient, IsRequest, is_determined, is_http_referrer};
ghost use Rattle.value_requests.specs.Requests.{is_http_url, is_policy};

use crate::policies::set_policy;
use policy_checks::determine;
use std::alloc::Global;
use url::Url;
use value_bytes::OutOfMemory;
use value_requests::{Client, Referrer, ReferrerPolicy, Request};

// A URL as a referrer, or none.
fn referrer_of(url: Option<Url>) -> Referrer
    ensures { result ≡ spec.referrer_of url }
{
    match url {
        None => Referrer::NoReferrer,
        Some(url) => Referrer::Address(url),
    }
}

// What a referrer becomes on the way to a URL.
fn determined(
    alloc: Global,
    client: &Client,
    policy: ReferrerPolicy,
    target: &Url,
    referrer: &Referrer,
) -> Result<Referrer, OutOfMemory>
    requires client { IsClient client.now }
    requires policy { IsTrue (is_policy policy) }
    requires target { IsTrue (is_http_url target.now) }
    requires referrer { IsTrue (is_http_referrer referrer.now) }
    ensures value { IfOk result (λ told. told ≡ spec.determined client.now policy target.now referrer.now) }
    ensures determined { IfOk result (λ told. IsTrue (is_determined told)) }
    ensures http { IfOk result (λ told. IsTrue (is_http_referrer told)) }
{
    match referrer {
        Referrer::NoReferrer => Ok(Referrer::NoReferrer),
        Referrer::Client => Ok(referrer_of(determine(alloc, policy, &client.url, target)?)),
        Referrer::Address(url) => Ok(referrer_of(determine(alloc, policy, url, target)?)),
    }
}

/// Gives the request of a client its referrer policy, the client's where its own is empty, and its referrer
/// as that policy tells it to the current URL, which is http or https (Fetch, section 4.1, "main fetch", steps 8 and
/// 9; Referrer Policy, section 8.3). The referrer is then none or a URL. After want of memory it is some request for
/// an http or https URL.
pub fn set_referrer(
    alloc: Global,
    request: &mut Request,
    client: &Client,
) -> Result<(), OutOfMemory>
    requires valid { IsRequest request.old }
    requires http { IsAtHttp request.old }
    requires client { IsClient client.now }
    ensures value { IfOk result (λ _. request.new ≡ spec.with_referrer client.now request.old) }
    ensures valid { IsRequest request.new }
    ensures http { IsAtHttp request.new }
    ensures determined { IfOk result (λ _. IsTrue (is_determined request.new.referrer)) }
{
    set_policy(request, client);
    let policy = request.policy;
    request.referrer = determined(
        alloc,
        client,
        policy,
        request.current_url(),
        &request.referrer,
    )?;
    Ok(())
}
