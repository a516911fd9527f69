// A document that fetches: its client, policies and cookies, read from texts.
ghost use Rattle.std.specs.Prelude.{◌≡◌, ◌≢◌, ◌++◌, IfErr, IfOk, IsTrue, OnErr, OnOk};
ghost use Rattle.c_rules.specs.Answers.{IsUnlessMemory};
ghost use Rattle.c_rules.specs.Reading as reading;
ghost use Rattle.value_requests.specs.Requests as requests;

use crate::policy_value::PolicyValue;
use c_rules::{Refusal, origin_text, read_url};
use fetch_session::Document;
use policy_csp::Compiled;
use policy_csp_text::{Policies, parse_policies};
use std::alloc::Global;
use std::marker::Model;
use url::Url;
use value_bytes::{Bytes, Items, OutOfMemory};
use value_origins::is_http_url;
use value_requests::{Client, Cookie, Cookies, ReferrerPolicy, policy_or};
use value_text::is_value;

/// How many policies are too many for a document: it is want of memory.
const TOO_MANY: usize = 4_294_967_296;

/// The settings of a document that fetches: its client, the values of its policies' headers, and its cookies.
#[derive(Drop)]
pub struct Settings {
    pub(crate) client: Client,
    pub(crate) policies: Items<PolicyValue>,
    pub(crate) cookies: Cookies,
}

impl Model for Settings {
    ghost use Rattle.c_fetch.specs.Setups.{Setup};

    ghost Value = { Setup };

    ghost use Rattle.value_requests.specs.Requests.{IsClient};

    ghost view = { λ settings. record {
      client = settings.client;
      policies = settings.policies;
      cookies = settings.cookies;
    } };

    ghost invariant = { λ settings. IsClient settings.client };
}

// The http or https URL that a text gives by itself.
fn web_url(alloc: Global, text: &[u8]) -> Result<Url, Refusal>
    ensures told { IsUnlessMemory result (reading.web_url_in text.now) }
    ensures http { IfOk result (λ url. IsTrue (requests.is_http_url url)) }
{
    let url = read_url(alloc, text)?;
    if is_http_url(&url) {
        Ok(url)
    } else {
        Err(Refusal::NotHttp)
    }
}

// An equal client.
fn client_copy(alloc: Global, client: &Client) -> Result<Client, OutOfMemory>
    ensures { IfOk result (λ copy. copy ≡ client.now) }
{
    let url = client.url.clone()?;
    let origin = client.origin.copy(alloc)?;
    let top = client.top.copy(alloc)?;
    let key = client.key.copy(alloc)?;
    Ok(Client {
        url,
        origin,
        top,
        key,
        policy: client.policy,
    })
}

// An equal table of cookies.
fn cookies_copy(alloc: Global, cookies: &[Cookie]) -> Result<Cookies, OutOfMemory>
    ensures { IfOk result (λ copy. copy ≡ cookies.now) }
{
    let mut copy = Cookies::new(alloc);
    for cookie in cookies {
        copy.push(Cookie {
            origin: cookie.origin.copy(alloc)?,
            value: cookie.value.copy(alloc)?,
        })?;
    }
    Ok(copy)
}

// Adds policies behind those that a list has.
fn add_all(policies: &mut Policies, more: Policies) -> Result<(), OutOfMemory>
    ensures { OnOk result (policies.new ≡ policies.old ++ more) }
{
    for policy in more.into_vec() {
        policies.push(policy)?;
    }
    Ok(())
}

impl Settings {
    ghost use Rattle.value_requests.specs.Requests.{IsClient};
    ghost use Rattle.c_fetch.specs.Settings.{cookie_added, policies_in, settings_of, with_policies, IsDocumentOf};

    /// The settings of a document of a URL, in a page with that of another at the top, and with a referrer policy
    /// (HTML, section 8.1.3.2, "environment settings object"). It has no policies and no cookies. The empty referrer
    /// policy is as the default one. `NotUrl` or `NotHttp`, of the first URL that is refused.
    pub fn new(
        alloc: Global,
        url: &[u8],
        top: &[u8],
        policy: ReferrerPolicy,
    ) -> Result<Settings, Refusal>
        ensures { IsUnlessMemory result (settings_of url.now top.now policy) }
    {
        let policy = policy_or(policy, ReferrerPolicy::StrictOriginWhenCrossOrigin);
        let url = web_url(alloc, url)?;
        let top = web_url(alloc, top)?;
        let client = Client::of(alloc, &url, &top, policy)?;
        Ok(Settings {
            client,
            policies: Items::new(alloc),
            cookies: Cookies::new(alloc),
        })
    }

    /// The client of the document.
    pub fn client(&self) -> &Client
        ensures client { result.now ≡ self.now.client }
        ensures valid { IsClient result.now }
    {
        &self.client
    }

    /// Adds the policies of the value of a Content-Security-Policy header, or of a report-only one (CSP 3, section
    /// 2.2). Where memory is refused all is as it was.
    pub fn add_policies(
        &mut self,
        alloc: Global,
        value: &[u8],
        enforced: bool,
    ) -> Result<(), OutOfMemory>
        ensures ok { OnOk result (self.new ≡ with_policies value.now enforced self.old) }
        ensures err { OnErr result (self.new ≡ self.old) }
    {
        let value = Bytes::of(alloc, value)?;
        self.policies.push(PolicyValue { value, enforced })
    }

    /// Adds the value of the Cookie header for requests to the origin of a URL; the first of an origin counts.
    /// `NotUrl`, `NotHttp`, or `NotHeader` where it is no header value. What is refused leaves all as it was.
    pub fn add_cookie(&mut self, alloc: Global, url: &[u8], value: &[u8]) -> Result<(), Refusal>
        ensures ok { OnOk result (cookie_added url.now value.now self.old ≡ Ok self.new) }
        ensures refused { IfErr result (λ refusal. refusal ≢ Refusal.OutOfMemory
            → cookie_added url.now value.now self.old ≡ Err refusal) }
        ensures err { OnErr result (self.new ≡ self.old) }
    {
        let origin = origin_text(alloc, url)?;
        if !is_value(value) {
            return Err(Refusal::NotHeader);
        }
        let value = Bytes::of(alloc, value)?;
        self.cookies.push(Cookie { origin, value })?;
        Ok(())
    }

    // The policies of all values, in order.
    fn policies(&self, alloc: Global) -> Result<Policies, OutOfMemory>
        ensures { IfOk result (λ policies. policies ≡ policies_in self.now.policies) }
    {
        let mut policies = Policies::new(alloc);
        for given in self.policies.as_slice() {
            let more = parse_policies(alloc, given.value.as_slice(), given.enforced)?;
            add_all(&mut policies, more)?;
        }
        Ok(policies)
    }

    /// The document of these settings, as a fetch owns one.
    pub(crate) fn document(&self, alloc: Global) -> Result<Document, OutOfMemory>
        ensures { IfOk result (λ document. IsDocumentOf self.now document) }
    {
        let policies = self.policies(alloc)?;
        if policies.len() >= TOO_MANY {
            return Err(OutOfMemory);
        }
        Ok(Document {
            client: client_copy(alloc, &self.client)?,
            policies: Compiled::of(alloc, &policies)?,
            cookies: cookies_copy(alloc, self.cookies.as_slice())?,
        })
    }
}
