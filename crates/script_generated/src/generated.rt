// A scenario that is generated: documents with keys of their own, which ask one server for the same.
ghost use Rattle.std.specs.Prelude.{◌≡◌, ◌≤◌, ◌<◌, IfOk, map};
ghost use Rattle.std.specs.List.{range_with_len};
ghost use Rattle.script_generated.specs.Generated as spec;
ghost use Rattle.script_scenarios.specs.Valid.{IsValid};

use link_traits::Routes;
use policy_csp_text::Policies;
use script_reading::answer_bytes;
use script_scenarios::{
    Command, Document, Documents, Hosts, Rule, Rules, Scenario, Script, Server, Servers,
};
use std::alloc::Global;
use url::Url;
use value_bytes::{Boxed, Bytes, OutOfMemory};
use value_requests::{
    Cookies, Credentials, Init, Mode, Pair, Pairs, RedirectMode, ReferrerPolicy, url_alone,
};

// The header that allows every origin to read a response.
fn any_origin(alloc: Global) -> Result<Pair, OutOfMemory>
    ensures { IfOk result (λ header. header ≡ spec.any_origin) }
{
    Ok(Pair {
        name: Bytes::of(alloc, b"Access-Control-Allow-Origin")?,
        value: Bytes::of(alloc, b"*")?,
    })
}

// The header of a preflight's response that allows the method PUT.
fn put_is_allowed(alloc: Global) -> Result<Pair, OutOfMemory>
    ensures { IfOk result (λ header. header ≡ spec.put_is_allowed) }
{
    Ok(Pair {
        name: Bytes::of(alloc, b"Access-Control-Allow-Methods")?,
        value: Bytes::of(alloc, b"PUT")?,
    })
}

// A preflight is allowed.
fn preflight_rule(alloc: Global) -> Result<Rule, OutOfMemory>
    ensures { IfOk result (λ rule. rule ≡ spec.preflight_rule) }
{
    let headers = [any_origin(alloc)?, put_is_allowed(alloc)?];
    Ok(Rule {
        method: Some(Bytes::of(alloc, b"OPTIONS")?),
        path: None,
        answer: answer_bytes(alloc, 200, &headers, b"")?,
    })
}

// Any other request is allowed too.
fn other_rule(alloc: Global) -> Result<Rule, OutOfMemory>
    ensures { IfOk result (λ rule. rule ≡ spec.other_rule) }
{
    let headers = [any_origin(alloc)?];
    Ok(Rule {
        method: None,
        path: None,
        answer: answer_bytes(alloc, 200, &headers, b"")?,
    })
}

// The server that the documents ask.
fn api_server(alloc: Global) -> Result<Server, OutOfMemory>
    ensures { IfOk result (λ server. server ≡ spec.api_server) }
{
    let mut rules = Rules::new(alloc);
    rules.push(preflight_rule(alloc)?)?;
    rules.push(other_rule(alloc)?)?;
    Ok(Server {
        origin: Bytes::of(alloc, b"http://api.test")?,
        rules,
    })
}

// What each of the fetches asks for.
fn put_request(alloc: Global) -> Result<Init, OutOfMemory>
    ensures { IfOk result (λ init. init ≡ spec.put_request) }
{
    Ok(Init {
        url: Bytes::of(alloc, b"http://api.test/x")?,
        method: Bytes::of(alloc, b"PUT")?,
        mode: Mode::Cors,
        credentials: Credentials::SameOrigin,
        redirect: RedirectMode::Follow,
        headers: Pairs::new(alloc),
        body: None,
        client_referrer: true,
        referrer_policy: ReferrerPolicy::Empty,
        integrity: Bytes::new(alloc),
        upload: false,
    })
}

// The script of each document: 200 times a fetch, and a second that passes.
fn put_script(alloc: Global) -> Result<Script, OutOfMemory>
    ensures { IfOk result (λ script. script ≡ spec.put_script) }
{
    let mut inner = Script::new(alloc);
    let request = Boxed::new(alloc, put_request(alloc)?)?;
    inner.push(Command::Fetch(request))?;
    inner.push(Command::Wait(1))?;
    let mut script = Script::new(alloc);
    script.push(Command::Repeat(200, inner))?;
    Ok(script)
}

// The URL of a document by its number.
fn address(alloc: Global, index: u32) -> Result<Url, OutOfMemory>
    requires { index < 64 }
    ensures { IfOk result (λ url. url ≡ spec.address index) }
{
    let text = format!(in alloc; "http://d{index}.test/")?;
    match url_alone(alloc, text.as_str())? {
        Some(url) => Ok(url),
        None => unreachable!("the text is a URL"),
    }
}

// A document by its number.
fn document(alloc: Global, index: u32) -> Result<Document, OutOfMemory>
    requires { index < 64 }
    ensures { IfOk result (λ document. document ≡ spec.generated_document index) }
{
    let url = address(alloc, index)?;
    let top = url.clone()?;
    Ok(Document {
        url,
        top,
        policy: ReferrerPolicy::StrictOriginWhenCrossOrigin,
        policies: Policies::new(alloc),
        script: put_script(alloc)?,
    })
}

// The documents whose numbers are below n.
fn documents(alloc: Global, n: u32) -> Result<Documents, OutOfMemory>
    requires { n ≤ 64 }
    ensures { IfOk result (λ documents. documents ≡ map spec.generated_document (range_with_len 0 n)) }
{
    let mut documents = Documents::new(alloc);
    for index in 0..n {
        documents.push(document(alloc, index)?)?;
    }
    Ok(documents)
}

/// A scenario of `n` documents, 1 to 64 of them, that begins in second 0 and knows no hosts, cookies
/// and routes. The documents are `http://dI.test/` for I from 0, each at the top of its page and
/// without policies. Their scripts do this 200 times: they fetch `http://api.test/x` by PUT, in mode
/// `cors` and as `fetch` does it by itself, and let a second pass. The one server, `http://api.test`,
/// answers every request with status 200, no body and leave for every origin to read it, and an
/// OPTIONS with leave for the method PUT too. Pieces have at most 4,096 bytes and bodies 262,144, as
/// by themselves in format 1. The scenario is valid. `OutOfMemory` where memory was refused.
pub fn generate(alloc: Global, n: u32) -> Result<Scenario, OutOfMemory>
    requires some { 1 ≤ n }
    requires few { n ≤ 64 }
    ensures value { IfOk result (λ scenario. scenario ≡ spec.generated n) }
    ensures valid { IfOk result IsValid }
{
    let mut servers = Servers::new(alloc);
    servers.push(api_server(alloc)?)?;
    Ok(Scenario {
        now: 0,
        hosts: Hosts::new(alloc),
        cookies: Cookies::new(alloc),
        servers,
        routes: Routes::new(alloc),
        piece: 4096,
        documents: documents(alloc, n)?,
        body_limit: 262_144,
    })
}
