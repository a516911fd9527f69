// Rows of the requests of loads:
//
//     load DOCUMENT WORDS     the request of the load, or its fault
//
// The words, with a space between, are `kind=DESTINATION`, `url=URL`, and `crossorigin=STATE`, `nonce=TEXT`,
// `integrity=TEXT`, `policy=POLICY` and `parser=yes` where they are not empty.
ghost use Rattle.std.specs.Prelude.{◌≡◌, ◌≢◌, IfOk};
ghost use Rattle.value_requests.specs.Requests.{IsClient, IsRequest};

use fetch_requests::new_load;
use rows_shell::{
    Failed, Held, Row, Shown, client_at, destination_named, named, policy_named, value_of,
};
use std::alloc::Global;
use value_bytes::Bytes;
use value_origins::same_origin;
use value_requests::{
    Client, CrossOrigin, Destination, LoadInit, Referrer, Request, Tainting, TypeFault,
};

/// The states of the CORS settings attribute.
const CROSS_ORIGINS: [(&[u8], CrossOrigin); 3] = [
    (b"", CrossOrigin::Absent),
    (b"anonymous", CrossOrigin::Anonymous),
    (b"use-credentials", CrossOrigin::UseCredentials),
];

// The answer to a row of this kind, and whether the row is one.
pub(crate) fn answer(
    alloc: Global,
    kind: &str,
    row: &Row,
    shown: &mut Shown,
) -> Result<bool, Failed> {
    if kind != "load" {
        return Ok(false);
    }
    loaded(alloc, row, shown)?;
    Ok(true)
}

// The request of the row's load, or its fault.
fn loaded(alloc: Global, row: &Row, shown: &mut Shown) -> Result<(), Failed> {
    let client = client_at(alloc, row.text(0))?;
    load(alloc, row.text(1), &client, shown)
}

// The kind of resource, which is no `fetch`.
fn kind_in(text: &[u8]) -> Result<Destination, Failed>
    ensures { IfOk result (λ kind. kind ≢ Destination.Fetch) }
{
    let kind = destination_named(value_of(text, b"kind"))?;
    if matches!(kind, Destination::Fetch) {
        return Err(Failed);
    }
    Ok(kind)
}

// Sets the texts that the words have.
fn set_texts(init: &mut LoadInit, text: &[u8]) -> Result<(), Failed>
    ensures { init.new.kind ≡ init.old.kind }
{
    init.url.append(value_of(text, b"url"))?;
    init.nonce.append(value_of(text, b"nonce"))?;
    init.integrity.append(value_of(text, b"integrity"))?;
    Ok(())
}

// What the words ask for.
fn init_in(alloc: Global, text: &[u8]) -> Result<Held<LoadInit>, Failed>
    ensures { IfOk result (λ init. init.value.kind ≢ Destination.Fetch) }
{
    let kind = kind_in(text)?;
    let crossorigin = named(&CROSS_ORIGINS, value_of(text, b"crossorigin"))?;
    let referrer_policy = policy_named(value_of(text, b"policy"))?;
    let mut init = Held {
        value: LoadInit {
            kind,
            url: Bytes::new(alloc),
            crossorigin,
            nonce: Bytes::new(alloc),
            integrity: Bytes::new(alloc),
            parser: value_of(text, b"parser") == b"yes".as_slice(),
            referrer_policy,
        },
    };
    set_texts(&mut init.value, text)?;
    Ok(init)
}

// The request of a load for a client, or its fault.
fn load(alloc: Global, text: &[u8], client: &Client, shown: &mut Shown) -> Result<(), Failed>
    requires { IsClient client.now }
{
    let init = init_in(alloc, text)?;
    match new_load(alloc, &init.value, client)? {
        Ok(request) => show_load(client, &Held { value: request }.value, shown),
        Err(TypeFault::BadUrl) => shown.add(b"type-error 1 BadUrl"),
        Err(TypeFault::LongUrl) => shown.add(b"type-error 10 LongUrl"),
        Err(_) => shown.add(b"DIFFERS"),
    }
    Ok(())
}

// Whether what is the same in each load's request is as it should be.
fn is_of_load(request: &Request, client: &Client) -> bool {
    request.body.is_none()
        && same_origin(&request.origin, &client.origin)
        && matches!(request.referrer, Referrer::Client)
        && !request.unsafe_request
        && !request.use_preflight
        && request.tainting == Tainting::Basic
        && request.redirects == 0
}

// The parts of a load's request.
fn show_load(client: &Client, request: &Request, shown: &mut Shown)
    requires { IsRequest request.now }
{
    if !is_of_load(request, client) {
        shown.add(b"DIFFERS");
        return;
    }
    shown.add(request.method.as_slice());
    shown.add(b" ");
    add_short(request.current_url().as_str().as_bytes(), shown);
    show_modes(request, shown);
    show_texts(request, shown);
    if request.parser {
        shown.add(b" parser");
    }
    shown.add(b" ");
    shown.add_headers(&request.headers);
}

// The modes and the destination, with a space before each.
fn show_modes(request: &Request, shown: &mut Shown) {
    shown.add(b" ");
    shown.add(request.mode.name().as_bytes());
    shown.add(b" ");
    shown.add(request.credentials.name().as_bytes());
    shown.add(b" ");
    shown.add(request.redirect.name().as_bytes());
    shown.add(b" ");
    shown.add(request.destination.name().as_bytes());
}

// The texts that are not empty, with their names.
fn show_texts(request: &Request, shown: &mut Shown) {
    add_given(b"nonce", request.nonce.as_slice(), shown);
    add_given(b"integrity", request.integrity.as_slice(), shown);
    add_given(b"policy", request.policy.name().as_bytes(), shown);
}

// The name of a text and the text in quotation marks, unless it is empty.
fn add_given(name: &[u8], text: &[u8], shown: &mut Shown) {
    if !text.is_empty() {
        shown.add_part(name, text);
    }
}

// A text, or how many bytes one of more than 1,000 has.
pub(crate) fn add_short(text: &[u8], shown: &mut Shown) {
    if text.len() <= 1_000 {
        shown.add_escaped(text);
        return;
    }
    shown.add_count(b"{", text.len());
    shown.add(b" bytes}");
}
