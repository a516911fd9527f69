// Both ends in one run: a document fetches over a link in memory whose answers are those of the table to the bytes that
// were sent. A fetch over a link is played anew with one answer more, until each of its requests has an answer. It is
// the first fetch of its document, which has no policies and no cookies. `inits.rt` says how its init is written.
//
// Shown are the methods of the requests that were sent, and whether each is a preflight, and then what the fetch came
// to, as in the text of a play.
ghost use Rattle.value_requests.specs.Requests.{IsClient};

use crate::inits::request_in;
use crate::requests::{LIMIT, fetch};
use link_traits::MemoryLink;
use play_definitions::FetchRun;
use rows_links::table_in;
use rows_shell::{Failed, Held, Row, Shown, client_at};
use script_events::Event;
use server_tables::{AllowTable, answer};
use std::alloc::Global;
use value_bytes::{Bytes, BytesList};
use value_requests::{BodyEnd, Client, Hop, NetError, Outcome, Response};

/// How many bytes a link has room for of what it is asked.
const ROOM: usize = 65_536;

/// How many requests a fetch sends at most.
const MOST_ASKS: usize = 8;

// A link with these answers, each in one piece.
fn link_with(alloc: Global, texts: &BytesList) -> Result<MemoryLink, Failed> {
    let mut answers = Vec::new(alloc);
    for text in texts.as_slice() {
        let mut pieces = BytesList::new(alloc);
        pieces.push(Bytes::of(alloc, text.as_slice())?)?;
        answers.push(pieces)?;
    }
    let none = Vec::new(alloc);
    Ok(MemoryLink::new(alloc, answers, ROOM, none, Vec::new(alloc))?)
}

// The bytes of the request with this number, counted from 0, if so many were sent.
fn sent(alloc: Global, link: &MemoryLink, number: usize) -> Result<Option<Bytes>, Failed> {
    match link.asks(alloc)?.as_slice().get(number) {
        Some(ask) => Ok(Some(Bytes::of(alloc, ask.request.as_slice())?)),
        None => Ok(None),
    }
}

// What a fetch for a client over a link has shown and come to.
fn fetched_over(
    alloc: Global,
    client: &Client,
    text: &[u8],
    link: &mut MemoryLink,
) -> Result<Held<FetchRun>, Failed>
    requires { IsClient client.now }
{
    let request = request_in(alloc, client, text)?;
    let (value, _history) = fetch(alloc, request, LIMIT, client, link)?;
    Ok(Held { value })
}

// Fetches over a link with these answers. Where a request was sent that has none, its bytes; else it is shown.
fn try_with(
    alloc: Global,
    client: &Client,
    text: &[u8],
    answers: &BytesList,
    shown: &mut Shown,
) -> Result<Option<Bytes>, Failed>
    requires { IsClient client.now }
{
    let mut link = Held {
        value: link_with(alloc, answers)?,
    };
    let run = fetched_over(alloc, client, text, &mut link.value)?;
    let request = sent(alloc, &link.value, answers.len())?;
    if request.is_none() {
        add_run(&run.value, shown);
    }
    Ok(request)
}

// Fetches from a server that answers by the table.
fn fetch_from(
    alloc: Global,
    table: &AllowTable,
    client: &Client,
    text: &[u8],
    shown: &mut Shown,
) -> Result<(), Failed>
    requires { IsClient client.now }
{
    let mut answers = BytesList::new(alloc);
    for _ in 0..MOST_ASKS {
        let Some(request) = try_with(alloc, client, text, &answers, shown)? else {
            return Ok(());
        };
        answers.push(answer(alloc, table, request.as_slice())?)?;
    }
    Err(Failed)
}

// Shows what the fetch of a row sends and comes to.
pub(crate) fn show_fetch(alloc: Global, row: &Row, shown: &mut Shown) -> Result<(), Failed> {
    let table = table_in(alloc, row.text(1))?;
    let client = Held {
        value: client_at(alloc, row.text(2))?,
    };
    fetch_from(alloc, &table, &client.value, row.text(3), shown)
}

// Adds what a fetch sent and came to.
fn add_run(run: &FetchRun, shown: &mut Shown) {
    for event in run.events.as_slice() {
        if let Event::Sent(hop) = event {
            add_hop(hop.get(), shown);
        }
    }
    add_outcome(run.outcome.get(), shown);
}

// Adds the method of a request that was sent.
fn add_hop(hop: &Hop, shown: &mut Shown) {
    if hop.preflight {
        shown.add(b"preflight ");
    }
    shown.add(hop.method.as_slice());
    shown.add(b", ");
}

// Adds what a fetch came to.
fn add_outcome(outcome: &Outcome, shown: &mut Shown) {
    match outcome {
        Outcome::Answer(response) => add_response(response, shown),
        Outcome::Loaded => shown.add(b"result loaded"),
        Outcome::Error(error) => add_error(error, shown),
    }
}

// Adds a network error.
fn add_error(error: &NetError, shown: &mut Shown) {
    shown.add_count(b"result error ", error.number() as usize);
    shown.add(b" ");
    shown.add(error.name().as_bytes());
    if let NetError::PreflightHeader(name) = error {
        shown.add(b" ");
        shown.add(name.as_slice());
    }
}

// Adds a response.
fn add_response(response: &Response, shown: &mut Shown) {
    shown.add(b"result ");
    shown.add(response.kind.name().as_bytes());
    shown.add_count(b" ", usize::from(response.status));
    match &response.url {
        Some(url) => {
            shown.add(b" ");
            shown.add(url.as_slice());
        }
        None => shown.add(b" ()"),
    }
    add_body(&response.body, shown);
}

// Adds the body of a response.
fn add_body(body: &BodyEnd, shown: &mut Shown) {
    match body {
        BodyEnd::Null => shown.add(b", body none"),
        BodyEnd::Whole(bytes) => {
            shown.add_count(b", body whole ", bytes.len());
            shown.add(b": ");
            shown.add_escaped(bytes.as_slice());
        }
        BodyEnd::Cut(_) => shown.add(b", body cut"),
        BodyEnd::Fault(_) => shown.add(b", body fault"),
        BodyEnd::TooBig => shown.add(b", body toobig"),
    }
}
