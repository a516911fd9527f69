// Rows of what is let through of an answer; OPS make its header list, as `rows_shell`'s `list_of` says:
//
//     filtered REQUEST STATUS OPS          the filtered response
//     manual REQUEST STATUS OPS            the same of a redirect in redirect mode manual
//     hide REQUEST STATUS OPS              what the document may learn of the answer
//     hide_preflight REQUEST STATUS OPS    the same of an answer to a preflight
ghost use Rattle.value_requests.specs.Requests.{IsRequest};

use policy_filter::{filtered, hide};
use rows_shell::{Failed, Held, Row, Shown, list_of, number};
use std::alloc::Global;
use value_bytes::Bytes;
use value_headers::PackedHeaders;
use value_requests::{Head, Hop, Request, Response};

// The head whose status is the text at an index, and whose headers the texts after it make.
pub(crate) fn head_of(alloc: Global, row: &Row, index: usize) -> Result<Head, Failed> {
    let status = number(row.text(index), 999)?.min(999) as u16;
    let headers = list_of(alloc, row, index.saturating_add(1))?;
    Ok(Head { status, headers })
}

// What is let through of the answer of a row.
pub(crate) fn asked(
    alloc: Global,
    kind: &str,
    row: &Row,
    request: &Request,
    shown: &mut Shown,
) -> Result<(), Failed>
    requires { IsRequest request.now }
{
    match kind {
        "filtered" => let_through(alloc, row, request, false, shown),
        "manual" => let_through(alloc, row, request, true, shown),
        "hide" => hidden(alloc, row, request, false, shown),
        "hide_preflight" => hidden(alloc, row, request, true, shown),
        _ => Err(Failed),
    }
}

// The filtered response of a row's answer.
fn let_through(
    alloc: Global,
    row: &Row,
    request: &Request,
    manual: bool,
    shown: &mut Shown,
) -> Result<(), Failed>
    requires { IsRequest request.now }
{
    let response = filtered(alloc, request, head_of(alloc, row, 1)?, manual)?;
    show_response(&response, shown);
    Ok(())
}

// What a document may learn of a row's answer.
fn hidden(
    alloc: Global,
    row: &Row,
    request: &Request,
    preflight: bool,
    shown: &mut Shown,
) -> Result<(), Failed>
    requires { IsRequest request.now }
{
    let head = Held {
        value: head_of(alloc, row, 1)?,
    };
    let hop = Held {
        value: hop(alloc, preflight),
    };
    show_view(hide(alloc, request, &hop.value, &head.value)?, shown);
    Ok(())
}

// The type of a response, its status, its URL and its headers.
fn show_response(response: &Response, shown: &mut Shown) {
    shown.add(response.kind.name().as_bytes());
    shown.add(b" ");
    shown.add_number(u64::from(response.status));
    shown.add(b" ");
    show_url(&response.url, shown);
    shown.add(b" ");
    shown.add_packed(&response.headers);
}

// The URL of a response, or `()`.
fn show_url(url: &Option<Bytes>, shown: &mut Shown) {
    match url {
        Some(url) => shown.add_escaped(url.as_slice()),
        None => shown.add(b"()"),
    }
}

// The status and the headers of what a document may learn.
fn show_view(view: Head, shown: &mut Shown) {
    shown.add_number(u64::from(view.status));
    shown.add(b" ");
    shown.add_headers(&view.headers);
}

// An exchange, of which nothing counts here but whether it is a preflight.
fn hop(alloc: Global, preflight: bool) -> Hop {
    Hop {
        preflight,
        origin: Bytes::new(alloc),
        url: Bytes::new(alloc),
        method: Bytes::new(alloc),
        headers: PackedHeaders::new(alloc),
        body: None,
    }
}
