// What the server answers to a request, by the row of its origin.
ghost use Rattle.std.specs.Prelude.{◌≡◌, ◌++◌, ◌∷◌, [], IfOk, OnOk, option_copied, option_map};
ghost use Rattle.std.specs.List.{flat_map, join_with_byte};
ghost use Rattle.value_text.specs.Ascii.{comma};
ghost use Rattle.link_http1.specs.Requests.{header_line};
ghost use Rattle.server_tables.specs.Served as spec;
ghost use Rattle.server_tables.specs.Private.Written.{written};
ghost use Rattle.server_tables.specs.Served.{IsServed};

use crate::table::{AllowTable, Row};
use link_http1::{Asked, read_request};
use std::alloc::Global;
use value_bytes::{Bytes, OutOfMemory, has_text};

// How many bytes most answers have at most, for which room is made first.
const FEW_BYTES: usize = 512;

/// What a request is answered with.
#[derive(Drop)]
pub(crate) struct Reply {
    pub(crate) status: u16,
    pub(crate) bytes: Bytes,
}

// Adds texts with a comma between each two.
#[tactic(auto, using(value_lemmas::proofs::Lists::join_with_byte_cons))]
fn add_joined(text: &mut Vec<u8>, first: &Bytes, rest: &[Bytes]) -> Result<(), OutOfMemory>
    ensures { OnOk result (text.new.items ≡ text.old.items ++ join_with_byte comma (first.now ∷ rest.now)) }
{
    text.extend_from_slice(first.as_slice())?;
    for one in rest {
        text.extend_from_slice(b",")?;
        text.extend_from_slice(one.as_slice())?;
    }
    Ok(())
}

// Adds a header with texts, where there are some.
fn add_list_header(text: &mut Vec<u8>, name: &[u8], texts: &[Bytes]) -> Result<(), OutOfMemory>
    ensures { OnOk result (text.new.items
        ≡ text.old.items ++ flat_map header_line (spec.list_header name.now texts.now)) }
{
    let Some((first, rest)) = texts.split_first() else {
        return Ok(());
    };
    text.extend_from_slice(name)?;
    text.extend_from_slice(b": ")?;
    add_joined(text, first, rest)?;
    text.extend_from_slice(b"\r\n")?;
    Ok(())
}

// Adds the headers that let a page of the row's origin read the answer.
fn add_granted(text: &mut Vec<u8>, row: &Row) -> Result<(), OutOfMemory>
    ensures { OnOk result (text.new.items ≡ text.old.items ++ flat_map header_line (spec.granted row.now)) }
{
    text.extend_from_slice(b"Vary: Origin\r\nAccess-Control-Allow-Origin: ")?;
    text.extend_from_slice(row.origin.as_slice())?;
    text.extend_from_slice(b"\r\n")?;
    if row.credentials {
        text.extend_from_slice(b"Access-Control-Allow-Credentials: true\r\n")?;
    }
    Ok(())
}

// To bytes that begin with no request head.
fn bad(alloc: Global) -> Result<Reply, OutOfMemory>
    ensures { IfOk result (λ reply. reply ≡ written spec.bad) }
{
    let text = b"HTTP/1.1 400 Bad\r\nContent-Length: 0\r\n\r\n";
    Ok(Reply {
        status: 400,
        bytes: Bytes::of(alloc, text)?,
    })
}

// To an origin that has no row, and to a method that its row does not list.
fn refused(alloc: Global) -> Result<Reply, OutOfMemory>
    ensures { IfOk result (λ reply. reply ≡ written spec.refused) }
{
    let text = b"HTTP/1.1 403 Refused\r\nVary: Origin\r\nContent-Length: 0\r\n\r\n";
    Ok(Reply {
        status: 403,
        bytes: Bytes::of(alloc, text)?,
    })
}

// To a preflight.
fn allowed(alloc: Global, row: &Row) -> Result<Reply, OutOfMemory>
    ensures { IfOk result (λ reply. reply ≡ written (spec.allowed row.now)) }
{
    let mut text = Vec::with_capacity(alloc, FEW_BYTES)?;
    text.extend_from_slice(b"HTTP/1.1 204 Allowed\r\n")?;
    add_granted(&mut text, row)?;
    add_list_header(
        &mut text,
        b"Access-Control-Allow-Methods",
        row.methods.as_slice(),
    )?;
    add_list_header(
        &mut text,
        b"Access-Control-Allow-Headers",
        row.names.as_slice(),
    )?;
    text.extend_from_slice(b"\r\n")?;
    Ok(Reply {
        status: 204,
        bytes: Bytes::from_vec(text),
    })
}

// The body: `ok`, and none for HEAD.
fn body_for(method: &[u8]) -> &[u8]
    ensures { result.now ≡ spec.body_for method.now }
{
    if method == b"HEAD".as_slice() {
        b""
    } else {
        b"ok"
    }
}

// To a request with a method that the row lists.
fn served(alloc: Global, row: &Row, method: &[u8]) -> Result<Reply, OutOfMemory>
    ensures { IfOk result (λ reply. reply ≡ written (spec.served row.now method.now)) }
{
    let mut text = Vec::with_capacity(alloc, FEW_BYTES)?;
    text.extend_from_slice(b"HTTP/1.1 200 Served\r\n")?;
    add_granted(&mut text, row)?;
    text.extend_from_slice(b"Content-Length: 2\r\n\r\n")?;
    text.extend_from_slice(body_for(method))?;
    Ok(Reply {
        status: 200,
        bytes: Bytes::from_vec(text),
    })
}

// Whether the request is a preflight.
fn is_preflight(asked: &Asked) -> bool
    ensures { result ≡ spec.is_preflight asked.now }
{
    asked.method.as_slice() == b"OPTIONS".as_slice()
        && asked.headers.contains(b"Access-Control-Request-Method")
}

// By the first row with the request's origin.
fn by_row(alloc: Global, row: &Row, asked: &Asked) -> Result<Reply, OutOfMemory>
    ensures { IfOk result (λ reply. reply ≡ written (spec.by_row row.now asked.now)) }
{
    if is_preflight(asked) {
        allowed(alloc, row)
    } else if has_text(row.methods.as_slice(), asked.method.as_slice()) {
        served(alloc, row, asked.method.as_slice())
    } else {
        refused(alloc)
    }
}

// By the request head that begins the bytes, if one does.
pub(crate) fn reply_to(
    alloc: Global,
    table: &AllowTable,
    asked: &Option<Asked>,
) -> Result<Reply, OutOfMemory>
    ensures { IfOk result (λ reply. reply ≡ written (spec.reply_to table.now asked.now)) }
{
    let Some(asked) = asked else {
        return bad(alloc);
    };
    let Some(origin) = asked.headers.get(alloc, b"Origin")? else {
        return refused(alloc);
    };
    match table.row_of(origin.as_slice()) {
        Some(row) => by_row(alloc, row, asked),
        None => refused(alloc),
    }
}

/// What the server answers to the bytes of a request, by the request head that begins them and by the first
/// row of the table with its origin: 200 to a method that the row lists, 204 to a preflight (OPTIONS with
/// Access-Control-Request-Method), 403 where no row has the origin or the row does not list the method, and
/// 400 where the bytes begin with no request head.
pub fn answer(alloc: Global, table: &AllowTable, request: &[u8]) -> Result<Bytes, OutOfMemory>
    ensures { IfOk result (IsServed table.now request.now) }
{
    let asked = read_request(alloc, request)?;
    Ok(reply_to(alloc, table, &asked)?.bytes)
}
