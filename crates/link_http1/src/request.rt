// Writes a request as bytes (RFC 9112, sections 2.1 and 3).
ghost use Rattle.std.specs.Prelude.{◌≡◌, ◌++◌, IfOk, OnOk, unwrap_or, []};
ghost use Rattle.std.specs.List.{flat_map};
ghost use Rattle.link_http1.specs.Requests.{header_line, request_bytes, request_line};

use std::alloc::Global;
use value_bytes::{Bytes, OutOfMemory};
use value_headers::PackedHeaders;
use value_requests::Hop;

// How many bytes most requests have at most, for which room is made first.
const FEW_BYTES: usize = 512;

// Adds the method, the request target and the version.
fn add_request_line(text: &mut Vec<u8>, hop: &Hop) -> Result<(), OutOfMemory>
    ensures { OnOk result (text.new.items ≡ text.old.items ++ request_line hop.now) }
{
    text.extend_from_slice(hop.method.as_slice())?;
    text.extend_from_slice(b" ")?;
    text.extend_from_slice(hop.url.as_slice())?;
    text.extend_from_slice(b" HTTP/1.1\r\n")?;
    Ok(())
}

// Adds a header on its line.
fn add_header_line(text: &mut Vec<u8>, name: &[u8], value: &[u8]) -> Result<(), OutOfMemory>
    ensures { OnOk result (text.new.items
        ≡ text.old.items ++ header_line (record { name = name.now; value = value.now })) }
{
    text.extend_from_slice(name)?;
    text.extend_from_slice(b": ")?;
    text.extend_from_slice(value)?;
    text.extend_from_slice(b"\r\n")?;
    Ok(())
}

// Adds each header on a line.
fn add_header_lines(text: &mut Vec<u8>, headers: &PackedHeaders) -> Result<(), OutOfMemory>
    ensures { OnOk result (text.new.items ≡ text.old.items ++ flat_map header_line headers.now) }
{
    for index in 0..headers.len() {
        let (name, value) = headers.at(index);
        add_header_line(text, name, value)?;
    }
    Ok(())
}

// Adds the body, where there is one.
fn add_body(text: &mut Vec<u8>, body: &Option<Bytes>) -> Result<(), OutOfMemory>
    ensures { OnOk result (text.new.items ≡ text.old.items ++ unwrap_or body.now []) }
{
    if let Some(body) = body {
        text.extend_from_slice(body.as_slice())?;
    }
    Ok(())
}

/// The bytes of a request: its request line, its headers on a line each, an empty line and its body,
/// where it has one (RFC 9112, sections 2.1 and 3).
pub fn write_request(alloc: Global, hop: &Hop) -> Result<Bytes, OutOfMemory>
    ensures { IfOk result (λ bytes. bytes ≡ request_bytes hop.now) }
{
    let mut text = Vec::with_capacity(alloc, FEW_BYTES)?;
    add_request_line(&mut text, hop)?;
    add_header_lines(&mut text, &hop.headers)?;
    text.extend_from_slice(b"\r\n")?;
    add_body(&mut text, &hop.body)?;
    Ok(Bytes::from_vec(text))
}
