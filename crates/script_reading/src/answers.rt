// The bytes of an answer.
ghost use Rattle.std.specs.Prelude.{◌≡◌, ◌+◌, ◌-◌, ◌^◌, ◌++◌, length, min, codes, IfOk, OnOk};
ghost use Rattle.std.specs.List.{flat_map};
ghost use Rattle.script_reading.specs.Answers as spec;

use std::alloc::Global;
use value_bytes::{Bytes, OutOfMemory};
use value_requests::Pair;

// How many bytes the headers on their lines have, or the greatest number where that is less.
fn lines_len(headers: &[Pair]) -> usize
    ensures { result ≡ min (length (flat_map spec.header_line headers.now)) (2 ^ 64 - 1) }
{
    let mut total = 0usize;
    for header in headers {
        total = total
            .saturating_add(header.name.len())
            .saturating_add(header.value.len())
            .saturating_add(4);
    }
    total
}

// Adds each header on its line.
fn put_headers(text: &mut Vec<u8>, headers: &[Pair]) -> Result<(), OutOfMemory>
    ensures { OnOk result (text.new.items ≡ text.old.items ++ flat_map spec.header_line headers.now) }
{
    for header in headers {
        text.extend_from_slice(header.name.as_slice())?;
        text.extend_from_slice(b": ")?;
        text.extend_from_slice(header.value.as_slice())?;
        text.extend_from_slice(b"\r\n")?;
    }
    Ok(())
}

// Adds the status line of a status in decimal.
fn put_status_line(text: &mut Vec<u8>, status: &[u8]) -> Result<(), OutOfMemory>
    ensures { OnOk result (text.new.items
        ≡ text.old.items ++ (codes "HTTP/1.1 " ++ (status.now ++ codes " Scripted\r\n"))) }
{
    text.extend_from_slice(b"HTTP/1.1 ")?;
    text.extend_from_slice(status)?;
    text.extend_from_slice(b" Scripted\r\n")?;
    Ok(())
}

/// The bytes of an answer: the status line, each header on its line, an empty line and the body.
pub fn answer_bytes(
    alloc: Global,
    status: u64,
    headers: &[Pair],
    body: &[u8],
) -> Result<Bytes, OutOfMemory>
    ensures { IfOk result (λ answer. answer ≡ spec.answer_bytes status headers.now body.now) }
{
    let status = status.to_string(alloc)?;
    let len = lines_len(headers)
        .saturating_add(status.len())
        .saturating_add(body.len())
        .saturating_add(22);
    let mut text = Vec::with_capacity(alloc, len)?;
    put_status_line(&mut text, status.as_bytes())?;
    put_headers(&mut text, headers)?;
    text.extend_from_slice(b"\r\n")?;
    text.extend_from_slice(body)?;
    Ok(Bytes::from_vec(text))
}
