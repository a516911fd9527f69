// Rows of requests as they are written.
use link_http1::write_request;
use rows_shell::{Failed, Shown, texts_between};
use std::alloc::Global;
use value_bytes::Bytes;
use value_headers::PackedHeaders;
use value_requests::Hop;
use value_text::{after_byte, before_byte};

// The headers of a text: each its name, a colon, a space and its value, with `|` between.
fn headers_in(alloc: Global, text: &[u8]) -> Result<PackedHeaders, Failed> {
    let mut headers = PackedHeaders::new(alloc);
    for header in texts_between(alloc, text, b'|')?.as_slice() {
        let header = header.as_slice();
        let value = after_byte(after_byte(header, b':'), b' ');
        headers.append(before_byte(header, b':'), value)?;
    }
    Ok(headers)
}

// The body that a word writes, if it does.
fn body_in(alloc: Global, word: &[u8]) -> Result<Option<Bytes>, Failed> {
    match word {
        b"-" => Ok(None),
        body => Ok(Some(Bytes::of(alloc, body)?)),
    }
}

// The request of a row, of this method, target, body and headers.
fn hop_of(alloc: Global, row: &[u8]) -> Result<Hop, Failed> {
    let rest = after_byte(row, b' ');
    let behind = after_byte(rest, b' ');
    Ok(Hop {
        preflight: false,
        origin: Bytes::of(alloc, b"https://a.test")?,
        url: Bytes::of(alloc, before_byte(rest, b' '))?,
        method: Bytes::of(alloc, before_byte(row, b' '))?,
        headers: headers_in(alloc, after_byte(behind, b' '))?,
        body: body_in(alloc, before_byte(behind, b' '))?,
    })
}

// The bytes of the row's request.
pub(crate) fn written(alloc: Global, row: &[u8], shown: &mut Shown) -> Result<(), Failed> {
    let hop = hop_of(alloc, row)?;
    shown.add_escaped(write_request(alloc, &hop)?.as_slice());
    Ok(())
}
