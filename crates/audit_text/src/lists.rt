// The method that a line of a printed history asks for, or none, and its lists of tokens.
ghost use Rattle.std.specs.Prelude.{◌≡◌, ◌==◌, map, IfOk};
ghost use Rattle.std.specs.List.{list_all};
ghost use Rattle.value_text.specs.Tokens.{is_token};
ghost use Rattle.audit_text.specs.Private.Reading as spec;

use book_preflights::Names;
use std::alloc::Global;
use value_bytes::{Bytes, OutOfMemory};
use value_text::{is_token, parts_between};

// The method that is asked for, or none.
pub(crate) fn method_in(alloc: Global, word: &[u8]) -> Result<Option<Option<Bytes>>, OutOfMemory>
    ensures { IfOk result (λ method. method ≡ spec.method_in word.now) }
{
    if word == b"()".as_slice() {
        return Ok(Some(None));
    }
    if !is_token(word) {
        return Ok(None);
    }
    let method = Bytes::of(alloc, word)?;
    Ok(Some(Some(method)))
}

// Whether each part is a token.
fn are_tokens(parts: &[&[u8]]) -> bool
    ensures { result ≡ list_all is_token (map (λ part. part.now) parts.now) }
{
    parts.iter().all(|part| is_token(part))
}

// Copies of the parts.
fn copies(alloc: Global, parts: &[&[u8]]) -> Result<Names, OutOfMemory>
    ensures { IfOk result (λ list. list ≡ map (λ part. part.now) parts.now) }
{
    let mut list = Vec::with_capacity(alloc, parts.len())?;
    for part in parts {
        list.push(Bytes::of(alloc, part)?)?;
    }
    Names::of(alloc, list.as_slice())
}

// Tokens, joined by commas.
pub(crate) fn list_in(alloc: Global, word: &[u8]) -> Result<Option<Names>, OutOfMemory>
    ensures { IfOk result (λ list. list ≡ spec.list_in word.now) }
{
    if word == b"()".as_slice() {
        return Ok(Some(Names::new(alloc)));
    }
    let parts = parts_between(alloc, word, b',')?;
    if !are_tokens(parts.as_slice()) {
        return Ok(None);
    }
    let list = copies(alloc, parts.as_slice())?;
    Ok(Some(list))
}
