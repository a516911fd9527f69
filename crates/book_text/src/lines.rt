// The lines of a book's text, read back: a known host, or an entry of the preflight cache.
ghost use Rattle.std.specs.Prelude.{◌≡◌, IfOk, option_map};
ghost use Rattle.book_text.specs.Reading as spec;

use crate::fields::{number_at, text_at};
use book_hosts::KnownHost;
use book_preflights::{Allowed, CacheEntry, Keyed};
use std::alloc::Global;
use value_bytes::{Bytes, OutOfMemory};

// The numbers of an entry: 1 for yes in the last two.
#[derive(Clone, Copy)]
struct Numbers {
    made: u64,
    age: u64,
    include: u64,
    is_name: u64,
}

// The texts of an entry.
#[derive(Clone, Copy)]
struct Texts<'a> {
    key: &'a [u8],
    origin: &'a [u8],
    url: &'a [u8],
    item: &'a [u8],
}

// The known host whose line is at the front of a text, and what follows it.
pub(crate) fn host_at(alloc: Global, text: &[u8]) -> Result<Option<(KnownHost, &[u8])>, OutOfMemory>
    ensures { IfOk result (λ found. option_map (λ f. (f.0, f.1.now)) found ≡ spec.host_at text.now) }
{
    let Some((until, rest)) = number_at(u64::MAX, b' ', text) else {
        return Ok(None);
    };
    let Some((subdomains, rest)) = number_at(1, b' ', rest) else {
        return Ok(None);
    };
    let Some((host, rest)) = text_at(b'\n', rest) else {
        return Ok(None);
    };
    let known = KnownHost {
        host: Bytes::of(alloc, host)?,
        subdomains: subdomains == 1,
        until,
    };
    Ok(Some((known, rest)))
}

// The numbers of an entry, and what follows them.
fn numbers_at(text: &[u8]) -> Option<(Numbers, &[u8])>
    ensures { option_map (λ f. ((f.0.made, (f.0.age, (f.0.include, f.0.is_name))), f.1.now)) result
        ≡ spec.numbers_at text.now }
{
    let (made, rest) = number_at(u64::MAX, b' ', text)?;
    let (age, rest) = number_at(u64::MAX, b' ', rest)?;
    let (include, rest) = number_at(1, b' ', rest)?;
    let (is_name, rest) = number_at(1, b' ', rest)?;
    let numbers = Numbers {
        made,
        age,
        include,
        is_name,
    };
    Some((numbers, rest))
}

// The texts of an entry, and what follows them.
fn texts_at(text: &[u8]) -> Option<(Texts<'_>, &[u8])>
    ensures { option_map (λ f. ((f.0.key.now, (f.0.origin.now, (f.0.url.now, f.0.item.now))), f.1.now)) result
        ≡ spec.texts_at text.now }
{
    let (key, rest) = text_at(b' ', text)?;
    let (origin, rest) = text_at(b' ', rest)?;
    let (url, rest) = text_at(b' ', rest)?;
    let (item, rest) = text_at(b'\n', rest)?;
    let texts = Texts {
        key,
        origin,
        url,
        item,
    };
    Some((texts, rest))
}

// What an entry allows: a header name where the number is 1, else a method.
fn allowed_of(alloc: Global, is_name: u64, item: &[u8]) -> Result<Allowed, OutOfMemory>
    ensures { IfOk result (λ allowed. allowed ≡ spec.allowed_of is_name item.now) }
{
    let item = Bytes::of(alloc, item)?;
    if is_name == 1 {
        Ok(Allowed::HeaderName(item))
    } else {
        Ok(Allowed::Method(item))
    }
}

// The entry of these numbers and texts.
fn entry_of(alloc: Global, numbers: &Numbers, texts: &Texts) -> Result<Keyed, OutOfMemory>
    ensures { IfOk result (λ keyed. keyed ≡ spec.entry_of (
      (numbers.now.made, (numbers.now.age, (numbers.now.include, numbers.now.is_name))),
      (texts.now.key.now, (texts.now.origin.now, (texts.now.url.now, texts.now.item.now))),
    )) }
{
    let entry = CacheEntry {
        origin: Bytes::of(alloc, texts.origin)?,
        url: Bytes::of(alloc, texts.url)?,
        include: numbers.include == 1,
        made: numbers.made,
        age: numbers.age,
        allowed: allowed_of(alloc, numbers.is_name, texts.item)?,
    };
    let key = Bytes::of(alloc, texts.key)?;
    Ok(Keyed { key, entry })
}

// The entry whose line is at the front of a text, and what follows it.
pub(crate) fn entry_at(alloc: Global, text: &[u8]) -> Result<Option<(Keyed, &[u8])>, OutOfMemory>
    ensures { IfOk result (λ found. option_map (λ f. (f.0, f.1.now)) found ≡ spec.entry_at text.now) }
{
    let Some((numbers, rest)) = numbers_at(text) else {
        return Ok(None);
    };
    let Some((texts, rest)) = texts_at(rest) else {
        return Ok(None);
    };
    let keyed = entry_of(alloc, &numbers, &texts)?;
    Ok(Some((keyed, rest)))
}
