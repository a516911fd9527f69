// What a script asks for, with the parts of the last result in the place of placeholders.
ghost use Rattle.std.specs.Prelude.{◌≡◌, ◌++◌, IfOk, OnOk, map, option_map, take};
ghost use Rattle.value_text.specs.Trims.{http_whitespace, trimmed};
ghost use Rattle.script_scenarios.specs.Templates.{filled, placed};
ghost use Rattle.script_filling.specs.Filling as short;
ghost use Rattle.script_filling.specs.Results.{lent_result, value_of};
ghost use Rattle.script_filling.specs.Filled as spec;

use crate::kept::{MOST_VALUE, kept};
use crate::results::add_value;
use script_events::Event;
use script_scenarios::next_piece;
use std::alloc::Global;
use value_bytes::{Bytes, OutOfMemory};
use value_requests::{Init, LoadInit, Pair, Pairs};
use value_text::{after_byte, before_byte, is_value, trim_http};

/// How many bytes of a body are handed on at most: one more than a request's body may have.
const MOST_BODY: usize = 65_537;

/// How many bytes of a URL's text are handed on at most: one more than it may have.
const MOST_URL: usize = 786_433;

// Adds what a piece after a `${` comes to: the value of its name, and what follows the `}`.
fn add_placed(
    text: &mut Vec<u8>,
    alloc: Global,
    last: Option<&Event>,
    piece: &[u8],
) -> Result<(), OutOfMemory>
    ensures { OnOk result (text.new.items ≡ text.old.items ++ placed (value_of (lent_result last.entry)) piece.now) }
{
    add_value(text, alloc, last, before_byte(piece, b'}'))?;
    text.extend_from_slice(after_byte(piece, b'}'))?;
    Ok(())
}

// The first bytes, so many at most, of a text with its placeholders replaced by the parts of the last result. It stops
// growing once it has them.
fn fill_first(
    alloc: Global,
    most: usize,
    last: Option<&Event>,
    template: &[u8],
) -> Result<Bytes, OutOfMemory>
    ensures { IfOk result (λ text. text ≡ take most (filled (value_of (lent_result last.entry)) template.now)) }
{
    let (first, mut rest) = next_piece(template);
    let mut text = Vec::new(alloc);
    text.extend_from_slice(first)?;
    while let Some(behind) = rest {
        if text.len() >= most {
            break;
        }
        let (piece, more) = next_piece(behind);
        add_placed(&mut text, alloc, last, piece)?;
        rest = more;
    }
    text.truncate(most);
    Ok(Bytes::from_vec(text))
}

// A header value with its placeholders replaced, of which no more is kept than is needed to normalise and to cut it.
fn fill_value(alloc: Global, last: Option<&Event>, template: &[u8]) -> Result<Bytes, OutOfMemory>
    ensures { IfOk result (λ text. short.cut_value (trimmed http_whitespace text)
        ≡ short.cut_value (trimmed http_whitespace (filled (value_of (lent_result last.entry)) template.now))) }
{
    let (first, mut rest) = next_piece(template);
    if rest.is_none() {
        return Bytes::of(alloc, first);
    }
    let mut text = Vec::from_slice(alloc, first)?;
    while let Some(behind) = rest {
        let (piece, more) = next_piece(behind);
        add_placed(&mut text, alloc, last, piece)?;
        text = kept(alloc, text)?;
        rest = more;
    }
    Ok(Bytes::from_vec(text))
}

// A header value, normalised. It is copied only where there is something to trim.
fn normalized(alloc: Global, value: Bytes) -> Result<Bytes, OutOfMemory>
    ensures { IfOk result (λ made. made ≡ trimmed http_whitespace value) }
{
    let trimmed = trim_http(value.as_slice());
    if trimmed.len() == value.len() {
        return Ok(value);
    }
    Bytes::of(alloc, trimmed)
}

// The byte that is put behind what is kept of a header value.
fn mark(value: &[u8]) -> u8
    ensures { result ≡ short.mark value.now }
{
    if is_value(value) { b'a' } else { 0 }
}

// A header value, of which no more is kept than is needed to see that it is too long, and whether it is one.
fn cut(alloc: Global, value: Bytes) -> Result<Bytes, OutOfMemory>
    ensures { IfOk result (λ made. made ≡ short.cut_value value) }
{
    let bytes = value.as_slice();
    if bytes.len() <= MOST_VALUE {
        return Ok(value);
    }
    let mut text = Vec::from_slice(alloc, bytes.split_at(MOST_VALUE).0)?;
    text.push(mark(bytes))?;
    Ok(Bytes::from_vec(text))
}

// A header, its value filled, normalised and then cut.
fn filled_pair(alloc: Global, last: Option<&Event>, pair: &Pair) -> Result<Pair, OutOfMemory>
    ensures { IfOk result (λ filled. filled ≡ short.cut_pair (spec.filled_pair (lent_result last.entry) pair.now)) }
{
    let value = fill_value(alloc, last, pair.value.as_slice())?;
    let value = normalized(alloc, value)?;
    Ok(Pair {
        name: pair.name.copy(alloc)?,
        value: cut(alloc, value)?,
    })
}

// Headers, each with its value filled, normalised and then cut.
fn filled_pairs(alloc: Global, last: Option<&Event>, pairs: &[Pair]) -> Result<Pairs, OutOfMemory>
    ensures { IfOk result
        (λ filled. filled ≡ map short.cut_pair (map (spec.filled_pair (lent_result last.entry)) pairs.now)) }
{
    let mut filled = Pairs::new(alloc);
    for pair in pairs {
        filled.push(filled_pair(alloc, last, pair)?)?;
    }
    Ok(filled)
}

// A body filled, where there is one.
fn filled_body(
    alloc: Global,
    last: Option<&Event>,
    body: &Option<Bytes>,
) -> Result<Option<Bytes>, OutOfMemory>
    ensures { IfOk result (λ made. made
        ≡ option_map short.cut_body (option_map (filled (value_of (lent_result last.entry))) body.now)) }
{
    match body {
        None => Ok(None),
        Some(body) => Ok(Some(fill_first(alloc, MOST_BODY, last, body.as_slice())?)),
    }
}

/// What a script asks of `fetch`, with the parts of the last result in the place of the placeholders in
/// its URL, in the values of its headers and in its body. The values of headers are normalised then:
/// without tab, space, CR and LF at their ends (Fetch, section 2.2.2, "normalize a byte sequence"). Of a value
/// that is longer than 16,384 bytes, which no request has, the first 16,384 are handed on, and behind them a
/// letter, or NUL where the value has a byte that no header value has: so it is refused for what the whole
/// one would be. Its rest is looked at as it comes, and not kept. A body that gets longer than 65,536 bytes,
/// which no request has either, stops growing there, and its first 65,537 are handed on. So it is with a URL of more
/// than 786,432 bytes, which is none.
pub fn filled_init(alloc: Global, last: Option<&Event>, init: &Init) -> Result<Init, OutOfMemory>
    ensures { IfOk result
        (λ filled. filled ≡ short.with_all_cuts (spec.filled_init (lent_result last.entry) init.now)) }
{
    Ok(Init {
        url: fill_first(alloc, MOST_URL, last, init.url.as_slice())?,
        method: init.method.copy(alloc)?,
        mode: init.mode,
        credentials: init.credentials,
        redirect: init.redirect,
        headers: filled_pairs(alloc, last, init.headers.as_slice())?,
        body: filled_body(alloc, last, &init.body)?,
        client_referrer: init.client_referrer,
        referrer_policy: init.referrer_policy,
        integrity: init.integrity.copy(alloc)?,
        upload: init.upload,
    })
}

/// What a script asks of a load, with the parts of the last result in the place of the placeholders in its URL, of
/// which no more is handed on than of a fetch's.
pub fn filled_load(
    alloc: Global,
    last: Option<&Event>,
    init: &LoadInit,
) -> Result<LoadInit, OutOfMemory>
    ensures { IfOk result
        (λ filled. filled ≡ short.with_url_cut (spec.filled_load (lent_result last.entry) init.now)) }
{
    Ok(LoadInit {
        kind: init.kind,
        url: fill_first(alloc, MOST_URL, last, init.url.as_slice())?,
        crossorigin: init.crossorigin,
        nonce: init.nonce.copy(alloc)?,
        integrity: init.integrity.copy(alloc)?,
        parser: init.parser,
        referrer_policy: init.referrer_policy,
    })
}

// Whether a text has no `$`.
fn lacks_dollar(text: &[u8]) -> bool
    ensures { result ≡ short.lacks_dollar text.now }
{
    for byte in text {
        if *byte == b'$' {
            return false;
        }
    }
    true
}

// Whether there is no text, or one without a `$`.
fn lacks_dollar_in(text: &Option<Bytes>) -> bool
    ensures { result ≡ short.lacks_dollar_in text.now }
{
    match text {
        None => true,
        Some(text) => lacks_dollar(text.as_slice()),
    }
}

/// Whether the URL of what a script asks of a load has no `$`, so that there is nothing to replace. It takes no memory.
pub fn is_plain_load(init: &LoadInit) -> bool
    ensures { result ≡ short.lacks_dollar init.now.url }
{
    lacks_dollar(init.url.as_slice())
}

/// Whether what a script asks of `fetch` has no headers and no `$` in its URL and its body, so that
/// there is nothing to replace and nothing to normalise. It takes no memory.
pub fn is_plain(init: &Init) -> bool
    ensures { result ≡ short.is_plain init.now }
{
    init.headers.is_empty() && lacks_dollar(init.url.as_slice()) && lacks_dollar_in(&init.body)
}
