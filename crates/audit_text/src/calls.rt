// The calls in the lines of a printed history, read back: each operation, and what it replied.
ghost use Rattle.std.specs.Prelude.{◌≡◌, map, IfOk};
ghost use Rattle.audit_text.specs.Private.Reading as spec;

use crate::lists::{list_in, method_in};
use crate::tail::tail_in;
use crate::words::{credentials_in, is_word, subdomains_in};
use book_calls::{Op, Reply};
use book_hosts::Sts;
use book_preflights::{Lesson, Question};
use std::alloc::Global;
use value_bytes::{Bytes, OutOfMemory};
use value_decimal::number_up_to;

// The ages of known hosts are below 2^48.
const LONGEST_NOTE: u64 = 281_474_976_710_655;

// The greatest age of a lesson, in seconds.
const LONGEST_LESSON: u64 = 7200;

// An operation, and what it replied.
#[derive(Drop)]
pub(crate) struct Call {
    pub(crate) op: Op,
    pub(crate) reply: Reply,
}

// The words after `match`.
fn match_in(alloc: Global, words: &[&[u8]]) -> Result<Option<Call>, OutOfMemory>
    ensures { IfOk result (λ call. call ≡ spec.match_in (map (λ word. word.now) words.now)) }
{
    let [host, rest @ ..] = words else {
        return Ok(None);
    };
    if !is_word(host) {
        return Ok(None);
    }
    let Some(tail) = tail_in(rest) else {
        return Ok(None);
    };
    let op = Op::Match(Bytes::of(alloc, host)?, tail.now);
    Ok(Some(Call {
        op,
        reply: tail.reply,
    }))
}

// The words after `note`.
fn note_in(alloc: Global, words: &[&[u8]]) -> Result<Option<Call>, OutOfMemory>
    ensures { IfOk result (λ call. call ≡ spec.note_in (map (λ word. word.now) words.now)) }
{
    let [host, age, subdomains, rest @ ..] = words else {
        return Ok(None);
    };
    if !is_word(host) {
        return Ok(None);
    }
    let Some(age) = number_up_to(LONGEST_NOTE, age) else {
        return Ok(None);
    };
    let Some(subdomains) = subdomains_in(subdomains) else {
        return Ok(None);
    };
    let Some(tail) = tail_in(rest) else {
        return Ok(None);
    };
    let host = Bytes::of(alloc, host)?;
    Ok(Some(Call {
        op: Op::Note(host, Sts { age, subdomains }, tail.now),
        reply: tail.reply,
    }))
}

// The words after `covers`.
fn covers_in(alloc: Global, words: &[&[u8]]) -> Result<Option<Call>, OutOfMemory>
    ensures { IfOk result (λ call. call ≡ spec.covers_in (map (λ word. word.now) words.now)) }
{
    let [key, origin, credentials, method, names, url, rest @ ..] = words else {
        return Ok(None);
    };
    if !(is_word(key) && is_word(origin) && is_word(url)) {
        return Ok(None);
    }
    let Some(include) = credentials_in(credentials) else {
        return Ok(None);
    };
    let Some(tail) = tail_in(rest) else {
        return Ok(None);
    };
    let Some(method) = method_in(alloc, method)? else {
        return Ok(None);
    };
    let Some(names) = list_in(alloc, names)? else {
        return Ok(None);
    };
    let question = Question {
        key: Bytes::of(alloc, key)?,
        origin: Bytes::of(alloc, origin)?,
        url: Bytes::of(alloc, url)?,
        include,
        method,
        names,
    };
    Ok(Some(Call {
        op: Op::Covers(question, tail.now),
        reply: tail.reply,
    }))
}

// The words after `learn`.
fn learn_in(alloc: Global, words: &[&[u8]]) -> Result<Option<Call>, OutOfMemory>
    ensures { IfOk result (λ call. call ≡ spec.learn_in (map (λ word. word.now) words.now)) }
{
    let [
        key,
        origin,
        credentials,
        age,
        methods,
        names,
        url,
        rest @ ..,
    ] = words
    else {
        return Ok(None);
    };
    if !(is_word(key) && is_word(origin) && is_word(url)) {
        return Ok(None);
    }
    let Some(include) = credentials_in(credentials) else {
        return Ok(None);
    };
    let Some(age) = number_up_to(LONGEST_LESSON, age) else {
        return Ok(None);
    };
    let Some(tail) = tail_in(rest) else {
        return Ok(None);
    };
    let Some(methods) = list_in(alloc, methods)? else {
        return Ok(None);
    };
    let Some(names) = list_in(alloc, names)? else {
        return Ok(None);
    };
    let lesson = Lesson {
        key: Bytes::of(alloc, key)?,
        origin: Bytes::of(alloc, origin)?,
        url: Bytes::of(alloc, url)?,
        include,
        age,
        methods,
        names,
    };
    Ok(Some(Call {
        op: Op::Learn(lesson, tail.now),
        reply: tail.reply,
    }))
}

// The words after `clear`.
fn clear_in(alloc: Global, words: &[&[u8]]) -> Result<Option<Call>, OutOfMemory>
    ensures { IfOk result (λ call. call ≡ spec.clear_in (map (λ word. word.now) words.now)) }
{
    let [key, origin, url, rest @ ..] = words else {
        return Ok(None);
    };
    if !(is_word(key) && is_word(origin) && is_word(url)) {
        return Ok(None);
    }
    let Some(tail) = tail_in(rest) else {
        return Ok(None);
    };
    let key = Bytes::of(alloc, key)?;
    let origin = Bytes::of(alloc, origin)?;
    let url = Bytes::of(alloc, url)?;
    Ok(Some(Call {
        op: Op::Clear(key, origin, url, tail.now),
        reply: tail.reply,
    }))
}

// An operation by its name, with what follows it.
pub(crate) fn call_in(alloc: Global, words: &[&[u8]]) -> Result<Option<Call>, OutOfMemory>
    ensures { IfOk result (λ call. call ≡ spec.call_in (map (λ word. word.now) words.now)) }
{
    let [name, rest @ ..] = words else {
        return Ok(None);
    };
    let name = *name;
    if name == b"match".as_slice() {
        match_in(alloc, rest)
    } else if name == b"note".as_slice() {
        note_in(alloc, rest)
    } else if name == b"covers".as_slice() {
        covers_in(alloc, rest)
    } else if name == b"learn".as_slice() {
        learn_in(alloc, rest)
    } else if name == b"clear".as_slice() {
        clear_in(alloc, rest)
    } else {
        Ok(None)
    }
}
