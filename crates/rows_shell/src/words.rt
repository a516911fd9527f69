// Names in rows, and words of the form `NAME=VALUE`.
use crate::failed::Failed;
use crate::row::texts_between;
use std::alloc::Global;
use value_bytes::{Bytes, BytesList};
use value_requests::{Destination, ReferrerPolicy};
use value_text::{after_byte, before_byte};

/// The destinations by their names. `Fetch` has two: `fetch` and the empty name.
const DESTINATIONS: [(&[u8], Destination); 9] = [
    (b"", Destination::Fetch),
    (b"fetch", Destination::Fetch),
    (b"image", Destination::Image),
    (b"audio", Destination::Audio),
    (b"video", Destination::Video),
    (b"style", Destination::Style),
    (b"script", Destination::Script),
    (b"font", Destination::Font),
    (b"manifest", Destination::Manifest),
];

/// The referrer policies by their tokens.
const POLICIES: [(&[u8], ReferrerPolicy); 9] = [
    (b"", ReferrerPolicy::Empty),
    (b"no-referrer", ReferrerPolicy::NoReferrer),
    (
        b"no-referrer-when-downgrade",
        ReferrerPolicy::NoReferrerWhenDowngrade,
    ),
    (b"same-origin", ReferrerPolicy::SameOrigin),
    (b"origin", ReferrerPolicy::Origin),
    (b"strict-origin", ReferrerPolicy::StrictOrigin),
    (
        b"origin-when-cross-origin",
        ReferrerPolicy::OriginWhenCrossOrigin,
    ),
    (
        b"strict-origin-when-cross-origin",
        ReferrerPolicy::StrictOriginWhenCrossOrigin,
    ),
    (b"unsafe-url", ReferrerPolicy::UnsafeUrl),
];

/// The value of a name in a table.
pub fn named<T: Copy>(table: &[(&[u8], T)], name: &[u8]) -> Result<T, Failed> {
    for (word, value) in table {
        if *word == name {
            return Ok(*value);
        }
    }
    Err(Failed)
}

// Whether a word is this name, or begins with it and `=`.
fn is_named(word: &[u8], name: &[u8]) -> bool {
    before_byte(word, b'=') == name
}

// The first word of a text, which is cut at spaces, that is this name or begins with it and `=`.
fn word_named<'a>(text: &'a [u8], name: &[u8]) -> Option<&'a [u8]> {
    let mut rest = text;
    for _ in 0..text.len() {
        let word = before_byte(rest, b' ');
        if is_named(word, name) {
            return Some(word);
        }
        rest = after_byte(rest, b' ');
    }
    None
}

/// What follows `NAME=` in the first word of a text that is `NAME` or begins with `NAME=`; empty where there is no such
/// word, or nothing follows. Words are cut at spaces.
pub fn value_of<'a>(text: &'a [u8], name: &[u8]) -> &'a [u8] {
    match word_named(text, name) {
        Some(word) => after_byte(word, b'='),
        None => &[],
    }
}

/// Whether a text has the word `NAME`, or one that begins with `NAME=`.
pub fn has_word(text: &[u8], name: &[u8]) -> bool {
    word_named(text, name).is_some()
}

/// What follows `NAME=` in each word that begins with it, in order.
pub fn values_of(alloc: Global, text: &[u8], name: &[u8]) -> Result<BytesList, Failed> {
    let mut values = BytesList::new(alloc);
    for word in texts_between(alloc, text, b' ')?.as_slice() {
        let word = word.as_slice();
        if is_named(word, name) {
            values.push(Bytes::of(alloc, after_byte(word, b'='))?)?;
        }
    }
    Ok(values)
}

/// The destination that has this name.
pub fn destination_named(name: &[u8]) -> Result<Destination, Failed> {
    named(&DESTINATIONS, name)
}

/// The referrer policy that has this token.
pub fn policy_named(name: &[u8]) -> Result<ReferrerPolicy, Failed> {
    named(&POLICIES, name)
}
