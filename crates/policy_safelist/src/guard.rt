// How a header is appended to a Headers object that has a guard (Fetch, section 5.1).
ghost use Rattle.std.specs.Prelude.{◌≡◌, IfOk, OnErr};
ghost use Rattle.value_headers.specs.Headers.{combined};
ghost use Rattle.policy_safelist.specs.Guards as spec;

use crate::forbidden::is_forbidden_header;
use crate::safelisted::is_safelisted;
use std::alloc::Global;
use value_bytes::{Bytes, OutOfMemory};
use value_headers::HeaderList;
use value_text::{is_among_fold, is_token, is_value};

/// The guard of a Headers object (Fetch, section 5.1).
#[derive(Clone, Copy, Debug, PartialEq, Eq)]
pub enum Guard {
    /// "request"
    Request,
    /// "request-no-cors"
    NoCors,
}

/// What came of appending a header to a Headers object.
#[derive(Clone, Copy, Debug, PartialEq, Eq)]
pub enum Appended {
    /// The list has one header more.
    Kept,
    /// The guard does not let the header in.
    Ignored,
    /// The name is no token.
    BadName,
    /// The value is no header value.
    BadValue,
}

// The no-CORS-safelisted request-header names.
const NO_CORS_NAMES: [&[u8]; 4] = [
    b"Accept",
    b"Accept-Language",
    b"Content-Language",
    b"Content-Type",
];

// The value, with what is there of its name, a comma and a space before it.
fn value_behind(alloc: Global, there: Option<Bytes>, value: &[u8]) -> Result<Bytes, OutOfMemory>
    ensures { IfOk result (λ text. text ≡ spec.value_behind there value.now) }
{
    match there {
        None => Bytes::of(alloc, value),
        Some(there) => {
            let mut text = there;
            text.append(b", ")?;
            text.append(value)?;
            Ok(text)
        }
    }
}

// Whether the header is one that the guard "request-no-cors" may let in.
fn is_no_cors_safelisted(name: &[u8], value: &[u8]) -> bool
    ensures { result ≡ spec.is_no_cors_safelisted name.now value.now }
{
    is_among_fold(&NO_CORS_NAMES, name) && is_safelisted(name, value)
}

// Whether the guard lets the header in.
fn allows(
    alloc: Global,
    guard: Guard,
    name: &[u8],
    value: &[u8],
    headers: &HeaderList,
) -> Result<bool, OutOfMemory>
    ensures { IfOk result (λ allowed. allowed ≡ spec.allows guard name.now value.now headers.now) }
{
    match guard {
        Guard::Request => Ok(!is_forbidden_header(alloc, name, value)?),
        Guard::NoCors => {
            let there = headers.get(alloc, name)?;
            let whole = value_behind(alloc, there, value)?;
            Ok(is_no_cors_safelisted(name, whole.as_slice()))
        }
    }
}

// What comes of appending the header.
fn outcome(
    alloc: Global,
    guard: Guard,
    name: &[u8],
    value: &[u8],
    headers: &HeaderList,
) -> Result<Appended, OutOfMemory>
    ensures { IfOk result (λ outcome. outcome ≡ spec.outcome guard name.now value.now headers.now) }
{
    if !is_token(name) {
        return Ok(Appended::BadName);
    }
    if !is_value(value) {
        return Ok(Appended::BadValue);
    }
    if allows(alloc, guard, name, value, headers)? {
        Ok(Appended::Kept)
    } else {
        Ok(Appended::Ignored)
    }
}

/// Appends a header to the list of a Headers object with a guard (Fetch, section 5.1).
///
/// `BadName` exactly where the name is no token; else `BadValue` exactly where the value is no header
/// value. Else, under `Request`, a forbidden request-header is `Ignored`; under `NoCors` a header is
/// `Ignored` unless its name is Accept, Accept-Language, Content-Language or Content-Type and the value,
/// joined by a comma and a space to the values of that name in the list, is safelisted. Only what is
/// `Kept` changes the list, as "append" does. Want of memory leaves the list as it was.
pub fn guarded_append(
    alloc: Global,
    headers: &mut HeaderList,
    guard: Guard,
    name: &[u8],
    value: &[u8],
) -> Result<Appended, OutOfMemory>
    ensures outcome { IfOk result (λ outcome. outcome ≡ spec.outcome guard name.now value.now headers.old) }
    ensures list { IfOk result (λ outcome. headers.new ≡ spec.list_after outcome name.now value.now headers.old) }
    ensures err { OnErr result (headers.new ≡ headers.old) }
{
    let outcome = outcome(alloc, guard, name, value, headers)?;
    if outcome == Appended::Kept {
        headers.append(name, value)?;
    }
    Ok(outcome)
}
