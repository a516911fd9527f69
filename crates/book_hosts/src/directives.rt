// Reads the directives of a Strict-Transport-Security field (RFC 6797, section 6.1).
ghost use Rattle.std.specs.Prelude.{◌≡◌, ◌==◌, ◌<◌, length, Some, None, IfOk, if◌then◌else◌, option_copied};
ghost use Rattle.std.specs.List.{list_all};
ghost use Rattle.book_hosts.specs.Grammar.{is_blank};
ghost use Rattle.book_hosts.specs.Reading.{behind_equals, directive_in, directive_with, directives_of, piece_in};
ghost use Rattle.book_hosts.specs.Reading.{unquoted, value_in, with_more};

use crate::pieces::piece_end;
use std::alloc::Global;
use value_bytes::{Bytes, Items, OutOfMemory, in_lower_case};
use value_text::{before_byte, is_token, position_of, trim_tab_or_space};

const TAB_OR_SPACE: &[u8] = b"\t ";

/// A directive of a Strict-Transport-Security field (RFC 6797, section 6.1).
#[derive(Drop)]
pub(crate) struct Directive {
    /// In lower case, since names compare in any case.
    pub(crate) name: Bytes,
    /// A token as it is written, or a quoted string without its quotes and backslashes.
    pub(crate) value: Option<Bytes>,
}

// A quoted string's value, from what follows its first quote; nothing where the text is not one
// quoted string to its end.
fn unquoted(alloc: Global, text: &[u8]) -> Result<Option<Bytes>, OutOfMemory>
    ensures { IfOk result (λ value. value ≡ unquoted text.now) }
{
    let mut value = Vec::new(alloc);
    let mut rest = text;
    while let [first, after @ ..] = rest {
        match *first {
            b'"' if after.is_empty() => return Ok(Some(Bytes::from_vec(value))),
            b'"' => return Ok(None),
            b'\\' => {
                let [byte, behind @ ..] = after else {
                    return Ok(None);
                };
                value.push(*byte)?;
                rest = behind;
            }
            byte => {
                value.push(byte)?;
                rest = after;
            }
        }
    }
    Ok(None)
}

// A directive's value: that of a token or of a quoted string, or nothing where it is neither.
fn value_in(alloc: Global, text: &[u8]) -> Result<Option<Bytes>, OutOfMemory>
    ensures { IfOk result (λ value. value ≡ value_in text.now) }
{
    if let [b'"', behind @ ..] = text {
        return unquoted(alloc, behind);
    }
    if is_token(text) {
        Ok(Some(Bytes::of(alloc, text)?))
    } else {
        Ok(None)
    }
}

// What comes after the first equals sign, where there is one.
fn behind_equals(text: &[u8]) -> Option<&[u8]>
    ensures { option_copied result ≡ behind_equals text.now }
{
    match position_of(text, b'=') {
        Some(index) => Some(text.split_at(index + 1).1),
        None => None,
    }
}

// A directive with this name, and with the value in this text if there is one; nothing where the
// text is no value.
fn directive_with(
    alloc: Global,
    name: &[u8],
    written: Option<&[u8]>,
) -> Result<Option<Directive>, OutOfMemory>
    ensures { IfOk result (λ directive. directive ≡ directive_with name.now (option_copied written.entry)) }
{
    let name = in_lower_case(alloc, name)?;
    let Some(written) = written else {
        return Ok(Some(Directive { name, value: None }));
    };
    match value_in(alloc, trim_tab_or_space(written))? {
        Some(value) => Ok(Some(Directive {
            name,
            value: Some(value),
        })),
        None => Ok(None),
    }
}

// The text as a directive, or nothing where it is none.
fn directive_in(alloc: Global, text: &[u8]) -> Result<Option<Directive>, OutOfMemory>
    ensures { IfOk result (λ directive. directive ≡ directive_in text.now) }
{
    let name = trim_tab_or_space(before_byte(text, b'='));
    if is_token(name) {
        directive_with(alloc, name, behind_equals(text))
    } else {
        Ok(None)
    }
}

// Whether there are tabs and spaces alone.
fn is_blank(text: &[u8]) -> bool
    ensures { result ≡ list_all is_blank text.now }
{
    text.iter().all(|byte| TAB_OR_SPACE.contains(byte))
}

// Adds a piece as a directive, if it is not blank. Answers whether it is a directive or blank.
fn add_piece(
    alloc: Global,
    directives: &mut Items<Directive>,
    piece: &[u8],
) -> Result<bool, OutOfMemory>
    ensures { IfOk result (λ fits. (if fits then Some directives.new else None)
        ≡ with_more (Some directives.old) (piece_in piece.now)) }
{
    if is_blank(piece) {
        return Ok(true);
    }
    match directive_in(alloc, piece)? {
        Some(directive) => {
            directives.push(directive)?;
            Ok(true)
        }
        None => Ok(false),
    }
}

// The directives of a field's value, in order, or nothing where the value does not follow the grammar
// (RFC 6797, section 6.1).
pub(crate) fn directives_of(
    alloc: Global,
    value: &[u8],
) -> Result<Option<Items<Directive>>, OutOfMemory>
    ensures { IfOk result (λ directives. directives ≡ directives_of value.now) }
{
    let mut directives = Items::new(alloc);
    let mut rest = value;
    loop {
        let (piece, behind) = rest.split_at(piece_end(rest));
        if !add_piece(alloc, &mut directives, piece)? {
            return Ok(None);
        }
        match behind {
            [] => return Ok(Some(directives)),
            [_, after @ ..] => rest = after,
        }
    }
}
