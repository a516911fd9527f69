// Splits a text at a byte, or at ASCII whitespace (Infra, "split on ASCII whitespace").
ghost use Rattle.std.specs.Prelude.{◌≡◌, ◌==◌, filter, map, IfOk};
ghost use Rattle.std.specs.Char.{is_ascii_whitespace};
ghost use Rattle.std.specs.List.{slice_split};
ghost use Rattle.value_text.specs.Words as spec;

use std::alloc::{AllocError, Global};

/// The parts of a text between such bytes, in order: one more than there are such bytes.
pub fn parts_between(alloc: Global, text: &[u8], byte: u8) -> Result<Vec<&[u8]>, AllocError>
    ensures { IfOk result (λ parts. map (λ part. part.now) parts.items ≡ slice_split (λ b. b == byte) text.now) }
{
    text.split(|b| *b == byte).collect(alloc)
}

// The parts of a text between bytes of ASCII whitespace.
fn between_blanks(alloc: Global, text: &[u8]) -> Result<Vec<&[u8]>, AllocError>
    ensures { IfOk result (λ parts. map (λ part. part.now) parts.items ≡ slice_split is_ascii_whitespace text.now) }
{
    text.split(|b| b.is_ascii_whitespace()).collect(alloc)
}

// The parts that have a byte.
fn filled<'a>(alloc: Global, parts: &[&'a [u8]]) -> Result<Vec<&'a [u8]>, AllocError>
    ensures { IfOk result (λ words. map (λ word. word.now) words.items
        ≡ filter spec.is_filled (map (λ part. part.now) parts.now)) }
{
    let mut words = Vec::new(alloc);
    for part in parts {
        if !part.is_empty() {
            words.push(*part)?;
        }
    }
    Ok(words)
}

/// The words of a text: what is between its ASCII whitespace, which is tab, LF, FF, CR and space
/// (Infra, "split on ASCII whitespace"). No word is empty.
pub fn words(alloc: Global, text: &[u8]) -> Result<Vec<&[u8]>, AllocError>
    ensures { IfOk result (λ words. map (λ word. word.now) words.items ≡ spec.words text.now) }
{
    let parts = between_blanks(alloc, text)?;
    filled(alloc, parts.as_slice())
}
