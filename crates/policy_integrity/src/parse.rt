// Reads the metadata of an integrity text (SRI, section 3.3 "parse metadata").
ghost use Rattle.std.specs.Prelude.{◌≡◌, map, IfOk, OnOk};
ghost use Rattle.std.specs.List.{filter_map};
ghost use Rattle.policy_integrity.specs.Metadata as spec;
ghost use Rattle.policy_integrity.specs.Private.Collecting.{with_found};

use crate::metadata::{HashExpression, Metadata};
use std::alloc::Global;
use value_bytes::{Bytes, OutOfMemory};
use value_text::{after_byte, before_byte, is_base64_value, words};

// The algorithm of a name, by its bits.
fn algorithm_named(name: &[u8]) -> Option<u32>
    ensures { result ≡ spec.algorithm_named name.now }
{
    if name == b"sha256".as_slice() {
        Some(256)
    } else if name == b"sha384".as_slice() {
        Some(384)
    } else if name == b"sha512".as_slice() {
        Some(512)
    } else {
        None
    }
}

// The hash expression of an algorithm and a value, where both are valid.
fn expression_of(
    alloc: Global,
    algorithm: Option<u32>,
    value: &[u8],
) -> Result<Option<HashExpression>, OutOfMemory>
    ensures { IfOk result (λ hash. hash ≡ spec.expression_of algorithm value.now) }
{
    if !is_base64_value(value) {
        return Ok(None);
    }
    match algorithm {
        None => Ok(None),
        Some(algorithm) => Ok(Some(HashExpression {
            algorithm,
            value: Bytes::of(alloc, value)?,
        })),
    }
}

// The hash expression of a token, where it is valid.
fn hash_of(alloc: Global, token: &[u8]) -> Result<Option<HashExpression>, OutOfMemory>
    ensures { IfOk result (λ hash. hash ≡ spec.hash_of token.now) }
{
    let expression = before_byte(token, b'?');
    let algorithm = algorithm_named(before_byte(expression, b'-'));
    expression_of(alloc, algorithm, after_byte(expression, b'-'))
}

// Adds a hash expression, where there is one.
fn add_found(metadata: &mut Metadata, found: Option<HashExpression>) -> Result<(), OutOfMemory>
    ensures { OnOk result (metadata.new ≡ with_found found metadata.old) }
{
    match found {
        None => Ok(()),
        Some(hash) => metadata.push(hash),
    }
}

// The hash expressions of the words.
fn collected(alloc: Global, words: &[&[u8]]) -> Result<Metadata, OutOfMemory>
    ensures { IfOk result (λ metadata. metadata ≡ filter_map spec.hash_of (map (λ word. word.now) words.now)) }
{
    let mut metadata = Metadata::new(alloc);
    for word in words {
        let found = hash_of(alloc, word)?;
        add_found(&mut metadata, found)?;
    }
    Ok(metadata)
}

/// The hash expressions of an integrity text, in order (SRI, section 3.3, "parse metadata"). The text is
/// cut at ASCII whitespace, and each token ends before its first `?`. A token counts where it is
/// `sha256-V`, `sha384-V` or `sha512-V`, the name in lower case, with V one or more of letters, digits,
/// `+`, `/`, `-` and `_` and then at most two `=`; any other is skipped.
pub fn parse_metadata(alloc: Global, text: &[u8]) -> Result<Metadata, OutOfMemory>
    ensures { IfOk result (λ metadata. metadata ≡ spec.metadata_of text.now) }
{
    collected(alloc, words(alloc, text)?.as_slice())
}
