// Whether a body matches integrity metadata (SRI, section 3.3 "do bytes match metadataList").
ghost use Rattle.std.specs.Prelude.{◌≡◌, ◌==◌, ◌&&◌, bytes_eq, map, IfOk};
ghost use Rattle.std.specs.List.{list_any};
ghost use Rattle.base64.specs.Engines.{standard};
ghost use Rattle.base64.specs.GeneralPurpose.{encode_of};
ghost use Rattle.policy_integrity.specs.Matching as spec;

use crate::metadata::{HashExpression, Metadata};
use base64::engine::general_purpose::STANDARD;
use sha2::{Digest, Sha256, Sha384, Sha512};
use std::alloc::Global;
use value_bytes::{Bytes, OutOfMemory};

// The greatest algorithm of the hash expressions.
fn strongest_algorithm(metadata: &[HashExpression]) -> u32
    ensures { result ≡ spec.strongest_algorithm metadata.now }
{
    let mut strongest = 0u32;
    for hash in metadata {
        strongest = strongest.max(hash.algorithm);
    }
    strongest
}

// The standard base64 of a digest, with padding.
fn written(alloc: Global, digest: &[u8]) -> Result<Bytes, OutOfMemory>
    ensures { IfOk result (λ text. text ≡ encode_of standard digest.now) }
{
    let text = STANDARD.encode(alloc, digest)?;
    Ok(Bytes::from_vec(text.into_bytes()))
}

// The body's digest by an algorithm, written in base64.
fn written_digest(alloc: Global, algorithm: u32, body: &[u8]) -> Result<Option<Bytes>, OutOfMemory>
    ensures { IfOk result (λ text. text ≡ spec.written_digest algorithm body.now) }
{
    let text = match algorithm {
        256 => written(alloc, &Sha256::digest(body))?,
        384 => written(alloc, &Sha384::digest(body))?,
        512 => written(alloc, &Sha512::digest(body))?,
        _ => return Ok(None),
    };
    Ok(Some(text))
}

// The symbol of the standard alphabet that a byte of a value is read as.
fn standard_symbol(byte: u8) -> u8
    ensures { result ≡ spec.standard_symbol byte }
{
    match byte {
        b'-' => b'+',
        b'_' => b'/',
        _ => byte,
    }
}

// Whether the value, in the standard alphabet, is this text.
fn is_in_standard(value: &[u8], text: &[u8]) -> bool
    ensures { result ≡ bytes_eq (map spec.standard_symbol value.now) text.now }
{
    if value.len() != text.len() {
        return false;
    }
    for (index, byte) in value.iter().enumerate() {
        if standard_symbol(*byte) != text[index] {
            return false;
        }
    }
    true
}

// Whether there is a text, and the value, in the standard alphabet, is this text.
fn reads_as(value: &[u8], text: &Option<Bytes>) -> bool
    ensures { result ≡ spec.reads_as value.now text.now }
{
    match text {
        None => false,
        Some(text) => is_in_standard(value, text.as_slice()),
    }
}

// Whether a hash expression of this algorithm has this digest.
fn any_reads_as(metadata: &[HashExpression], algorithm: u32, digest: &Option<Bytes>) -> bool
    ensures { result ≡ list_any (λ hash. hash.algorithm == algorithm
        && spec.reads_as hash.value digest.now) metadata.now }
{
    metadata.iter().any(|hash| hash.algorithm == algorithm
        && reads_as(hash.value.as_slice(), digest))
}

// Whether one of the strongest hash expressions has the body's digest.
fn matches_strongest(
    alloc: Global,
    body: &[u8],
    metadata: &[HashExpression],
) -> Result<bool, OutOfMemory>
    ensures { IfOk result (λ answer. answer ≡ list_any (spec.has_digest body.now) (spec.strongest metadata.now)) }
{
    let algorithm = strongest_algorithm(metadata);
    let digest = written_digest(alloc, algorithm, body)?;
    Ok(any_reads_as(metadata, algorithm, &digest))
}

/// Whether a whole body matches the metadata (SRI, section 3.3, "do bytes match metadataList"): there
/// is none, or of the hash expressions with the strongest algorithm ("get the strongest metadata from
/// set") one is the standard base64, with padding, of the body's digest. In a value `-` and `_` are read
/// as `+` and `/` (profile). A hash expression of another number than 256, 384 and 512, which no text
/// gives, has no digest.
pub fn matches(alloc: Global, body: &[u8], metadata: &Metadata) -> Result<bool, OutOfMemory>
    ensures { IfOk result (λ answer. answer ≡ spec.matches body.now metadata.now) }
{
    if metadata.is_empty() {
        return Ok(true);
    }
    matches_strongest(alloc, body, metadata.as_slice())
}
