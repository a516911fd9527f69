// Whether a source list lets a request through (CSP 3, section 6.7.2 "does request match source list?").
ghost use Rattle.std.specs.Prelude.{◌≡◌, ◌||◌, not, IfOk, OnOk, if◌then◌else◌};
ghost use Rattle.std.specs.List.{list_all, list_any};
ghost use Rattle.policy_csp.specs.Private.Hashes.{is_in};
ghost use Rattle.policy_csp.specs.SourceLists as spec;
ghost use Rattle.policy_integrity.specs.declared.metadata.HashExpression.{HashExpression};
ghost use Rattle.policy_integrity.specs.Metadata.{metadata_of};
ghost use Rattle.value_requests.specs.Requests.{IsRequest};
ghost use Rattle.value_requests.specs.declared.policy.Destination.TheVariants.{Script};

use policy_csp_match::{Source, SourceList};
use policy_integrity::{HashExpression, Metadata};
use std::alloc::Global;
use std::collections::BTreeSet;
use value_bytes::OutOfMemory;
use value_origins::Origin;
use value_requests::{Destination, Request};

/// For how many hash expressions at most the source list is looked through for each.
const FEW: usize = 8;

// Whether it is a nonce-source of this value.
fn is_nonce(source: &Source<'_>, nonce: &[u8]) -> bool
    ensures { result ≡ spec.is_nonce nonce.now source.now }
{
    match source {
        Source::Nonce(value) => value.as_slice() == nonce,
        _ => false,
    }
}

// Whether there is a nonce-source of this value.
fn has_nonce(sources: &SourceList, nonce: &[u8]) -> bool
    ensures { result ≡ list_any (spec.is_nonce nonce.now) sources.now }
{
    for index in 0..sources.len() {
        if is_nonce(&sources.at(index), nonce) {
            return true;
        }
    }
    false
}

// "does nonce match source list".
fn nonce_matches(nonce: &[u8], sources: &SourceList) -> bool
    ensures { result ≡ spec.nonce_matches nonce.now sources.now }
{
    !nonce.is_empty() && has_nonce(sources, nonce)
}

// Whether it is a hash-source of this algorithm and this value.
fn is_hash(source: &Source<'_>, hash: &HashExpression) -> bool
    ensures { result ≡ spec.is_hash hash.now source.now }
{
    match source {
        Source::Hash(algorithm, value) => {
            *algorithm == hash.algorithm && value.as_slice() == hash.value.as_slice()
        }
        _ => false,
    }
}

// Whether there is a hash-source for the hash expression.
fn has_hash(sources: &SourceList, hash: &HashExpression) -> bool
    ensures { result ≡ list_any (spec.is_hash hash.now) sources.now }
{
    for index in 0..sources.len() {
        if is_hash(&sources.at(index), hash) {
            return true;
        }
    }
    false
}

// Whether there is a hash-source for each of a few hash expressions.
fn few_listed(metadata: &[HashExpression], sources: &SourceList) -> bool
    ensures { result ≡ list_all (λ hash. list_any (spec.is_hash hash) sources.now) metadata.now }
{
    metadata.iter().all(|hash| has_hash(sources, hash))
}

// Adds a source to a set of hash-sources, where it is one.
fn add_hash<'a>(
    hashes: &mut BTreeSet<(u32, &'a [u8])>,
    source: &Source<'a>,
) -> Result<(), OutOfMemory>
    ensures { OnOk result ((hash : HashExpression) → is_in hash hashes.new.keys
        ≡ (spec.is_hash hash source.now || is_in hash hashes.old.keys)) }
{
    match source {
        Source::Hash(algorithm, value) => {
            hashes.insert((*algorithm, value.as_slice()))?;
            Ok(())
        }
        _ => Ok(()),
    }
}

// The hash-sources of a source list.
fn hashes_in<'a>(
    alloc: Global,
    sources: &'a SourceList,
) -> Result<BTreeSet<(u32, &'a [u8])>, OutOfMemory>
    ensures { IfOk result (λ hashes. (hash : HashExpression) → is_in hash hashes.keys
        ≡ list_any (spec.is_hash hash) sources.now) }
{
    let mut hashes = BTreeSet::new(alloc);
    for index in 0..sources.len() {
        add_hash(&mut hashes, &sources.at(index))?;
    }
    Ok(hashes)
}

// Whether a hash expression is among hash-sources.
fn is_among<'a>(hashes: &BTreeSet<(u32, &'a [u8])>, hash: &'a HashExpression) -> bool
    ensures { result ≡ is_in hash.now hashes.now.keys }
{
    hashes.contains(&(hash.algorithm, hash.value.as_slice()))
}

// Whether each hash expression is among hash-sources.
fn all_among<'a>(hashes: &BTreeSet<(u32, &'a [u8])>, metadata: &'a [HashExpression]) -> bool
    ensures { result ≡ list_all (λ hash. is_in hash hashes.now.keys) metadata.now }
{
    for hash in metadata {
        if !is_among(hashes, hash) {
            return false;
        }
    }
    true
}

// Whether there is a hash-source for each hash expression. Many are looked for in a set, so that they cost no
// more than they are long.
fn all_listed<'a>(
    alloc: Global,
    metadata: &'a [HashExpression],
    sources: &'a SourceList,
) -> Result<bool, OutOfMemory>
    ensures { IfOk result (λ answer. answer
        ≡ list_all (λ hash. list_any (spec.is_hash hash) sources.now) metadata.now) }
{
    if metadata.len() <= FEW {
        return Ok(few_listed(metadata, sources));
    }
    let hashes = hashes_in(alloc, sources)?;
    Ok(all_among(&hashes, metadata))
}

// Whether there are hash expressions, and a hash-source for each.
fn integrity_matches(
    alloc: Global,
    metadata: &Metadata,
    sources: &SourceList,
) -> Result<bool, OutOfMemory>
    ensures { IfOk result (λ answer. answer ≡ spec.integrity_matches metadata.now sources.now) }
{
    if metadata.is_empty() {
        return Ok(false);
    }
    all_listed(alloc, metadata.as_slice(), sources)
}

// Whether `'strict-dynamic'` is among them.
fn has_strict_dynamic(sources: &SourceList) -> bool
    ensures { result ≡ list_any spec.is_strict_dynamic sources.now }
{
    for index in 0..sources.len() {
        if matches!(sources.at(index), Source::StrictDynamic) {
            return true;
        }
    }
    false
}

// Whether there is no source, or `'none'` alone.
fn is_none_list(sources: &SourceList) -> bool
    ensures { result ≡ spec.is_none_list sources.now }
{
    match sources.len() {
        0 => true,
        1 => matches!(sources.at(0), Source::NoneWord),
        _ => false,
    }
}

// "does url match source list in origin with redirect count".
fn url_matches(sources: &SourceList, request: &Request, document: &Origin) -> bool
    requires { IsRequest request.now }
    ensures { result ≡ spec.url_matches sources.now request.now document.now }
{
    !is_none_list(sources)
        && sources.any_matches(request.current_url(), document, request.redirects)
}

// Whether a source list without a matching nonce lets a script through that its integrity metadata do not.
fn script_passes_by_url(sources: &SourceList, request: &Request, document: &Origin) -> bool
    requires { IsRequest request.now }
    ensures { result ≡ (if list_any spec.is_strict_dynamic sources.now then not request.now.parser
        else spec.url_matches sources.now request.now document.now) }
{
    if has_strict_dynamic(sources) {
        !request.parser
    } else {
        url_matches(sources, request, document)
    }
}

// Whether a source list lets a script through. The metadata is that of the request.
fn script_passes(
    alloc: Global,
    sources: &SourceList,
    metadata: &Metadata,
    request: &Request,
    document: &Origin,
) -> Result<bool, OutOfMemory>
    requires request { IsRequest request.now }
    requires metadata { metadata.now ≡ metadata_of request.now.integrity }
    ensures { IfOk result (λ answer. answer ≡ spec.script_passes sources.now request.now document.now) }
{
    if nonce_matches(request.nonce.as_slice(), sources) {
        return Ok(true);
    }
    if integrity_matches(alloc, metadata, sources)? {
        return Ok(true);
    }
    Ok(script_passes_by_url(sources, request, document))
}

// Whether a source list lets a style through.
fn style_passes(sources: &SourceList, request: &Request, document: &Origin) -> bool
    requires { IsRequest request.now }
    ensures { result ≡ spec.style_passes sources.now request.now document.now }
{
    nonce_matches(request.nonce.as_slice(), sources) || url_matches(sources, request, document)
}

// Whether a source list lets the request through. The metadata is that of the request, where it is for a script.
pub(crate) fn passes(
    alloc: Global,
    sources: &SourceList,
    metadata: &Metadata,
    request: &Request,
    document: &Origin,
) -> Result<bool, OutOfMemory>
    requires request { IsRequest request.now }
    requires metadata { request.now.destination ≡ Script → metadata.now ≡ metadata_of request.now.integrity }
    ensures { IfOk result (λ answer. answer
        ≡ spec.passes sources.now request.now document.now request.now.destination) }
{
    match request.destination {
        Destination::Script => script_passes(alloc, sources, metadata, request, document),
        Destination::Style => Ok(style_passes(sources, request, document)),
        _ => Ok(url_matches(sources, request, document)),
    }
}
