// The names of response headers that a CORS response exposes (Fetch, section 2.2.6 "CORS-exposed header-name list").
ghost use Rattle.std.specs.Prelude.{◌≡◌, codes, IfOk, OnOk};
ghost use Rattle.policy_filter.specs.Exposed as spec;
ghost use Rattle.policy_filter.specs.Private.Collecting.{with_new};
ghost use Rattle.policy_filter.specs.Private.Exposing as private;

use std::alloc::Global;
use value_bytes::{Bytes, BytesList, OutOfMemory, has_text_fold};
use value_headers::{Field, HeaderList};
use value_lists::{Extracted, Rule, extract_values, has_wildcard};

/// The names of response headers that a CORS response exposes.
#[derive(Drop)]
pub enum Exposure {
    /// All names of the response's header list.
    All,
    /// These names.
    Names(BytesList),
}

// Adds a name, unless it is there.
fn add_name(alloc: Global, names: &mut BytesList, name: &[u8]) -> Result<(), OutOfMemory>
    ensures { OnOk result (names.new ≡ with_new name.now names.old) }
{
    if has_text_fold(names.as_slice(), name) {
        return Ok(());
    }
    names.push(Bytes::of(alloc, name)?)
}

// The names of headers, each once, in order.
#[tactic(auto, using(crate::proofs::CollectingLemmas::new_all))]
fn header_names(alloc: Global, headers: &[Field]) -> Result<BytesList, OutOfMemory>
    ensures { IfOk result (λ names. names ≡ spec.header_names headers.now) }
{
    let mut names = BytesList::new(alloc);
    for header in headers {
        add_name(alloc, &mut names, header.name())?;
    }
    Ok(names)
}

// What the extracted names of Access-Control-Expose-Headers expose.
fn exposure_by(alloc: Global, include: bool, found: Extracted) -> Exposure
    ensures { result ≡ private.exposure_by include found }
{
    match found {
        Extracted::Items(names) => {
            if !include && has_wildcard(names.as_slice()) {
                Exposure::All
            } else {
                Exposure::Names(names)
            }
        }
        Extracted::Absent | Extracted::Failure => Exposure::Names(BytesList::new(alloc)),
    }
}

// What a header list exposes, where the credentials mode is include or another.
pub fn exposure_of(
    alloc: Global,
    headers: &HeaderList,
    include: bool,
) -> Result<Exposure, OutOfMemory>
    ensures { IfOk result (λ exposure. exposure ≡ private.exposure include headers.now) }
{
    let found = extract_values(
        alloc,
        headers,
        b"Access-Control-Expose-Headers",
        Rule::Tokens,
    )?;
    Ok(exposure_by(alloc, include, found))
}

/// The names of response headers that a CORS response exposes ("CORS-exposed header-name list",
/// Fetch, section 2.2.6, as main fetch sets it): those of Access-Control-Expose-Headers extracted
/// as a list, none where it is absent or a failure. Where `*` is one of them and the credentials
/// mode is not include, they are all names of the list, each once; with include `*` is a name like
/// another. Each name of the list is then compared with those before it; a head has at most 128
/// lines. The only error is want of memory.
#[tactic(auto, using(crate::proofs::ExposureLemmas::exposed_names_of))]
pub fn exposed_names(
    alloc: Global,
    headers: &HeaderList,
    include: bool,
) -> Result<BytesList, OutOfMemory>
    ensures { IfOk result (λ names. names ≡ spec.exposed_names include headers.now) }
{
    match exposure_of(alloc, headers, include)? {
        Exposure::All => header_names(alloc, headers.as_slice()),
        Exposure::Names(names) => Ok(names),
    }
}
