// Finds the headers of a response among the names that it exposes, in a set where both are many.
ghost use Rattle.std.specs.Prelude.{◌≡◌, ◌||◌, ℕ, List, true, IfOk, OnOk};
ghost use Rattle.std.specs.List.{list_any};
ghost use Rattle.value_text.specs.Texts.{Text};
ghost use Rattle.policy_filter.specs.Private.Listing.{Agree, is_found, is_safelisted_among, is_there};
ghost use Rattle.value_headers.specs.declared.headers.Header.{Header};
ghost use Rattle.policy_checks.specs.PermittedNames.{has_name_among};
ghost use Rattle.value_requests.specs.TextSets.{has_text};

use crate::exposed::Exposure;
use crate::names::{has_safelisted_name, is_forbidden, is_safelisted};
use std::alloc::Global;
use value_bytes::{Bytes, BytesList, OutOfMemory};
use value_headers::Field;
use value_requests::TextSet;

/// Where there are so many headers or exposed names at most, each header is compared with each name.
const FEW: usize = 8;

/// The names that a header list exposes, as its headers are looked up in them.
#[derive(Drop)]
pub enum Exposed {
    /// All names of the list.
    All,
    /// These names, ASCII case aside.
    Few(BytesList),
    /// The names of those headers of the list that are exposed, byte for byte.
    Many(TextSet),
}

// Adds the header's name, where it is in the set in lower case.
fn add_name(
    alloc: Global,
    found: &mut TextSet,
    lower: &TextSet,
    header: &Field,
) -> Result<(), OutOfMemory>
    ensures { OnOk result ((name : Text) → has_text found.new name
        ≡ (is_found lower.now name header.now || has_text found.old name)) }
{
    let name = header.name();
    if lower.has_in_lower_case(alloc, name)? {
        found.add(alloc, name)?;
    }
    Ok(())
}

// The names of headers, as they are spelled, that are in the set in lower case.
fn found_in(alloc: Global, lower: &TextSet, headers: &[Field]) -> Result<TextSet, OutOfMemory>
    ensures { IfOk result (λ found. (name : Text) → has_text found name
        ≡ list_any (is_found lower.now name) headers.now) }
{
    let mut found = TextSet::new(alloc);
    for header in headers {
        add_name(alloc, &mut found, lower, header)?;
    }
    Ok(found)
}

// The names of those headers that have one of many names.
fn exposed_among(alloc: Global, names: &[Bytes], headers: &[Field]) -> Result<TextSet, OutOfMemory>
    ensures { IfOk result (λ found. (header : Header) → is_there headers.now header.name ≡ true
        → has_text found header.name ≡ has_name_among names.now header) }
{
    let lower = TextSet::in_lower_case(alloc, names)?;
    found_in(alloc, &lower, headers)
}

// What a header list exposes, as its headers are looked up. Where names and headers are many, the names are put into a
// set, so that they cost no more than they are long.
pub fn exposed_in(
    alloc: Global,
    exposure: Exposure,
    headers: &[Field],
) -> Result<Exposed, OutOfMemory>
    ensures { IfOk result (λ exposed. Agree headers.now exposed exposure) }
{
    match exposure {
        Exposure::All => Ok(Exposed::All),
        Exposure::Names(names) => {
            if names.len() <= FEW || headers.len() <= FEW {
                return Ok(Exposed::Few(names));
            }
            Ok(Exposed::Many(exposed_among(alloc, names.as_slice(), headers)?))
        }
    }
}

// Whether a header of the list has a CORS-safelisted response-header name. Where all names are exposed, the header's
// own is one of them, so it is only asked whether it is forbidden.
pub fn is_safelisted_among(exposed: &Exposed, header: &Field) -> bool
    ensures { result ≡ is_safelisted_among exposed.now header.now }
{
    match exposed {
        Exposed::All => !is_forbidden(header),
        Exposed::Few(names) => is_safelisted(names.as_slice(), header),
        Exposed::Many(found) => {
            has_safelisted_name(header) || (found.has(header.name()) && !is_forbidden(header))
        }
    }
}
