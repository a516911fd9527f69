// The first of a request's CORS-unsafe request-header names that the answer to a preflight does not list.
ghost use Rattle.std.specs.Prelude.{◌≡◌, not, IfOk, option_copied};
ghost use Rattle.std.specs.List.{find};
ghost use Rattle.std.specs.Str.{str_to_ascii_lowercase};
ghost use Rattle.policy_preflight.specs.Verdict as spec;
ghost use Rattle.value_requests.specs.TextSets.{has_text};

use std::alloc::Global;
use value_bytes::{Bytes, OutOfMemory, has_text_fold};
use value_requests::TextSet;

/// Where a request has so many names at most, or so many are allowed, each is compared with each.
const FEW: usize = 8;

// Whether the list names this header, ASCII case aside.
pub(crate) fn has_name(name: &[u8], names: &[Bytes]) -> bool
    ensures { result ≡ spec.has_name name.now names.now }
{
    has_text_fold(names, name)
}

// The first of a few names that is not listed.
fn first_of_few<'a>(names: &[Bytes], unsafe_names: &'a [Bytes]) -> Option<&'a [u8]>
    ensures { option_copied result ≡ find (λ name. not (spec.has_name name names.now)) unsafe_names.now }
{
    for name in unsafe_names {
        if !has_name(name.as_slice(), names) {
            return Some(name.as_slice());
        }
    }
    None
}

// The first name that is not in the set in lower case.
fn first_missing<'a>(
    alloc: Global,
    listed: &TextSet,
    unsafe_names: &'a [Bytes],
) -> Result<Option<&'a [u8]>, OutOfMemory>
    ensures { IfOk result (λ found. option_copied found
        ≡ find (λ name. not (has_text listed.now (str_to_ascii_lowercase name))) unsafe_names.now) }
{
    for name in unsafe_names {
        if !listed.has_in_lower_case(alloc, name.as_slice())? {
            return Ok(Some(name.as_slice()));
        }
    }
    Ok(None)
}

// The first name that is not listed. Many are looked for in a set, so that they cost no more than they are long.
pub(crate) fn first_unlisted<'a>(
    alloc: Global,
    names: &[Bytes],
    unsafe_names: &'a [Bytes],
) -> Result<Option<&'a [u8]>, OutOfMemory>
    ensures { IfOk result (λ found. option_copied found
        ≡ find (λ name. not (spec.has_name name names.now)) unsafe_names.now) }
{
    if names.len() <= FEW || unsafe_names.len() <= FEW {
        return Ok(first_of_few(names, unsafe_names));
    }
    let listed = TextSet::in_lower_case(alloc, names)?;
    first_missing(alloc, &listed, unsafe_names)
}
