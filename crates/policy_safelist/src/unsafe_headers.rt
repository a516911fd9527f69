// "CORS-unsafe request-header names" (Fetch, section 2.2.2).
ghost use Rattle.std.specs.Prelude.{◌≡◌, map, nat_lt, IfOk};
ghost use Rattle.std.specs.Str.{str_to_ascii_lowercase};
ghost use Rattle.policy_safelist.specs.Sets.{IsSortedLowercaseSet};
ghost use Rattle.policy_safelist.specs.UnsafeNames as spec;

use crate::safelisted::is_safelisted;
use crate::sets::{listed, sort_and_dedup};
use std::alloc::Global;
use value_bytes::{BytesList, OutOfMemory, in_lower_case};
use value_headers::{Field, HeaderList};

// How many bytes the values of the safelisted headers may have together.
const LONGEST_TOTAL: usize = 1024;

// Whether the header is safelisted.
fn is_safelisted_header(header: &Field) -> bool
    ensures { result ≡ spec.is_safelisted_header header.now }
{
    is_safelisted(header.name(), header.value())
}

// Whether the values of the safelisted headers are too long together.
fn are_too_long(headers: &[Field]) -> bool
    ensures { result ≡ nat_lt 1024 (spec.safelisted_size headers.now) }
{
    let mut size = 0usize;
    for header in headers {
        if is_safelisted_header(header) {
            size = size.saturating_add(header.value().len());
        }
    }
    size > LONGEST_TOTAL
}

// The names of the unsafe headers in lower case: one for each such header, in order.
fn lowered_names(
    alloc: Global,
    too_long: bool,
    headers: &[Field],
) -> Result<Vec<Vec<u8>>, OutOfMemory>
    ensures { IfOk result (λ names. map (λ name. name.items) names.items
        ≡ map str_to_ascii_lowercase (map (λ header. header.name) (spec.unsafe_headers too_long headers.now))) }
{
    let mut names = Vec::new(alloc);
    for header in headers {
        if too_long || !is_safelisted_header(header) {
            names.push(in_lower_case(alloc, header.name())?.into_vec()?)?;
        }
    }
    Ok(names)
}

/// "CORS-unsafe request-header names": the names of the headers that are not safelisted, and, where the
/// values of the safelisted headers have more than 1,024 bytes together, their names too; in lower case,
/// in ascending order of their bytes, each once (Fetch, section 2.2.2).
pub fn unsafe_names(alloc: Global, headers: &HeaderList) -> Result<BytesList, OutOfMemory>
    ensures names { IfOk result (λ names. names ≡ spec.unsafe_names headers.now) }
    ensures set { IfOk result (λ names. IsSortedLowercaseSet (spec.names_of_unsafe headers.now) names) }
{
    let too_long = are_too_long(headers.as_slice());
    let mut names = lowered_names(alloc, too_long, headers.as_slice())?;
    sort_and_dedup(&mut names);
    listed(alloc, names)
}
