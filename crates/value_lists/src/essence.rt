// The essence of the MIME type that headers give (Fetch, "extract a MIME type").
ghost use Rattle.std.specs.Prelude.{◌≡◌, IfOk, option_copied, option_map};
ghost use Rattle.std.specs.Str.{str_to_ascii_lowercase};
ghost use Rattle.value_lists.specs.Essence as spec;

use crate::split_values;
use std::alloc::Global;
use value_bytes::{Bytes, BytesList, OutOfMemory, in_lower_case};
use value_headers::HeaderList;
use value_text::{essence_is, written_essence};

// The essence of a value, as it is written, where it is a MIME type other than `*/*`.
fn specific_essence(value: &[u8]) -> Option<&[u8]>
    ensures { option_map str_to_ascii_lowercase (option_copied result) ≡ spec.specific_essence value.now }
{
    if essence_is(value, b"*/*") {
        return None;
    }
    written_essence(value)
}

// The last of the values' essences, as it is written.
fn last_essence(values: &BytesList) -> Option<&[u8]>
    ensures { option_map str_to_ascii_lowercase (option_copied result) ≡ spec.last_essence values.now }
{
    let mut last = None;
    for index in 0..values.len() {
        if let Some(essence) = specific_essence(values.at(index)) {
            last = Some(essence);
        }
    }
    last
}

/// The essence, in lower case, of the MIME type that the headers give: that of the last value of
/// Content-Type, after it was got, decoded and split, that is a MIME type other than `*/*`; nothing
/// where there is none (Fetch, "extract a MIME type").
pub fn essence_of(alloc: Global, headers: &HeaderList) -> Result<Option<Bytes>, OutOfMemory>
    ensures { IfOk result (λ essence. essence ≡ spec.essence_of headers.now) }
{
    let Some(values) = split_values(alloc, headers, b"Content-Type")? else {
        return Ok(None);
    };
    match last_essence(&values) {
        Some(written) => Ok(Some(in_lower_case(alloc, written)?)),
        None => Ok(None),
    }
}
