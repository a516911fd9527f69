// Names of headers.
ghost use Rattle.std.specs.Prelude.{◌≡◌, slice_get, IfOk};
ghost use Rattle.c_rules.specs.Answers.{IsUnlessMemory};
ghost use Rattle.c_rules.specs.Names as spec;

use crate::refusal::Refusal;
use policy_filter::exposed_names;
use policy_safelist::{is_forbidden_header as is_forbidden, unsafe_names};
use std::alloc::Global;
use value_bytes::{Bytes, OutOfMemory};
use value_headers::HeaderList;
use value_text::{is_token, is_value};

// The text at an index, copied.
fn text_at(alloc: Global, texts: &[Bytes], at: usize) -> Result<Option<Bytes>, OutOfMemory>
    ensures { IfOk result (λ text. text ≡ slice_get texts.now at) }
{
    match texts.get(at) {
        None => Ok(None),
        Some(text) => Ok(Some(text.copy(alloc)?)),
    }
}

/// The CORS-unsafe request-header name of a header list at an index, in lower case, or nothing behind the last (Fetch,
/// section 2.2.2, "CORS-unsafe request-header names"). They ascend by their bytes.
pub fn unsafe_name_at(alloc: Global, list: &HeaderList, at: usize) -> Result<Option<Bytes>, Refusal>
    ensures { IsUnlessMemory result (spec.unsafe_name_at list.now at) }
{
    let names = unsafe_names(alloc, list)?;
    Ok(text_at(alloc, names.as_slice(), at)?)
}

/// The name at an index that an answer's header list exposes, or nothing behind the last (Fetch, section 2.2.6,
/// "CORS-exposed header-name list"), where the credentials mode is include or another.
pub fn exposed_name_at(
    alloc: Global,
    list: &HeaderList,
    include: bool,
    at: usize,
) -> Result<Option<Bytes>, Refusal>
    ensures { IsUnlessMemory result (spec.exposed_name_at include list.now at) }
{
    let names = exposed_names(alloc, list, include)?;
    Ok(text_at(alloc, names.as_slice(), at)?)
}

/// Whether a name and a value are a forbidden request-header, which no script can set (Fetch, section 2.2.2).
/// `NotHeader` where the name is no token or the value no header value.
pub fn is_forbidden_header(alloc: Global, name: &[u8], value: &[u8]) -> Result<bool, Refusal>
    ensures { IsUnlessMemory result (spec.is_forbidden name.now value.now) }
{
    if !(is_token(name) && is_value(value)) {
        return Err(Refusal::NotHeader);
    }
    Ok(is_forbidden(alloc, name, value)?)
}
