// MIME types of answers.
ghost use Rattle.c_rules.specs.Answers.{IsUnlessMemory};
ghost use Rattle.c_rules.specs.Types as spec;

use crate::refusal::Refusal;
use std::alloc::Global;
use value_bytes::Bytes;
use value_headers::HeaderList;

/// The essence, in lower case, of the MIME type that a header list gives, or nothing where it gives none (Fetch,
/// "extract a MIME type").
pub fn essence_in(alloc: Global, list: &HeaderList) -> Result<Option<Bytes>, Refusal>
    ensures { IsUnlessMemory result (spec.essence_in list.now) }
{
    Ok(value_lists::essence_of(alloc, list)?)
}
