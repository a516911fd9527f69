// What is asked of a whole body.
ghost use Rattle.c_rules.specs.Answers.{IsUnlessMemory};
ghost use Rattle.c_rules.specs.Bodies as spec;

use crate::refusal::Refusal;
use policy_integrity::{matches, parse_metadata};
use std::alloc::Global;

/// Whether a whole body matches an integrity text (SRI, section 3.3, "do bytes match metadataList" of what "parse
/// metadata" gives). A text without valid metadata matches every body.
pub fn matches_integrity(alloc: Global, metadata: &[u8], body: &[u8]) -> Result<bool, Refusal>
    ensures { IsUnlessMemory result (spec.matches_integrity metadata.now body.now) }
{
    let metadata = parse_metadata(alloc, metadata)?;
    Ok(matches(alloc, body, &metadata)?)
}
