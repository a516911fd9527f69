// Source expressions of content security policies.
ghost use Rattle.c_rules.specs.Answers.{IsUnlessMemory};
ghost use Rattle.c_rules.specs.Sources as spec;

use crate::reading::{read_url, read_web_url};
use crate::refusal::Refusal;
use policy_csp_match::{matches, parse_source};
use std::alloc::Global;
use value_origins::tuple_origin;

/// Whether a word of a policy, as a source expression, matches a URL, for a page and a number of redirects (CSP 3,
/// "does url match expression in origin with redirect count"). `NotUrl`, of the first that is refused; `NotHttp` of the
/// page.
pub fn source_matches(
    alloc: Global,
    word: &[u8],
    url: &[u8],
    page: &[u8],
    redirects: u32,
) -> Result<bool, Refusal>
    ensures { IsUnlessMemory result (spec.source_matches word.now url.now page.now redirects) }
{
    let url = read_url(alloc, url)?;
    let page = read_web_url(alloc, page)?;
    let source = parse_source(word);
    Ok(matches(&source, &url, &tuple_origin(alloc, &page)?, redirects))
}
