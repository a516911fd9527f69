// What an answer's headers let a request of another origin have.
ghost use Rattle.c_rules.specs.Answers.{IsUnlessMemory};
ghost use Rattle.c_rules.specs.Cors as spec;

use crate::reading::read_web_url;
use crate::refusal::Refusal;
use policy_checks::corp_blocks;
use std::alloc::Global;
use value_headers::HeaderList;
use value_origins::tuple_origin;

/// Whether the answer of a URL is kept from the requests of a page, in mode no-cors (Fetch, "cross-origin resource
/// policy check", of the page's origin and the URL's). `NotUrl` or `NotHttp`, of the first URL that is refused.
pub fn is_kept_by_resource_policy(
    alloc: Global,
    page: &[u8],
    url: &[u8],
    headers: &HeaderList,
) -> Result<bool, Refusal>
    ensures { IsUnlessMemory result (spec.is_kept_by_resource_policy page.now url.now headers.now) }
{
    let page = read_web_url(alloc, page)?;
    let url = read_web_url(alloc, url)?;
    let origin = tuple_origin(alloc, &page)?;
    Ok(corp_blocks(&origin, &tuple_origin(alloc, &url)?, headers))
}
