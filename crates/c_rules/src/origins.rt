// Origins of URLs that are given as texts.
ghost use Rattle.c_rules.specs.Answers.{IsUnlessMemory};
ghost use Rattle.c_rules.specs.Origins as spec;

use crate::reading::{read_url, read_web_url};
use crate::refusal::Refusal;
use policy_checks::bad_port;
use std::alloc::Global;
use value_bytes::Bytes;
use value_origins::{have_same_origin, is_trustworthy_url, same_site, serialize, tuple_origin};

/// The serialised origin of an http or https URL (HTML, section 7.1.1, "serialization of an origin"). `NotUrl`, or
/// `NotHttp` for a URL of another scheme, whose origin is not looked at here.
pub fn origin_text(alloc: Global, url: &[u8]) -> Result<Bytes, Refusal>
    ensures { IsUnlessMemory result (spec.origin_text url.now) }
{
    let url = read_web_url(alloc, url)?;
    let origin = tuple_origin(alloc, &url)?;
    Ok(serialize(alloc, &origin)?)
}

/// Whether two http or https URLs have the same origin (HTML, section 7.1.1, "same origin"). `NotUrl` or `NotHttp`, of
/// the first URL that is refused.
pub fn are_same_origin(alloc: Global, a: &[u8], b: &[u8]) -> Result<bool, Refusal>
    ensures { IsUnlessMemory result (spec.are_same_origin a.now b.now) }
{
    let a = read_web_url(alloc, a)?;
    let b = read_web_url(alloc, b)?;
    Ok(have_same_origin(&a, &b))
}

/// Whether the origins of two http or https URLs are of one site, whatever their schemes and ports (HTML, section
/// 7.1.1, "schemelessly same site", with the last two labels of a domain in the place of a registrable domain).
/// `NotUrl` or `NotHttp`, of the first URL that is refused.
pub fn are_same_site(alloc: Global, a: &[u8], b: &[u8]) -> Result<bool, Refusal>
    ensures { IsUnlessMemory result (spec.are_same_site a.now b.now) }
{
    let a = read_web_url(alloc, a)?;
    let b = read_web_url(alloc, b)?;
    Ok(same_site(&tuple_origin(alloc, &a)?, &tuple_origin(alloc, &b)?))
}

/// Whether a URL is potentially trustworthy (Secure Contexts, section 3.2, "is url potentially trustworthy"); one that
/// is neither http nor https is not. `NotUrl`.
pub fn is_trustworthy(alloc: Global, url: &[u8]) -> Result<bool, Refusal>
    ensures { IsUnlessMemory result (spec.is_trustworthy url.now) }
{
    let url = read_url(alloc, url)?;
    Ok(is_trustworthy_url(&url))
}

/// Whether an http or https URL has a bad port, to which nothing is sent (Fetch, section 2.9, "bad port"). `NotUrl` or
/// `NotHttp`.
pub fn goes_to_bad_port(alloc: Global, url: &[u8]) -> Result<bool, Refusal>
    ensures { IsUnlessMemory result (spec.goes_to_bad_port url.now) }
{
    let url = read_web_url(alloc, url)?;
    Ok(bad_port(url.port()))
}
