// URLs of texts.
ghost use Rattle.c_rules.specs.Answers.{IsUnlessMemory};
ghost use Rattle.c_rules.specs.Reading as spec;

use crate::refusal::Refusal;
use std::alloc::Global;
use url::Url;
use value_origins::is_http_url;
use value_requests::{url_alone, utf8_text};

/// The URL that a text gives by itself (URL Standard, section 4.4), or `NotUrl`.
pub fn read_url(alloc: Global, text: &[u8]) -> Result<Url, Refusal>
    ensures { IsUnlessMemory result (spec.url_in text.now) }
{
    let Some(address) = utf8_text(text) else {
        return Err(Refusal::NotUrl);
    };
    match url_alone(alloc, address)? {
        Some(url) => Ok(url),
        None => Err(Refusal::NotUrl),
    }
}

/// The http or https URL that a text gives by itself; `NotUrl`, or `NotHttp` for one of another scheme.
pub fn read_web_url(alloc: Global, text: &[u8]) -> Result<Url, Refusal>
    ensures { IsUnlessMemory result (spec.web_url_in text.now) }
{
    let url = read_url(alloc, text)?;
    if is_http_url(&url) {
        Ok(url)
    } else {
        Err(Refusal::NotHttp)
    }
}
