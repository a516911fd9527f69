// URLs, origins and clients that a row writes.
ghost use Rattle.std.specs.Prelude.{IfOk};
ghost use Rattle.value_requests.specs.Requests.{IsClient};

use crate::failed::Failed;
use std::alloc::Global;
use url::Url;
use value_origins::{Origin, is_http_url, origin_of};
use value_requests::{Client, ReferrerPolicy, url_alone, utf8_text};

/// The URL that a text writes.
pub fn url_written(alloc: Global, text: &[u8]) -> Result<Url, Failed> {
    let Some(text) = utf8_text(text) else {
        return Err(Failed);
    };
    match url_alone(alloc, text)? {
        Some(url) => Ok(url),
        None => Err(Failed),
    }
}

/// The origin of the http or https URL that a text writes.
pub fn origin_written(alloc: Global, text: &[u8]) -> Result<Origin, Failed> {
    let url = url_written(alloc, text)?;
    match origin_of(alloc, &url)? {
        Some(origin) => Ok(origin),
        None => Err(Failed),
    }
}

/// The client of a document at the http or https URL that a text writes, which is its own top.
pub fn client_at(alloc: Global, text: &[u8]) -> Result<Client, Failed>
    ensures { IfOk result IsClient }
{
    let url = url_written(alloc, text)?;
    if !is_http_url(&url) {
        return Err(Failed);
    }
    let policy = ReferrerPolicy::StrictOriginWhenCrossOrigin;
    Ok(Client::of(alloc, &url, &url, policy)?)
}
