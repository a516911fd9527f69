// Hosts that may be known HSTS hosts (RFC 6797, section 8.1.1).
ghost use Rattle.std.specs.Prelude.{◌≡◌, IfOk};
ghost use Rattle.value_requests.specs.HostNames as spec;
ghost use Rattle.value_text.specs.Mime.{is_text};

use crate::urls::{url_alone, utf8_text};
use std::alloc::Global;
use url::Url;
use value_bytes::OutOfMemory;
use value_origins::is_local_name;

// The http URL of a host, where the text gives one.
fn http_url_of(alloc: Global, host: &str) -> Result<Option<Url>, OutOfMemory>
    ensures { IfOk result (λ url. url ≡ spec.http_url_of host.now) }
{
    let address = format!(in alloc; "http://{host}/")?;
    url_alone(alloc, address.as_str())
}

// Whether the host of a URL is a domain with exactly this text.
fn has_domain(url: &Url, text: &str) -> bool
    ensures { result ≡ is_text text.now (spec.domain_in url.now) }
{
    match url.domain() {
        Some(domain) => domain == text,
        None => false,
    }
}

/// Whether a text is a domain as a URL has it, and no localhost name: such a host may be known. An address, a port and
/// a capital letter are no part of one.
pub fn is_host_name(alloc: Global, host: &str) -> Result<bool, OutOfMemory>
    ensures { IfOk result (λ is. is ≡ spec.is_host_name host.now) }
{
    if is_local_name(host.as_bytes()) {
        return Ok(false);
    }
    match http_url_of(alloc, host)? {
        Some(url) => Ok(has_domain(&url, host)),
        None => Ok(false),
    }
}

/// The same of bytes, which are none where they are not UTF-8.
pub fn are_host_name(alloc: Global, bytes: &[u8]) -> Result<bool, OutOfMemory>
    ensures { IfOk result (λ are. are ≡ spec.are_host_name bytes.now) }
{
    match utf8_text(bytes) {
        Some(host) => is_host_name(alloc, host),
        None => Ok(false),
    }
}
