// Potentially trustworthy origins and URLs (Secure Contexts, sections 3.1 and 3.2).
ghost use Rattle.std.specs.Prelude.{◌≡◌};
ghost use Rattle.url.specs.Parts.{nonempty_host};
ghost use Rattle.value_origins.specs.Origins.{kind_of_host};
ghost use Rattle.value_origins.specs.Trust as spec;

use crate::names::is_local_name;
use crate::origin::{HostKind, Origin, is_http, is_https};
use url::{Host, Url};

// Whether the host is the machine itself: a localhost name, an address of 127.0.0.0/8, or ::1.
fn is_loopback(host: &HostKind) -> bool
    ensures { result ≡ spec.is_loopback host.now }
{
    match host {
        HostKind::Domain(name) => is_local_name(name.as_slice()),
        HostKind::V4(bits) => *bits >> 24 == 127,
        HostKind::V6(bits) => *bits == 1,
    }
}

/// Whether an origin is potentially trustworthy: its scheme is https, or its host is a localhost
/// name, an address of 127.0.0.0/8 or ::1 (Secure Contexts, section 3.1, "is origin potentially
/// trustworthy"). It takes no memory.
pub fn is_trustworthy(origin: &Origin) -> bool
    ensures { result ≡ spec.is_trustworthy origin.now }
{
    origin.scheme.as_slice() == b"https".as_slice() || is_loopback(&origin.host)
}

// Whether the host of a URL is the machine itself.
fn has_loopback_host(url: &Url) -> bool
    ensures { result ≡ spec.is_loopback (kind_of_host (nonempty_host url.now)) }
{
    match url.host() {
        None => false,
        Some(Host::Domain(name)) => is_local_name(name.as_bytes()),
        Some(Host::Ipv4(address)) => address.to_bits() >> 24 == 127,
        Some(Host::Ipv6(address)) => address.to_bits() == 1,
    }
}

/// Whether a URL is potentially trustworthy: it is http or https, and its origin is (Secure Contexts,
/// section 3.2, "is url potentially trustworthy"). It takes no memory.
pub fn is_trustworthy_url(url: &Url) -> bool
    ensures { result ≡ spec.is_trustworthy_url url.now }
{
    is_https(url.scheme()) || (is_http(url.scheme()) && has_loopback_host(url))
}
