// Origins of http and https URLs: which are the same, and how one is serialised (HTML, section 7.1.1).
ghost use Rattle.std.specs.Prelude.{◌≡◌, ◌==◌, ◌↔◌, ◌++◌, bytes_eq, codes, IsTrue, IfOk, OnOk};
ghost use Rattle.value_origins.specs.Origins as spec;
ghost use Rattle.url.specs.Parts.{nonempty_host};

use std::alloc::Global;
use std::net::{Ipv4Addr, Ipv6Addr};
use url::{Host, Url};
use value_bytes::{Bytes, OutOfMemory};

/// The host of an origin: a domain, or an IP address as a number.
#[derive(Drop)]
pub enum HostKind {
    Domain(Bytes),
    V4(u32),
    V6(u128),
}

/// The tuple origin of an http or https URL (HTML, section 7.1.1).
#[derive(Drop)]
pub struct Origin {
    pub scheme: Bytes,
    pub host: HostKind,
    pub port: u16,
}

impl HostKind {
    /// An equal host.
    pub fn copy(&self, alloc: Global) -> Result<HostKind, OutOfMemory>
        ensures { IfOk result (λ host. host ≡ self.now) }
    {
        match self {
            HostKind::Domain(name) => Ok(HostKind::Domain(name.copy(alloc)?)),
            HostKind::V4(bits) => Ok(HostKind::V4(*bits)),
            HostKind::V6(bits) => Ok(HostKind::V6(*bits)),
        }
    }
}

impl Origin {
    /// An equal origin.
    pub fn copy(&self, alloc: Global) -> Result<Origin, OutOfMemory>
        ensures { IfOk result (λ origin. origin ≡ self.now) }
    {
        let scheme = self.scheme.copy(alloc)?;
        let host = self.host.copy(alloc)?;
        let port = self.port;
        Ok(Origin { scheme, host, port })
    }
}

// Whether a scheme is http.
pub(crate) fn is_http(scheme: &str) -> bool
    ensures { result ≡ bytes_eq scheme.now (codes "http") }
{
    matches!(scheme.as_bytes(), [b'h', b't', b't', b'p'])
}

// Whether a scheme is https.
pub(crate) fn is_https(scheme: &str) -> bool
    ensures { result ≡ bytes_eq scheme.now (codes "https") }
{
    matches!(scheme.as_bytes(), [b'h', b't', b't', b'p', b's'])
}

/// Whether the scheme of a URL is http or https, an HTTP(S) scheme (Fetch, section 2.1). It takes no
/// memory.
pub fn is_http_url(url: &Url) -> bool
    ensures { result ≡ spec.is_http url.now.scheme }
{
    is_https(url.scheme()) || is_http(url.scheme())
}

// The host of a URL by its kind; one without a host has the empty domain.
fn kind_of(alloc: Global, url: &Url) -> Result<HostKind, OutOfMemory>
    ensures { IfOk result (λ host. host ≡ spec.kind_of_host (nonempty_host url.now)) }
{
    match url.host() {
        None => Ok(HostKind::Domain(Bytes::new(alloc))),
        Some(Host::Domain(name)) => Ok(HostKind::Domain(Bytes::of(alloc, name.as_bytes())?)),
        Some(Host::Ipv4(address)) => Ok(HostKind::V4(address.to_bits())),
        Some(Host::Ipv6(address)) => Ok(HostKind::V6(address.to_bits())),
    }
}

/// The tuple of scheme, host and port that is the origin of an http or https URL (URL, section 4.7,
/// "origin").
pub fn tuple_origin(alloc: Global, url: &Url) -> Result<Origin, OutOfMemory>
    ensures { IfOk result (λ origin. origin ≡ spec.tuple_origin url.now) }
{
    let scheme = Bytes::of(alloc, url.scheme().as_bytes())?;
    let host = kind_of(alloc, url)?;
    let port = port_of(url);
    Ok(Origin { scheme, host, port })
}

/// The origin of a URL, or nothing exactly where its scheme is neither http nor https (URL, section
/// 4.7, "origin").
pub fn origin_of(alloc: Global, url: &Url) -> Result<Option<Origin>, OutOfMemory>
    ensures { IfOk result (λ origin. origin ≡ spec.origin_of url.now) }
{
    if !is_http_url(url) {
        return Ok(None);
    }
    Ok(Some(tuple_origin(alloc, url)?))
}

// Whether two hosts are of one kind and identical.
fn same_host(a: &HostKind, b: &HostKind) -> bool
    ensures { result ≡ spec.same_host a.now b.now }
{
    match (a, b) {
        (HostKind::Domain(a), HostKind::Domain(b)) => a.as_slice() == b.as_slice(),
        (HostKind::V4(a), HostKind::V4(b)) => a == b,
        (HostKind::V6(a), HostKind::V6(b)) => a == b,
        _ => false,
    }
}

/// Whether two origins are the same: their schemes, hosts and ports are identical (HTML, section
/// 7.1.1, "same origin"). It takes no memory.
pub fn same_origin(a: &Origin, b: &Origin) -> bool
    ensures value { result ≡ spec.same_origin a.now b.now }
    ensures equal { IsTrue result ↔ (a.now ≡ b.now) }
{
    a.scheme.as_slice() == b.scheme.as_slice() && same_host(&a.host, &b.host) && a.port == b.port
}

/// Whether the host of an origin is that of a URL, whatever their schemes and ports. It takes no
/// memory.
pub fn is_host_of(origin: &Origin, url: &Url) -> bool
    ensures { result ≡ spec.is_host_of origin.now url.now }
{
    match (&origin.host, url.host()) {
        (HostKind::Domain(name), None) => name.is_empty(),
        (HostKind::Domain(name), Some(Host::Domain(other))) => name.as_slice() == other.as_bytes(),
        (HostKind::V4(bits), Some(Host::Ipv4(address))) => *bits == address.to_bits(),
        (HostKind::V6(bits), Some(Host::Ipv6(address))) => *bits == address.to_bits(),
        _ => false,
    }
}

/// The port of a URL, or the default one of its scheme where it has none, as its tuple origin has it (URL,
/// section 4.7, "origin"); 0 where its scheme has none. It takes no memory.
#[tactic(auto, unfolding(url::specs::Scheme::default_port))]
pub fn port_of(url: &Url) -> u16
    ensures { result ≡ (spec.tuple_origin url.now).port }
{
    match url.port() {
        Some(port) => port,
        None if is_https(url.scheme()) => 443,
        None if is_http(url.scheme()) => 80,
        None => url.port_or_known_default().unwrap_or(0),
    }
}

/// Whether a URL is http or https and has this origin: `origin_of` of the URL gives one that is the
/// same. It takes no memory.
pub fn is_origin_of(origin: &Origin, url: &Url) -> bool
    ensures { result ≡ spec.is_origin_of origin.now url.now }
{
    is_http_url(url)
        && origin.scheme.as_slice() == url.scheme().as_bytes()
        && is_host_of(origin, url)
        && origin.port == port_of(url)
}

// Whether two URLs have identical hosts of one kind; a URL without a host has the empty domain.
fn have_same_host(url: &Url, other: &Url) -> bool
    ensures { result ≡ spec.same_host (spec.kind_of_host (nonempty_host url.now))
        (spec.kind_of_host (nonempty_host other.now)) }
{
    match (url.host(), other.host()) {
        (None, None) => true,
        (None, Some(Host::Domain(name))) => name.is_empty(),
        (Some(Host::Domain(name)), None) => name.is_empty(),
        (Some(Host::Domain(a)), Some(Host::Domain(b))) => a == b,
        (Some(Host::Ipv4(a)), Some(Host::Ipv4(b))) => a.to_bits() == b.to_bits(),
        (Some(Host::Ipv6(a)), Some(Host::Ipv6(b))) => a.to_bits() == b.to_bits(),
        _ => false,
    }
}

// Whether two URLs of one scheme have the same port. Mostly they say, or leave out, the same.
fn have_same_port(url: &Url, other: &Url) -> bool
    requires { url.now.scheme ≡ other.now.scheme }
    ensures { result ≡ ((spec.tuple_origin url.now).port == (spec.tuple_origin other.now).port) }
{
    url.port() == other.port() || port_of(url) == port_of(other)
}

/// Whether two URLs are http or https and have the same origin: their schemes, hosts and ports are
/// identical, a port that is left out being the default one of the scheme. It takes no memory.
pub fn have_same_origin(url: &Url, other: &Url) -> bool
    ensures { result ≡ spec.have_same_origin url.now other.now }
{
    is_http_url(url)
        && url.scheme() == other.scheme()
        && have_same_host(url, other)
        && have_same_port(url, other)
}

/// Whether the port is the default port of this scheme, which is http or https (URL, section 4.2, "special
/// scheme"). It takes no memory.
pub fn is_default_port(scheme: &[u8], port: u16) -> bool
    ensures { result ≡ spec.is_default_port scheme.now port }
{
    (scheme == b"http".as_slice() && port == 80) || (scheme == b"https".as_slice() && port == 443)
}

// Adds the host as a URL writes it.
#[tactic(auto, unfolding(std::specs::Net::Addr::IsIpv4OfBits, std::specs::Net::Addr::IsIpv6OfBits))]
fn add_host(alloc: Global, text: &mut Bytes, host: &HostKind) -> Result<(), OutOfMemory>
    ensures { OnOk result (text.new ≡ text.old ++ spec.host_text host.now) }
{
    match host {
        HostKind::Domain(name) => text.append(name.as_slice()),
        HostKind::V4(bits) => {
            let address = Ipv4Addr::from_bits(*bits).to_string(alloc)?;
            text.append(address.as_bytes())
        }
        HostKind::V6(bits) => {
            let address = Ipv6Addr::from_bits(*bits).hex_groups().to_string(alloc)?;
            text.append(b"[")?;
            text.append(address.as_bytes())?;
            text.append(b"]")
        }
    }
}

// Adds a colon and the port, where it is not the default port of the scheme.
fn add_port(alloc: Global, text: &mut Bytes, scheme: &[u8], port: u16) -> Result<(), OutOfMemory>
    ensures { OnOk result (text.new ≡ text.old ++ spec.port_text scheme.now port) }
{
    if is_default_port(scheme, port) {
        return Ok(());
    }
    text.append(b":")?;
    text.append(port.to_string(alloc)?.as_bytes())
}

// Adds the host of a URL as it is written in its origin. Most are domains, which are not copied for it.
fn add_host_of(alloc: Global, text: &mut Bytes, url: &Url) -> Result<(), OutOfMemory>
    ensures { OnOk result (text.new ≡ text.old ++ spec.host_text (spec.kind_of_host (nonempty_host url.now))) }
{
    match url.host() {
        None => Ok(()),
        Some(Host::Domain(name)) => text.append(name.as_bytes()),
        Some(Host::Ipv4(_)) | Some(Host::Ipv6(_)) => {
            add_host(alloc, text, &kind_of(alloc, url)?)
        }
    }
}

/// The serialization of an origin: scheme, `://`, host, and `:` and the port where it is not the
/// default port of http or https (HTML, section 7.1.1, "serialization of an origin").
pub fn serialize(alloc: Global, origin: &Origin) -> Result<Bytes, OutOfMemory>
    ensures { IfOk result (λ text. text ≡ spec.serialized origin.now) }
{
    let mut text = Bytes::of(alloc, origin.scheme.as_slice())?;
    text.append(b"://")?;
    add_host(alloc, &mut text, &origin.host)?;
    add_port(alloc, &mut text, origin.scheme.as_slice(), origin.port)?;
    Ok(text)
}

/// The serialization of the tuple origin of an http or https URL, as `serialize` gives it (HTML, section 7.1.1,
/// "serialization of an origin").
pub fn serialize_origin_of(alloc: Global, url: &Url) -> Result<Bytes, OutOfMemory>
    ensures { IfOk result (λ text. text ≡ spec.serialized (spec.tuple_origin url.now)) }
{
    let mut text = Bytes::of(alloc, url.scheme().as_bytes())?;
    text.append(b"://")?;
    add_host_of(alloc, &mut text, url)?;
    add_port(alloc, &mut text, url.scheme().as_bytes(), port_of(url))?;
    Ok(text)
}
