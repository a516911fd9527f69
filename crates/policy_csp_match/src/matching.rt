// Whether a source expression matches a URL (CSP 3, "does url match expression in origin with redirect count").
ghost use Rattle.std.specs.Prelude.{◌≡◌, ◌&&◌, false, option_copied};
ghost use Rattle.std.specs.Option.{option_map_or};
ghost use Rattle.policy_csp_match.specs.Matching as spec;
ghost use Rattle.value_origins.specs.Origins as origins;
ghost use Rattle.value_text.specs.Digits.{writes};

use crate::grammar::{has_wildcard, is_star};
use crate::paths::path_part_matches;
use crate::source::{HostSource, Part, Source, SourcePort};
use url::Url;
use value_origins::{Origin, is_default_port, is_host_of, is_http_url, is_origin_of, port_of};
use value_text::{eq_fold, parse_digits};

// "scheme-part matches": the scheme `a` of an expression against the scheme `b` of a URL.
fn scheme_part_matches(a: &[u8], b: &[u8]) -> bool
    ensures { result ≡ spec.scheme_part_matches a.now b.now }
{
    eq_fold(b, a)
        || (eq_fold(a, b"http") && eq_fold(b, b"https"))
        || (eq_fold(a, b"ws") && (eq_fold(b, b"http") || eq_fold(b, b"https")))
        || (eq_fold(a, b"wss") && eq_fold(b, b"https"))
}

// Whether the text ends with this, ASCII case aside.
fn ends_in(end: &[u8], text: &[u8]) -> bool
    ensures { result ≡ spec.ends_in end.now text.now }
{
    eq_fold(text.split_at(text.len().saturating_sub(end.len())).1, end)
}

// Whether a domain matches a pattern. Most have no star and another length, which is compared first.
fn domain_matches(pattern: &[u8], domain: &[u8]) -> bool
    ensures { result ≡ spec.domain_matches pattern.now domain.now }
{
    if let [b'*', ..] = pattern {
        if is_star(pattern) || (has_wildcard(pattern) && ends_in(pattern.split_at(1).1, domain)) {
            return true;
        }
    }
    pattern.eq_ignore_ascii_case(domain)
}

// "host-part matches", of the domain of a URL, where it has one.
pub(crate) fn host_part_matches(pattern: &[u8], domain: Option<&str>) -> bool
    ensures { result ≡ option_map_or (spec.domain_matches pattern.now) (option_copied domain.entry) false }
{
    match domain {
        None => false,
        Some(domain) => domain_matches(pattern, domain.as_bytes()),
    }
}

// Whether the digits write this number.
fn writes(digits: &[u8], number: u16) -> bool
    ensures { result ≡ writes number digits.now }
{
    parse_digits(digits, 65_536) == Some(u64::from(number))
}

// "port-part matches".
fn port_part_matches(port: &Option<SourcePort<'_>>, url: &Url) -> bool
    ensures { result ≡ spec.port_part_matches port.now url.now }
{
    match port {
        None => url.port().is_none(),
        Some(SourcePort::Any) => true,
        Some(SourcePort::Digits(digits)) => match url.port_or_known_default() {
            None => false,
            Some(number) => writes(digits.as_slice(), number),
        },
    }
}

// Whether the scheme of a URL matches the scheme-part, or the scheme of the document where there is none.
fn scheme_matches(scheme: &Option<Part<'_>>, url: &Url, document: &Origin) -> bool
    ensures { result ≡ spec.scheme_matches scheme.now url.now document.now }
{
    match scheme {
        None => scheme_part_matches(document.scheme.as_slice(), url.scheme().as_bytes()),
        Some(scheme) => scheme_part_matches(scheme.as_slice(), url.scheme().as_bytes()),
    }
}

// Whether the path of a URL matches the path-part, or there is none, or there was a redirect.
fn path_matches(path: &Option<Part<'_>>, url: &Url, redirects: u32) -> bool
    ensures { result ≡ spec.path_matches path.now url.now redirects }
{
    match path {
        None => true,
        Some(path) => redirects != 0 || path_part_matches(path.as_slice(), url.path().as_bytes()),
    }
}

// Whether the parts of a host-source beside its host match a URL.
pub(crate) fn other_parts_match(
    source: &HostSource<'_>,
    url: &Url,
    document: &Origin,
    redirects: u32,
) -> bool
    ensures { result ≡ (spec.scheme_matches source.now.scheme url.now document.now
        && spec.port_part_matches source.now.port url.now
        && spec.path_matches source.now.path url.now redirects) }
{
    scheme_matches(&source.scheme, url, document)
        && port_part_matches(&source.port, url)
        && path_matches(&source.path, url, redirects)
}

// Whether a host-source matches a URL. The host is asked first, since it differs most.
fn host_source_matches(
    source: &HostSource<'_>,
    url: &Url,
    document: &Origin,
    redirects: u32,
) -> bool
    ensures { result ≡ spec.host_source_matches source.now url.now document.now redirects }
{
    host_part_matches(source.host.as_slice(), url.domain())
        && other_parts_match(source, url, document, redirects)
}

// Whether the port of the document's origin is that of the URL, or each is the default one of its own
// scheme.
fn same_or_default_port(document: &Origin, url: &Url) -> bool
    ensures { result ≡ spec.same_or_default_port document.now (origins.tuple_origin url.now) }
{
    document.port == port_of(url)
        || (is_default_port(document.scheme.as_slice(), document.port)
            && is_default_port(url.scheme().as_bytes(), port_of(url)))
}

// Whether `'self'` matches a URL: it has the document's origin, or is https on its host and on its port or
// the default ones.
fn self_matches(url: &Url, document: &Origin) -> bool
    ensures { result ≡ spec.self_matches url.now document.now }
{
    is_origin_of(document, url)
        || (url.scheme() == "https"
            && is_host_of(document, url)
            && same_or_default_port(document, url))
}

/// Whether a source expression matches a URL in a document's origin after a number of redirects (CSP 3,
/// "does url match expression in origin with redirect count"). `*` matches each http and https URL, a scheme
/// each URL whose scheme it matches, a host-source each URL that all its parts match, `'self'` the document's
/// origin and its https form; any other expression matches none. After a redirect the path doesn't count. A
/// URL of another scheme than http and https matches a scheme-source or a host-source of its own scheme, and
/// nothing else. It takes no memory.
pub fn matches(source: &Source<'_>, url: &Url, document: &Origin, redirects: u32) -> bool
    ensures { result ≡ spec.matches source.now url.now document.now redirects }
{
    match source {
        Source::Any => is_http_url(url),
        Source::Scheme(scheme) => scheme_part_matches(scheme.as_slice(), url.scheme().as_bytes()),
        Source::Host(host) => host_source_matches(host, url, document, redirects),
        Source::SelfOrigin => self_matches(url, document),
        Source::Nonce(_) | Source::Hash(_, _) => false,
        Source::StrictDynamic | Source::NoneWord | Source::Unknown => false,
    }
}
