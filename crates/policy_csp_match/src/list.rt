// A list of source expressions that is kept for long: their parts stand in one text, and are matched there.
ghost use Rattle.std.specs.Prelude.{◌≡◌, ◌<◌, ◌+◌, ◌++◌, ◌∷◌, [], drop, length, take, option_and_then};
ghost use Rattle.std.specs.Prelude.{option_copied, IfOk, OnOk};
ghost use Rattle.std.specs.List.{list_any};
ghost use Rattle.url.specs.Host.{domain_of};
ghost use Rattle.url.specs.Parts.{nonempty_host};
ghost use Rattle.policy_csp_match.specs.Matching as spec;
ghost use Rattle.policy_csp_match.specs.Private.Places as places;

use crate::matching::{host_part_matches, matches, other_parts_match};
use crate::source::{HostSource, Part, Source, SourcePort};
use std::alloc::Global;
use std::marker::Model;
use url::Url;
use value_bytes::OutOfMemory;
use value_origins::Origin;

/// Whether a host-source has a port-part, and which.
#[derive(Clone, Copy)]
pub(crate) enum PortKind {
    Absent,
    Any,
    Digits,
}

/// How long the parts of a host-source are. They stand one behind the other, the host first, since it is asked first.
#[derive(Drop)]
pub(crate) struct HostPlace {
    pub(crate) host: u32,
    pub(crate) scheme: u32,
    pub(crate) port: u32,
    pub(crate) path: u32,
    pub(crate) has_scheme: bool,
    pub(crate) port_kind: PortKind,
    pub(crate) has_path: bool,
}

/// The kind of a source expression and how long its parts are.
#[derive(Drop)]
pub(crate) enum Place {
    Any,
    Scheme(u32),
    Host(HostPlace),
    SelfOrigin,
    Nonce(u32),
    Hash(u32, u32),
    StrictDynamic,
    NoneWord,
    Unknown,
}

/// Where the parts of a source expression start, and what they are.
#[derive(Drop)]
pub(crate) struct Stored {
    pub(crate) start: u32,
    pub(crate) place: Place,
}

// A policy may have millions of words, so what each takes matters.
const _: () = prove!(size_of::<Stored>() == 28);

/// A list of source expressions that is kept for long, seen as the list of them. Each takes the bytes of its parts and
/// 28 more. No list of over 2^32 - 1 bytes is made.
#[derive(Drop)]
pub struct SourceList {
    // The parts of all, one behind the other.
    text: Vec<u8>,
    stored: Vec<Stored>,
}

impl Model for SourceList {
    ghost use Rattle.std.specs.Prelude.{List};
    ghost use Rattle.policy_csp_match.specs.Private.Places.{Stay, sources_in};
    ghost use Rattle.policy_csp_match.specs.declared.source.Source.{Source};

    ghost Value = { List Source };

    ghost view = { λ list. sources_in list.text.items list.stored.items };

    ghost invariant = { λ list. Stay list.text.items list.stored.items };
}

// ---- storing

// How long a text is, as it is stored. There is no room for one of over 2^32 - 1 bytes.
fn length_of(text: &[u8]) -> Result<u32, OutOfMemory>
    ensures { IfOk result (λ count. count ≡ length text.now) }
{
    match u32::try_from(text.len()) {
        Ok(count) => Ok(count),
        Err(_) => Err(OutOfMemory),
    }
}

// Adds a text, and tells how long it is.
fn add(all: &mut Vec<u8>, text: &[u8]) -> Result<u32, OutOfMemory>
    ensures text { OnOk result (all.new.items ≡ all.old.items ++ text.now) }
    ensures count { IfOk result (λ count. count ≡ length text.now) }
{
    all.extend_from_slice(text)?;
    length_of(text)
}

// Adds a part, where there is one.
fn add_part(all: &mut Vec<u8>, part: &Option<Part<'_>>) -> Result<u32, OutOfMemory>
    ensures text { OnOk result (all.new.items ≡ all.old.items ++ places.part_text part.now) }
    ensures count { IfOk result (λ count. count ≡ length (places.part_text part.now)) }
{
    match part {
        None => Ok(0),
        Some(part) => add(all, part.as_slice()),
    }
}

// Adds the digits of a port, where it has some.
fn add_port(all: &mut Vec<u8>, port: &Option<SourcePort<'_>>) -> Result<u32, OutOfMemory>
    ensures text { OnOk result (all.new.items ≡ all.old.items ++ places.port_text port.now) }
    ensures count { IfOk result (λ count. count ≡ length (places.port_text port.now)) }
{
    match port {
        None | Some(SourcePort::Any) => Ok(0),
        Some(SourcePort::Digits(digits)) => add(all, digits.as_slice()),
    }
}

// The kind of a port.
fn kind_of_port(port: &Option<SourcePort<'_>>) -> PortKind
    ensures { result ≡ places.kind_of_port port.now }
{
    match port {
        None => PortKind::Absent,
        Some(SourcePort::Any) => PortKind::Any,
        Some(SourcePort::Digits(_)) => PortKind::Digits,
    }
}

// Whether there is a part.
fn is_there(part: &Option<Part<'_>>) -> bool
    ensures { result ≡ places.is_there part.now }
{
    match part {
        None => false,
        Some(_) => true,
    }
}

// Adds the parts of a host-source.
fn add_host(all: &mut Vec<u8>, source: &HostSource<'_>) -> Result<HostPlace, OutOfMemory>
    ensures text { OnOk result (all.new.items ≡ all.old.items ++ places.host_text source.now) }
    ensures place { IfOk result (λ place. place ≡ places.host_place source.now) }
{
    let host = add(all, source.host.as_slice())?;
    let scheme = add_part(all, &source.scheme)?;
    let port = add_port(all, &source.port)?;
    let path = add_part(all, &source.path)?;
    Ok(HostPlace {
        host,
        scheme,
        port,
        path,
        has_scheme: is_there(&source.scheme),
        port_kind: kind_of_port(&source.port),
        has_path: is_there(&source.path),
    })
}

// Adds the parts of a source expression.
fn add_source(all: &mut Vec<u8>, source: &Source<'_>) -> Result<Place, OutOfMemory>
    ensures text { OnOk result (all.new.items ≡ all.old.items ++ places.source_text source.now) }
    ensures place { IfOk result (λ place. place ≡ places.source_place source.now) }
{
    Ok(match source {
        Source::Any => Place::Any,
        Source::Scheme(scheme) => Place::Scheme(add(all, scheme.as_slice())?),
        Source::Host(host) => Place::Host(add_host(all, host)?),
        Source::SelfOrigin => Place::SelfOrigin,
        Source::Nonce(value) => Place::Nonce(add(all, value.as_slice())?),
        Source::Hash(bits, value) => Place::Hash(*bits, add(all, value.as_slice())?),
        Source::StrictDynamic => Place::StrictDynamic,
        Source::NoneWord => Place::NoneWord,
        Source::Unknown => Place::Unknown,
    })
}

// Adds a source expression to those that stand in these places of a text.
fn push_source(
    text: &mut Vec<u8>,
    stored: &mut Vec<Stored>,
    source: &Source<'_>,
) -> Result<(), OutOfMemory>
    requires { places.Stay text.old.items stored.old.items }
    ensures sources { OnOk result (places.sources_in text.new.items stored.new.items
        ≡ places.sources_in text.old.items stored.old.items ++ source.now ∷ []) }
    ensures stay { OnOk result (places.Stay text.new.items stored.new.items) }
{
    let start = length_of(text.as_slice())?;
    let place = add_source(text, source)?;
    stored.push(Stored { start, place })?;
    Ok(())
}

// ---- reading

// So many bytes of a text, or all of it where there are not so many.
fn front(text: &[u8], count: u32) -> &[u8]
    ensures { result.now ≡ take count text.now }
{
    let count = count as usize;
    if count <= text.len() {
        text.split_at(count).0
    } else {
        text
    }
}

// What is behind so many bytes of a text.
fn behind(text: &[u8], count: u32) -> &[u8]
    ensures { result.now ≡ drop count text.now }
{
    let count = count as usize;
    if count <= text.len() {
        text.split_at(count).1
    } else {
        &[]
    }
}

// The part in front of a text, where there is one.
fn part_in(text: &[u8], count: u32, there: bool) -> Option<Part<'_>>
    ensures { result ≡ places.part_in text.now count there }
{
    if there {
        Some(Part::of(front(text, count)))
    } else {
        None
    }
}

// The port in front of a text, where there is one.
fn port_in(text: &[u8], count: u32, kind: PortKind) -> Option<SourcePort<'_>>
    ensures { result ≡ places.port_in text.now count kind }
{
    match kind {
        PortKind::Absent => None,
        PortKind::Any => Some(SourcePort::Any),
        PortKind::Digits => Some(SourcePort::Digits(Part::of(front(text, count)))),
    }
}

// The host-source in front of a text.
fn host_in<'a>(text: &'a [u8], place: &HostPlace) -> HostSource<'a>
    ensures { result ≡ places.host_in text.now place.now }
{
    let behind_host = behind(text, place.host);
    let behind_scheme = behind(behind_host, place.scheme);
    let behind_port = behind(behind_scheme, place.port);
    HostSource {
        scheme: part_in(behind_host, place.scheme, place.has_scheme),
        host: Part::of(front(text, place.host)),
        port: port_in(behind_scheme, place.port, place.port_kind),
        path: part_in(behind_port, place.path, place.has_path),
    }
}

// The source expression in front of a text.
fn source_in<'a>(text: &'a [u8], place: &Place) -> Source<'a>
    ensures { result ≡ places.source_in text.now place.now }
{
    match place {
        Place::Any => Source::Any,
        Place::Scheme(count) => Source::Scheme(Part::of(front(text, *count))),
        Place::Host(host) => Source::Host(host_in(text, host)),
        Place::SelfOrigin => Source::SelfOrigin,
        Place::Nonce(count) => Source::Nonce(Part::of(front(text, *count))),
        Place::Hash(bits, count) => Source::Hash(*bits, Part::of(front(text, *count))),
        Place::StrictDynamic => Source::StrictDynamic,
        Place::NoneWord => Source::NoneWord,
        Place::Unknown => Source::Unknown,
    }
}

// ---- matching

// Whether the host-source in front of a text matches a URL of this domain, or of none. Most differ in the host, so it
// is asked before the other parts are cut out.
fn host_in_matches(
    text: &[u8],
    place: &HostPlace,
    domain: Option<&str>,
    url: &Url,
    document: &Origin,
    redirects: u32,
) -> bool
    requires { option_copied domain ≡ option_and_then domain_of (nonempty_host url.now) }
    ensures { result ≡ spec.host_source_matches (places.host_in text.now place.now) url.now document.now redirects }
{
    host_part_matches(front(text, place.host), domain)
        && other_parts_match(&host_in(text, place), url, document, redirects)
}

// Whether the source expression in front of a text matches a URL of this domain, or of none.
fn source_in_matches(
    text: &[u8],
    place: &Place,
    domain: Option<&str>,
    url: &Url,
    document: &Origin,
    redirects: u32,
) -> bool
    requires { option_copied domain ≡ option_and_then domain_of (nonempty_host url.now) }
    ensures { result ≡ spec.matches (places.source_in text.now place.now) url.now document.now redirects }
{
    match place {
        Place::Host(host) => host_in_matches(text, host, domain, url, document, redirects),
        _ => matches(&source_in(text, place), url, document, redirects),
    }
}

// Whether one of the source expressions in these places of a text matches a URL.
fn any_in_matches(
    text: &[u8],
    stored: &[Stored],
    url: &Url,
    document: &Origin,
    redirects: u32,
) -> bool
    ensures { result ≡ list_any (λ source. spec.matches source url.now document.now redirects)
        (places.sources_in text.now stored.now) }
{
    let domain = url.domain();
    for one in stored {
        if source_in_matches(
            behind(text, one.start),
            &one.place,
            domain,
            url,
            document,
            redirects,
        ) {
            return true;
        }
    }
    false
}

impl SourceList {
    /// An empty list with room for so many source expressions whose parts have so many bytes together.
    pub fn with_room(alloc: Global, count: usize, bytes: usize) -> Result<SourceList, OutOfMemory>
        ensures { IfOk result (λ list. list ≡ []) }
    {
        Ok(SourceList {
            text: Vec::with_capacity(alloc, bytes)?,
            stored: Vec::with_capacity(alloc, count)?,
        })
    }

    /// The list with one source expression more at its end. Where memory is refused, the list is gone.
    pub fn with(self, source: &Source<'_>) -> Result<SourceList, OutOfMemory>
        ensures { IfOk result (λ list. list ≡ self ++ source.now ∷ []) }
    {
        let SourceList {
            mut text,
            mut stored,
        } = self;
        push_source(&mut text, &mut stored, source)?;
        Ok(SourceList { text, stored })
    }

    /// How many source expressions there are.
    pub fn len(&self) -> usize
        ensures { result ≡ length self.now }
    {
        self.stored.len()
    }

    /// Whether one of the source expressions matches a URL, as `matches` says it. It takes no memory.
    pub fn any_matches(&self, url: &Url, document: &Origin, redirects: u32) -> bool
        ensures { result ≡ list_any (λ source. spec.matches source url.now document.now redirects) self.now }
    {
        any_in_matches(
            self.text.as_slice(),
            self.stored.as_slice(),
            url,
            document,
            redirects,
        )
    }

    /// The source expression at an index below the length. It takes no memory.
    pub fn at(&self, index: usize) -> Source<'_>
        requires { index < length self.now }
        ensures { drop index self.now ≡ result ∷ drop (index + 1) self.now }
    {
        let stored = &self.stored[index];
        source_in(behind(self.text.as_slice(), stored.start), &stored.place)
    }
}
