// Reads a word of a directive as a source expression (CSP 3, section 2.3.1).
ghost use Rattle.std.specs.Prelude.{◌≡◌, true, option_copied, option_map};
ghost use Rattle.std.specs.Option.{option_map_or};
ghost use Rattle.policy_csp_match.specs.Grammar.{is_path_part, is_port_part};
ghost use Rattle.policy_csp_match.specs.Sources as spec;

use crate::grammar::{is_host_part, is_path_part, is_port_part, is_scheme_part};
use crate::source::{HostSource, Part, Source, SourcePort};
use value_text::{after_byte, before_byte, eq_fold, is_base64_value, position_of};

// The text as a part, where there is one.
fn part_of(text: Option<&[u8]>) -> Option<Part<'_>>
    ensures { result ≡ option_copied text.entry }
{
    match text {
        None => None,
        Some(text) => Some(Part::of(text)),
    }
}

// The word as a scheme-source, if it is one.
fn scheme_source(word: &[u8]) -> Option<Source<'_>>
    ensures { result ≡ spec.scheme_source word.now }
{
    match word.strip_suffix(b":") {
        Some(scheme) if is_scheme_part(scheme) => Some(Source::Scheme(Part::of(scheme))),
        _ => None,
    }
}

// The hash-algorithm of a name in any ASCII case, by its bits.
fn algorithm_named(name: &[u8]) -> Option<u32>
    ensures { result ≡ spec.algorithm_named name.now }
{
    if eq_fold(name, b"sha256") {
        Some(256)
    } else if eq_fold(name, b"sha384") {
        Some(384)
    } else if eq_fold(name, b"sha512") {
        Some(512)
    } else {
        None
    }
}

// The nonce-source or hash-source of a name and a value.
fn valued_source<'a>(name: &[u8], value: &'a [u8]) -> Option<Source<'a>>
    ensures { result ≡ spec.valued_source name.now value.now }
{
    if eq_fold(name, b"nonce") {
        return Some(Source::Nonce(Part::of(value)));
    }
    match algorithm_named(name) {
        None => None,
        Some(bits) => Some(Source::Hash(bits, Part::of(value))),
    }
}

// The nonce-source or hash-source of a name, a hyphen and a value, where the value is a base64-value.
fn dashed_source(text: &[u8]) -> Option<Source<'_>>
    ensures { result ≡ spec.dashed_source text.now }
{
    if !is_base64_value(after_byte(text, b'-')) {
        return None;
    }
    valued_source(before_byte(text, b'-'), after_byte(text, b'-'))
}

// The source expression of a text between quotes, where it has one.
fn inner_source(text: &[u8]) -> Option<Source<'_>>
    ensures { result ≡ spec.inner_source text.now }
{
    if eq_fold(text, b"self") {
        Some(Source::SelfOrigin)
    } else if eq_fold(text, b"none") {
        Some(Source::NoneWord)
    } else if eq_fold(text, b"strict-dynamic") {
        Some(Source::StrictDynamic)
    } else {
        dashed_source(text)
    }
}

// What is between `'` and `'`, where the word is quoted.
fn unquoted(word: &[u8]) -> Option<&[u8]>
    ensures { option_copied result ≡ spec.unquoted word.now }
{
    word.strip_prefix(b"'")?.strip_suffix(b"'")
}

// The word as a keyword-source, nonce-source or hash-source, if it is one.
fn quoted_source(word: &[u8]) -> Option<Source<'_>>
    ensures { result ≡ spec.quoted_source word.now }
{
    match unquoted(word) {
        None => None,
        Some(text) => inner_source(text),
    }
}

// Whether the word begins with a scheme-part and `://`.
fn has_scheme(word: &[u8]) -> bool
    ensures { result ≡ spec.has_scheme word.now }
{
    is_scheme_part(before_byte(word, b':')) && after_byte(word, b':').starts_with(b"//")
}

// The scheme-part before `://`, where the word begins so.
fn scheme_of(word: &[u8]) -> Option<&[u8]>
    ensures { option_copied result ≡ spec.scheme_of word.now }
{
    if has_scheme(word) {
        Some(before_byte(word, b':'))
    } else {
        None
    }
}

// What comes after `://`, or the word where it has no scheme-part.
fn behind_scheme(word: &[u8]) -> &[u8]
    ensures { result.now ≡ spec.behind_scheme word.now }
{
    if has_scheme(word) {
        after_byte(word, b':').strip_prefix(b"//").unwrap_or(b"")
    } else {
        word
    }
}

// Host and port: what is before the first slash.
fn authority_of(text: &[u8]) -> &[u8]
    ensures { result.now ≡ spec.authority_of text.now }
{
    before_byte(text, b'/')
}

// The host: what is before the first colon of host and port.
fn host_of(text: &[u8]) -> &[u8]
    ensures { result.now ≡ spec.host_of text.now }
{
    before_byte(authority_of(text), b':')
}

// The text from the first such byte on, where there is one.
fn from_byte(text: &[u8], mark: u8) -> Option<&[u8]>
    ensures { option_copied result ≡ spec.from_byte mark text.now }
{
    match position_of(text, mark) {
        None => None,
        Some(index) => Some(text.split_at(index).1),
    }
}

// The text after the first such byte, where there is one.
fn behind_byte(text: &[u8], mark: u8) -> Option<&[u8]>
    ensures { option_copied result ≡ spec.behind_byte mark text.now }
{
    match position_of(text, mark) {
        None => None,
        Some(index) => Some(text.split_at(index + 1).1),
    }
}

// The port, where there is one.
fn port_of(text: &[u8]) -> Option<&[u8]>
    ensures { option_copied result ≡ spec.port_of text.now }
{
    behind_byte(authority_of(text), b':')
}

// The path, where there is one.
fn path_of(text: &[u8]) -> Option<&[u8]>
    ensures { option_copied result ≡ spec.path_of text.now }
{
    from_byte(text, b'/')
}

// The port as it is written, where there is one.
fn source_port(text: Option<&[u8]>) -> Option<SourcePort<'_>>
    ensures { result ≡ option_map spec.source_port (option_copied text.entry) }
{
    match text {
        None => None,
        Some(b"*") => Some(SourcePort::Any),
        Some(digits) => Some(SourcePort::Digits(Part::of(digits))),
    }
}

// Whether the port is a port-part, where there is one.
fn may_be_port(port: Option<&[u8]>) -> bool
    ensures { result ≡ option_map_or is_port_part (option_copied port.entry) true }
{
    match port {
        None => true,
        Some(port) => is_port_part(port),
    }
}

// Whether the path is a path-part, where there is one.
fn may_be_path(path: Option<&[u8]>) -> bool
    ensures { result ≡ option_map_or is_path_part (option_copied path.entry) true }
{
    match path {
        None => true,
        Some(path) => is_path_part(path),
    }
}

// Whether each part that there is follows its grammar.
fn are_parts(text: &[u8]) -> bool
    ensures { result ≡ spec.are_parts text.now }
{
    is_host_part(host_of(text)) && may_be_port(port_of(text)) && may_be_path(path_of(text))
}

// The word as a host-source, if it is one.
fn host_source(word: &[u8]) -> Option<HostSource<'_>>
    ensures { result ≡ spec.host_source word.now }
{
    let rest = behind_scheme(word);
    if !are_parts(rest) {
        return None;
    }
    Some(HostSource {
        scheme: part_of(scheme_of(word)),
        host: Part::of(host_of(rest)),
        port: source_port(port_of(rest)),
        path: part_of(path_of(rest)),
    })
}

/// A word as a source expression (CSP 3, section 2.3.1, "source-expression"): `*`, a scheme and `:`, a
/// keyword, nonce or hash between quotes, or a host with an optional scheme, port and path. Keywords and
/// the names of nonces and hashes are known in any ASCII case. Any other word is `Unknown`. It takes no
/// memory.
pub fn parse_source(word: &[u8]) -> Source<'_>
    ensures { result ≡ spec.source_of word.now }
{
    if word == b"*".as_slice() {
        return Source::Any;
    }
    if let Some(source) = scheme_source(word) {
        return source;
    }
    if let Some(source) = quoted_source(word) {
        return source;
    }
    match host_source(word) {
        Some(host) => Source::Host(host),
        None => Source::Unknown,
    }
}
