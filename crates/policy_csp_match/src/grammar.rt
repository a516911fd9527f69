// The grammar of scheme-parts, host-parts, port-parts and path-parts (CSP 3, section 2.3.1).
ghost use Rattle.std.specs.Prelude.{◌≡◌, ◌==◌, bytes_eq, codes};
ghost use Rattle.std.specs.List.{list_all};
ghost use Rattle.url.specs.Scheme.{is_scheme_byte};
ghost use Rattle.policy_csp_match.specs.Grammar as spec;
ghost use Rattle.value_origins.specs.Names as names;

use value_origins::without_last_dot;
use value_text::is_digits;

// The bytes of a path beside letters, digits and escapes.
const PATH_MARKS: &[u8] = b"/-._~!$&'()*+=:@";

// Whether the byte may be in a scheme after its first letter.
fn is_scheme_byte(byte: u8) -> bool
    ensures { result ≡ is_scheme_byte byte }
{
    byte.is_ascii_alphanumeric() || byte == b'+' || byte == b'-' || byte == b'.'
}

// Whether each byte may be in a scheme after its first letter.
fn are_scheme_bytes(text: &[u8]) -> bool
    ensures { result ≡ list_all is_scheme_byte text.now }
{
    text.iter().all(|byte| is_scheme_byte(*byte))
}

// Whether the text is a scheme-part: a letter, and then letters, digits, `+`, `-` and `.`.
pub(crate) fn is_scheme_part(text: &[u8]) -> bool
    ensures { result ≡ spec.is_scheme_part text.now }
{
    match text {
        [] => false,
        [first, rest @ ..] => first.is_ascii_alphabetic() && are_scheme_bytes(rest),
    }
}

// Whether the byte is a host-char: a letter, a digit or `-`.
fn is_host_byte(byte: u8) -> bool
    ensures { result ≡ spec.is_host_byte byte }
{
    byte.is_ascii_alphanumeric() || byte == b'-'
}

// Whether each byte is a host-char.
fn are_host_bytes(text: &[u8]) -> bool
    ensures { result ≡ list_all spec.is_host_byte text.now }
{
    text.iter().all(|byte| is_host_byte(*byte))
}

// Whether the text is one host-char or more.
fn is_label(text: &[u8]) -> bool
    ensures { result ≡ spec.is_label text.now }
{
    !text.is_empty() && are_host_bytes(text)
}

// Whether each label of a name is one host-char or more.
fn are_labels(name: &[u8]) -> bool
    ensures { result ≡ list_all spec.is_label (names.labels name.now) }
{
    name.split(|byte| *byte == b'.')
        .all(|label| is_label(label))
}

// Whether the host begins with `*.`.
pub(crate) fn has_wildcard(host: &[u8]) -> bool
    ensures { result ≡ spec.has_wildcard host.now }
{
    match host {
        [star, dot, ..] => *star == b'*' && *dot == b'.',
        _ => false,
    }
}

// The host without `*.` in front.
fn without_wildcard(host: &[u8]) -> &[u8]
    ensures { result.now ≡ spec.without_wildcard host.now }
{
    host.strip_prefix(b"*.").unwrap_or(host)
}

// Whether the text is `*`.
pub(crate) fn is_star(text: &[u8]) -> bool
    ensures { result ≡ bytes_eq text.now (codes "*") }
{
    match text {
        [byte] => *byte == b'*',
        _ => false,
    }
}

// Whether the text is a host-part: `*`, or an optional `*.`, labels with a dot between each two, and an
// optional last dot.
pub(crate) fn is_host_part(host: &[u8]) -> bool
    ensures { result ≡ spec.is_host_part host.now }
{
    host == b"*".as_slice() || are_labels(without_last_dot(without_wildcard(host)))
}

// Whether the text is a port-part: digits or `*`.
pub(crate) fn is_port_part(port: &[u8]) -> bool
    ensures { result ≡ spec.is_port_part port.now }
{
    port == b"*".as_slice() || is_digits(port)
}

// Whether the byte may be in a path outside an escape.
fn is_path_byte(byte: u8) -> bool
    ensures { result ≡ spec.is_path_byte byte }
{
    byte.is_ascii_alphanumeric() || PATH_MARKS.contains(&byte)
}

// Whether the text begins with two hexadecimal digits.
fn begins_with_hex(text: &[u8]) -> bool
    ensures { result ≡ spec.begins_with_hex text.now }
{
    match text {
        [high, low, ..] => high.is_ascii_hexdigit() && low.is_ascii_hexdigit(),
        _ => false,
    }
}

// Whether each byte is one of a path, or `%` with two hexadecimal digits after it.
fn are_path_bytes(text: &[u8]) -> bool
    ensures { result ≡ spec.are_path_bytes text.now }
{
    let mut left = text;
    while let [byte, rest @ ..] = left {
        if !(is_path_byte(*byte) || (*byte == b'%' && begins_with_hex(rest))) {
            return false;
        }
        left = rest;
    }
    true
}

// Whether the text is a path-part: it begins with `/`, not with `//`, and is made of path bytes and
// escapes.
pub(crate) fn is_path_part(path: &[u8]) -> bool
    ensures { result ≡ spec.is_path_part path.now }
{
    path.starts_with(b"/") && !path.starts_with(b"//") && are_path_bytes(path)
}
