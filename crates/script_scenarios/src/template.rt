// Templates: texts in which `${` begins a placeholder for a part of the last result.
ghost use Rattle.std.specs.Prelude.{◌≡◌, ◌<◌, length, option_map, IfSome};
ghost use Rattle.script_scenarios.specs.Templates as spec;
ghost use Rattle.script_scenarios.specs.Pieces.{piece_and};

use value_text::{before_byte, is_among, is_token, position_of};

// Whether the two bytes are `${`.
fn opens(byte: u8, next: u8) -> bool
    ensures { result ≡ spec.opens byte next }
{
    byte == b'$' && next == b'{'
}

/// The piece of a text before its first `${`, and the text after that `${`, where there is one. It takes
/// no memory.
pub fn next_piece(text: &[u8]) -> (&[u8], Option<&[u8]>)
    ensures pieces { spec.pieces text.now ≡ piece_and result.0.now (option_map (λ rest. rest.now) result.1) }
    ensures shorter { IfSome result.1 (λ rest. length rest.now < length text.now) }
{
    let mut i = 0;
    while i + 1 < text.len() {
        if opens(text[i], text[i + 1]) {
            return (text.split_at(i).0, Some(text.split_at(i + 2).1));
        }
        i += 1;
    }
    (text, None)
}

// Whether a name is `header:` and the name of a header.
fn names_header(name: &[u8]) -> bool
    ensures { result ≡ spec.names_header name.now }
{
    name.starts_with(b"header:") && is_token(name.split_at(7).1)
}

// Whether a name is that of a part of the last result.
fn is_name(name: &[u8]) -> bool
    ensures { result ≡ spec.is_name name.now }
{
    is_among(&[b"status", b"type", b"url", b"body"], name) || names_header(name)
}

// Whether a piece after a `${` begins with a name and `}`.
fn begins_with_name(piece: &[u8]) -> bool
    ensures { result ≡ spec.begins_with_name piece.now }
{
    position_of(piece, b'}').is_some() && is_name(before_byte(piece, b'}'))
}

/// Whether a text is a template: each `${` in it begins `${status}`, `${type}`, `${url}`, `${body}` or
/// `${header:NAME}`, where NAME is a token. It takes no memory.
pub fn is_template(text: &[u8]) -> bool
    ensures { result ≡ spec.is_template text.now }
{
    let mut rest = next_piece(text).1;
    while let Some(text) = rest {
        let (piece, more) = next_piece(text);
        if !begins_with_name(piece) {
            return false;
        }
        rest = more;
    }
    true
}
