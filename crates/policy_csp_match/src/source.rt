// Source expressions, whose parts are lent from the word that was read (CSP 3, section 2.3.1).
ghost use Rattle.std.specs.Prelude.{◌≡◌};

use std::marker::Model;

/// A part of a word, which is not copied. It is seen as the list of its bytes.
#[derive(Drop)]
pub struct Part<'a> {
    text: &'a [u8],
}

impl<'a> Model for Part<'a> {
    ghost use Rattle.std.specs.Prelude.{ℕ, List};

    ghost Value = { List ℕ };

    ghost view = { λ part. part.text.now };
}

impl<'a> Part<'a> {
    /// The part that has these bytes.
    pub fn of(text: &'a [u8]) -> Part<'a>
        ensures { result ≡ text.now }
    {
        Part { text }
    }

    /// Its bytes.
    pub fn as_slice(&self) -> &'a [u8]
        ensures { result.now ≡ self.now }
    {
        self.text
    }
}

/// A port-part (CSP 3, section 2.3.1): `*`, or the digits as the word has them.
#[derive(Drop)]
pub enum SourcePort<'a> {
    Any,
    Digits(Part<'a>),
}

/// A host-source (CSP 3, section 2.3.1), its parts as the word has them: the scheme-part without `://`,
/// the host-part with its `*.`, the port-part without `:`, and the path-part from its `/` on.
#[derive(Drop)]
pub struct HostSource<'a> {
    pub scheme: Option<Part<'a>>,
    pub host: Part<'a>,
    pub port: Option<SourcePort<'a>>,
    pub path: Option<Part<'a>>,
}

/// A source expression (CSP 3, section 2.3.1), by its kind: `*`, a scheme-source, a host-source, `'self'`,
/// the value of a nonce-source, the bits and the value of a hash-source, `'strict-dynamic'`, or `'none'`.
/// Any other word is `Unknown`.
#[derive(Drop)]
pub enum Source<'a> {
    Any,
    Scheme(Part<'a>),
    Host(HostSource<'a>),
    SelfOrigin,
    Nonce(Part<'a>),
    Hash(u32, Part<'a>),
    StrictDynamic,
    NoneWord,
    Unknown,
}
