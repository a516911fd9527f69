// A text of up to 23 bytes, which takes no memory beside the value.
ghost use Rattle.std.specs.Prelude.{◌≡◌, ◌≤◌, ◌+◌, ◌==◌, ◌++◌, [], length, IsTrue, ◌↔◌};

use std::marker::Model;

/// How many bytes a short text has at most.
pub(crate) const SHORT: usize = 23;

/// A text of up to 23 bytes, which are kept in the value itself; seen as the list of them.
#[derive(Drop)]
pub(crate) struct Short {
    // The bytes of the text are at the front.
    bytes: [u8; SHORT],
    len: u8,
}

impl Model for Short {
    ghost use Rattle.std.specs.Prelude.{ℕ, List, length, take, ◌≡◌, ◌≤◌};

    ghost Value = { List ℕ };

    ghost view = { λ text. take text.len text.bytes };

    ghost invariant = { λ text. (text.len ≤ 23) × (length text.bytes ≡ 23) };
}

impl Short {
    /// The empty text.
    pub(crate) fn new() -> Short
        ensures { result ≡ [] }
    {
        Short {
            bytes: [0; SHORT],
            len: 0,
        }
    }

    /// A copy of the bytes.
    pub(crate) fn of(from: &[u8]) -> Short
        requires { length from.now ≤ 23 }
        ensures { result ≡ from.now }
    {
        let mut text = Short::new();
        text.append(from);
        text
    }

    /// The bytes.
    pub(crate) fn as_slice(&self) -> &[u8]
        ensures { result.now ≡ self.now }
    {
        &self.bytes[..self.len as usize]
    }

    /// Whether there are none.
    pub(crate) fn is_empty(&self) -> bool
        ensures { result ≡ (length self.now == 0) }
    {
        self.len == 0
    }

    /// Whether there is room for the bytes.
    pub(crate) fn has_room_for(&self, piece: &[u8]) -> bool
        ensures { IsTrue result ↔ (length self.now + length piece.now ≤ 23) }
    {
        piece.len() <= SHORT - self.len as usize
    }

    /// Adds the bytes at the end.
    pub(crate) fn append(&mut self, piece: &[u8])
        requires { length self.old + length piece.now ≤ 23 }
        ensures { self.new ≡ self.old ++ piece.now }
    {
        let start = self.len as usize;
        let end = start + piece.len();
        self.bytes[start..end].copy_from_slice(piece);
        self.len = end as u8;
    }
}
