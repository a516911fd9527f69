// Lists of methods or header names that are kept for long, in little memory.
ghost use Rattle.std.specs.Prelude.{◌≡◌, ◌==◌, ◌<◌, [], length, slice_get, Some, IfOk};

use crate::packed::Packed;
use std::alloc::Global;
use std::marker::Model;
use value_bytes::{Bytes, OutOfMemory};

/// A list of texts that is kept for long, seen as a list of lists of bytes. A text takes its bytes and four more, and
/// the empty list no memory. No list of over 2^32 - 1 bytes is made.
#[derive(Drop)]
pub struct Names {
    // One piece, and none where the list is empty.
    pieces: Vec<Packed>,
}

impl Model for Names {
    ghost use Rattle.std.specs.Prelude.{ℕ, List};
    ghost use Rattle.book_preflights.specs.Private.Packs.{texts_in};

    ghost Value = { List (List ℕ) };

    ghost view = { λ names. texts_in names.pieces.items };
}

// The list is part of each call of the shared book, so its size matters. (An `Option` of a box has 16 bytes, but each
// function that lets go of a call would have two ways on.)
const _: () = prove!(size_of::<Names>() == 24);

impl Names {
    /// The empty list. It takes no memory.
    pub fn new(alloc: Global) -> Names
        ensures { result ≡ [] }
    {
        Names {
            pieces: Vec::new(alloc),
        }
    }

    // The list of the texts of a piece.
    fn of_piece(alloc: Global, packed: Packed) -> Result<Names, OutOfMemory>
        ensures { IfOk result (λ names. names ≡ packed) }
    {
        let mut pieces = Vec::with_capacity(alloc, 1)?;
        pieces.push_reserved(packed);
        Ok(Names { pieces })
    }

    /// Copies of the texts.
    pub fn of(alloc: Global, texts: &[Bytes]) -> Result<Names, OutOfMemory>
        ensures { IfOk result (λ names. names ≡ texts.now) }
    {
        if texts.is_empty() {
            return Ok(Names::new(alloc));
        }
        let packed = Packed::of(alloc, texts)?;
        Names::of_piece(alloc, packed)
    }

    /// How many texts there are.
    pub fn len(&self) -> usize
        ensures { result ≡ length self.now }
    {
        match self.pieces.first() {
            None => 0,
            Some(packed) => packed.len(),
        }
    }

    /// Whether there are none.
    pub fn is_empty(&self) -> bool
        ensures { result ≡ (length self.now == 0) }
    {
        self.len() == 0
    }

    /// The text at an index below the length.
    pub fn at(&self, index: usize) -> &[u8]
        requires { index < length self.now }
        ensures { slice_get self.now index ≡ Some result.now }
    {
        match self.pieces.first() {
            None => &[],
            Some(packed) => packed.at(index),
        }
    }

    /// An equal list.
    pub fn copy(&self, alloc: Global) -> Result<Names, OutOfMemory>
        ensures { IfOk result (λ names. names ≡ self.now) }
    {
        let Some(packed) = self.pieces.first() else {
            return Ok(Names::new(alloc));
        };
        let packed = packed.copy(alloc)?;
        Names::of_piece(alloc, packed)
    }
}
