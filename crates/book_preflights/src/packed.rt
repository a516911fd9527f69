// Texts packed one behind the other.
ghost use Rattle.std.specs.Prelude.{◌≡◌, ◌<◌, ◌≤◌, ◌+◌, ◌++◌, ◌∷◌, [], length, slice_get, slice_index, Some};
ghost use Rattle.std.specs.Prelude.{IfOk, OnOk};
ghost use Rattle.book_preflights.specs.Private.Packs.{AreEnds, texts_of};

use std::alloc::Global;
use std::marker::Model;
use value_bytes::{Bytes, OutOfMemory};

/// Texts that stand one behind the other, seen as the list of them.
#[derive(Drop)]
pub(crate) struct Packed {
    bytes: Vec<u8>,
    // Where each text ends.
    ends: Vec<u32>,
}

impl Model for Packed {
    ghost use Rattle.std.specs.Prelude.{ℕ, List, length};
    ghost use Rattle.book_preflights.specs.Private.Packs.{AreEnds, texts_of};

    ghost Value = { List (List ℕ) };

    ghost view = { λ packed. texts_of packed.bytes.items 0 packed.ends.items };

    ghost invariant = { λ packed. AreEnds 0 (length packed.bytes.items) packed.ends.items };
}

// For how many bytes room is made. Should they be more than a number can say, no memory has room for them.
fn room_for(texts: &[Bytes]) -> usize {
    let mut room: usize = 0;
    for text in texts {
        room = room.saturating_add(text.len());
    }
    room
}

// Where a text ends that stands behind these bytes. There is no room for one that ends past 2^32 - 1.
fn end_of(bytes: &[u8], text: &[u8]) -> Result<u32, OutOfMemory>
    ensures { IfOk result (λ end. end ≡ length bytes.now + length text.now) }
{
    match u32::try_from(bytes.len().saturating_add(text.len())) {
        Ok(end) => Ok(end),
        Err(_) => Err(OutOfMemory),
    }
}

// Adds a text at the end.
fn add(bytes: &mut Vec<u8>, ends: &mut Vec<u32>, text: &[u8]) -> Result<(), OutOfMemory>
    requires { AreEnds 0 (length bytes.old.items) ends.old.items }
    ensures ends { OnOk result (AreEnds 0 (length bytes.new.items) ends.new.items) }
    ensures texts { OnOk result (texts_of bytes.new.items 0 ends.new.items
        ≡ texts_of bytes.old.items 0 ends.old.items ++ text.now ∷ []) }
{
    let end = end_of(bytes.as_slice(), text)?;
    bytes.extend_from_slice(text)?;
    ends.push(end)?;
    Ok(())
}

// Where the text at an index starts: where the one before it ends.
fn start_of(ends: &[u32], index: usize) -> usize
    requires { index ≤ length ends.now }
    ensures { result ≡ slice_index (0 ∷ ends.now) index }
{
    if index == 0 {
        0
    } else {
        ends[index - 1] as usize
    }
}

// The text at an index.
fn text_at<'a>(bytes: &'a [u8], ends: &[u32], index: usize) -> &'a [u8]
    requires ends { AreEnds 0 (length bytes.now) ends.now }
    requires index { index < length ends.now }
    ensures { slice_get (texts_of bytes.now 0 ends.now) index ≡ Some result.now }
{
    let start = start_of(ends, index);
    let end = ends[index] as usize;
    &bytes[start..end]
}

impl Packed {
    /// Copies of the texts, with no more room than they need.
    pub(crate) fn of(alloc: Global, texts: &[Bytes]) -> Result<Packed, OutOfMemory>
        ensures { IfOk result (λ packed. packed ≡ texts.now) }
    {
        let mut bytes = Vec::with_capacity(alloc, room_for(texts))?;
        let mut ends = Vec::with_capacity(alloc, texts.len())?;
        for text in texts {
            add(&mut bytes, &mut ends, text.as_slice())?;
        }
        Ok(Packed { bytes, ends })
    }

    /// How many texts there are.
    #[tactic(auto, using(crate::proofs::PackLemmas::length_texts))]
    pub(crate) fn len(&self) -> usize
        ensures { result ≡ length self.now }
    {
        self.ends.len()
    }

    /// The text at an index below the length.
    #[tactic(auto, using(crate::proofs::PackLemmas::length_texts))]
    pub(crate) fn at(&self, index: usize) -> &[u8]
        requires { index < length self.now }
        ensures { slice_get self.now index ≡ Some result.now }
    {
        text_at(self.bytes.as_slice(), self.ends.as_slice(), index)
    }

    /// Equal texts, with no more room than they need.
    pub(crate) fn copy(&self, alloc: Global) -> Result<Packed, OutOfMemory>
        ensures { IfOk result (λ packed. packed ≡ self.now) }
    {
        let bytes = Vec::from_slice(alloc, self.bytes.as_slice())?;
        let ends = Vec::from_slice(alloc, self.ends.as_slice())?;
        Ok(Packed { bytes, ends })
    }
}
