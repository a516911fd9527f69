// A list of texts, which contracts see as a list of lists of bytes.
ghost use Rattle.std.specs.Prelude.{◌≡◌, ◌==◌, ◌<◌, ◌++◌, ◌∷◌, [], length, slice_get, Some, IfOk, OnOk, OnErr};

use crate::bytes::Bytes;
use crate::memory::OutOfMemory;
use std::alloc::Global;
use std::marker::Model;

/// A list of texts, seen as a list of lists of bytes.
#[derive(Drop)]
pub struct BytesList {
    texts: Vec<Bytes>,
}

impl Model for BytesList {
    ghost use Rattle.std.specs.Prelude.{ℕ, List};

    ghost Value = { List (List ℕ) };

    ghost view = { λ list. list.texts.items };
}

impl BytesList {
    /// The empty list. It takes no memory.
    pub fn new(alloc: Global) -> BytesList
        ensures { result ≡ [] }
    {
        BytesList {
            texts: Vec::new(alloc),
        }
    }

    /// Adds a text at the end. Where memory is refused, the list is as it was.
    pub fn push(&mut self, item: Bytes) -> Result<(), OutOfMemory>
        ensures ok { OnOk result (self.new ≡ self.old ++ item ∷ []) }
        ensures err { OnErr result (self.new ≡ self.old) }
    {
        self.texts.push(item)?;
        Ok(())
    }

    /// How many texts there are.
    pub fn len(&self) -> usize
        ensures { result ≡ length self.now }
    {
        self.texts.len()
    }

    /// The text at an index below the length.
    pub fn at(&self, index: usize) -> &[u8]
        requires { index < length self.now }
        ensures { slice_get self.now index ≡ Some result.now }
    {
        self.texts[index].as_slice()
    }

    /// Whether there are none.
    pub fn is_empty(&self) -> bool
        ensures { result ≡ (length self.now == 0) }
    {
        self.texts.is_empty()
    }

    /// The texts, in order.
    pub fn as_slice(&self) -> &[Bytes]
        ensures { result.now ≡ self.now }
    {
        self.texts.as_slice()
    }

    /// The texts as a vector, which is not copied.
    pub fn into_vec(self) -> Vec<Bytes>
        ensures { result.items ≡ self }
    {
        self.texts
    }

    /// The texts of a vector, which is not copied.
    pub fn from_vec(texts: Vec<Bytes>) -> BytesList
        ensures { result ≡ texts.items }
    {
        BytesList { texts }
    }

    /// An equal list.
    pub fn copy(&self, alloc: Global) -> Result<BytesList, OutOfMemory>
        ensures { IfOk result (λ list. list ≡ self.now) }
    {
        let mut texts = Vec::with_capacity(alloc, self.texts.len())?;
        for text in self.as_slice() {
            texts.push(text.copy(alloc)?)?;
        }
        Ok(BytesList { texts })
    }
}
