// Texts of any bytes. A short one is kept in the value itself.
ghost use Rattle.std.specs.Prelude.{◌≡◌, ◌==◌, ◌++◌, [], length, IfOk, OnOk, OnErr};

use crate::memory::OutOfMemory;
use crate::short::{SHORT, Short};
use std::alloc::Global;
use std::marker::Model;

/// A text of any bytes, seen as the list of them. A copy of up to 23 bytes is kept in the value itself and takes no
/// other memory, since many names and values of headers are that short. The bytes of a vector stay where they are.
#[derive(Drop)]
pub struct Bytes {
    // One of the two is empty.
    short: Short,
    long: Vec<u8>,
}

impl Model for Bytes {
    ghost use Rattle.std.specs.Prelude.{ℕ, List};
    ghost use Rattle.value_bytes.specs.Private.Stores.{IsInOnePlace, whole};

    ghost Value = { List ℕ };

    ghost view = { λ text. whole text.short text.long.items };

    ghost invariant = { λ text. IsInOnePlace text.short text.long.items };
}

// A text is moved often, so its size matters.
const _: () = prove!(size_of::<Bytes>() == 48);

// Two pieces, joined. A text moves out of the value itself once at most, so most calls of `append` come without it.
#[cold]
#[inline(never)]
fn joined(alloc: Global, front: &[u8], back: &[u8]) -> Result<Vec<u8>, OutOfMemory>
    ensures { IfOk result (λ items. items.items ≡ front.now ++ back.now) }
{
    let mut items = Vec::with_capacity(alloc, front.len().saturating_add(back.len()))?;
    items.extend_from_slice(front)?;
    items.extend_from_slice(back)?;
    Ok(items)
}

impl Bytes {
    /// The empty text. It takes no memory.
    pub fn new(alloc: Global) -> Bytes
        ensures { result ≡ [] }
    {
        Bytes::from_vec(Vec::new(alloc))
    }

    /// A copy of the bytes.
    #[tactic(auto, unfolding(crate::specs::Private::Stores::whole, crate::specs::Private::Stores::IsInOnePlace))]
    pub fn of(alloc: Global, from: &[u8]) -> Result<Bytes, OutOfMemory>
        ensures { IfOk result (λ text. text ≡ from.now) }
    {
        if from.len() <= SHORT {
            Ok(Bytes {
                short: Short::of(from),
                long: Vec::new(alloc),
            })
        } else {
            Ok(Bytes::from_vec(Vec::from_slice(alloc, from)?))
        }
    }

    /// A copy of two pieces, one behind the other, with no more room than it needs.
    #[tactic(auto, unfolding(crate::specs::Private::Stores::whole, crate::specs::Private::Stores::IsInOnePlace))]
    pub fn joined(alloc: Global, front: &[u8], back: &[u8]) -> Result<Bytes, OutOfMemory>
        ensures { IfOk result (λ text. text ≡ front.now ++ back.now) }
    {
        if front.len() > SHORT || back.len() > SHORT - front.len() {
            return Ok(Bytes::from_vec(joined(alloc, front, back)?));
        }
        let mut short = Short::of(front);
        short.append(back);
        Ok(Bytes {
            short,
            long: Vec::new(alloc),
        })
    }

    /// The bytes of a vector, which is not copied.
    #[tactic(auto, unfolding(crate::specs::Private::Stores::whole, crate::specs::Private::Stores::IsInOnePlace))]
    pub fn from_vec(items: Vec<u8>) -> Bytes
        ensures { result ≡ items.items }
    {
        Bytes {
            short: Short::new(),
            long: items,
        }
    }

    /// The bytes.
    #[tactic(auto, unfolding(crate::specs::Private::Stores::whole, crate::specs::Private::Stores::IsInOnePlace))]
    pub fn as_slice(&self) -> &[u8]
        ensures { result.now ≡ self.now }
    {
        if self.long.is_empty() {
            self.short.as_slice()
        } else {
            self.long.as_slice()
        }
    }

    /// The bytes as a vector. Bytes that are kept in the text itself are copied, and others are not. Where memory is
    /// refused, the text is gone.
    #[tactic(auto, unfolding(crate::specs::Private::Stores::whole, crate::specs::Private::Stores::IsInOnePlace))]
    pub fn into_vec(self) -> Result<Vec<u8>, OutOfMemory>
        ensures { IfOk result (λ items. items.items ≡ self) }
    {
        if self.short.is_empty() {
            return Ok(self.long);
        }
        Ok(Vec::from_slice(*self.long.allocator(), self.short.as_slice())?)
    }

    /// How many bytes there are.
    pub fn len(&self) -> usize
        ensures { result ≡ length self.now }
    {
        self.as_slice().len()
    }

    /// Whether there are none.
    pub fn is_empty(&self) -> bool
        ensures { result ≡ (length self.now == 0) }
    {
        self.as_slice().is_empty()
    }

    /// An equal text.
    pub fn copy(&self, alloc: Global) -> Result<Bytes, OutOfMemory>
        ensures { IfOk result (λ text. text ≡ self.now) }
    {
        Bytes::of(alloc, self.as_slice())
    }

    /// An equal text with no more room than it needs. Where memory is refused, the text is gone.
    pub fn fitted(self, alloc: Global) -> Result<Bytes, OutOfMemory>
        ensures { IfOk result (λ text. text ≡ self) }
    {
        if self.long.capacity() == self.long.len() {
            return Ok(self);
        }
        self.copy(alloc)
    }

    /// Adds the bytes at the end. Where memory is refused, the text is as it was.
    #[tactic(auto, unfolding(crate::specs::Private::Stores::whole, crate::specs::Private::Stores::IsInOnePlace))]
    pub fn append(&mut self, piece: &[u8]) -> Result<(), OutOfMemory>
        ensures ok { OnOk result (self.new ≡ self.old ++ piece.now) }
        ensures err { OnErr result (self.new ≡ self.old) }
    {
        if self.long.capacity() == 0 && self.short.has_room_for(piece) {
            self.short.append(piece);
        } else if self.short.is_empty() {
            self.long.extend_from_slice(piece)?;
        } else {
            let alloc = *self.long.allocator();
            self.long = joined(alloc, self.short.as_slice(), piece)?;
            self.short = Short::new();
        }
        Ok(())
    }
}

/// A copy of the text, where there is one.
pub fn copy_of(alloc: Global, text: &Option<Bytes>) -> Result<Option<Bytes>, OutOfMemory>
    ensures { IfOk result (λ copy. copy ≡ text.now) }
{
    match text {
        None => Ok(None),
        Some(text) => Ok(Some(text.copy(alloc)?)),
    }
}
