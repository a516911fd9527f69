// The bytes of a block whose end has not come yet.
ghost use Rattle.std.specs.Prelude.{◌≡◌, ◌++◌, [], IfOk, OnOk};

use std::alloc::Global;
use std::marker::Model;
use value_bytes::OutOfMemory;

/// The bytes of the block that has begun.
#[derive(Drop)]
pub(crate) struct Gathered {
    bytes: Vec<u8>,
}

impl Model for Gathered {
    ghost use Rattle.std.specs.Prelude.{ℕ, List};

    ghost Value = { List ℕ };

    ghost view = { λ gathered. gathered.bytes.items };
}

impl Gathered {
    // No bytes, with room for so many.
    pub(crate) fn with_room(alloc: Global, room: usize) -> Result<Gathered, OutOfMemory>
        ensures { IfOk result (λ gathered. gathered ≡ []) }
    {
        Ok(Gathered {
            bytes: Vec::with_capacity(alloc, room)?,
        })
    }

    // The bytes.
    pub(crate) fn as_slice(&self) -> &[u8]
        ensures { result.now ≡ self.now }
    {
        self.bytes.as_slice()
    }

    // Adds bytes at the end.
    pub(crate) fn append(&mut self, more: &[u8]) -> Result<(), OutOfMemory>
        ensures { OnOk result (self.new ≡ self.old ++ more.now) }
    {
        self.bytes.extend_from_slice(more)?;
        Ok(())
    }

    // Drops the bytes and keeps the room.
    pub(crate) fn clear(&mut self)
        ensures { self.new ≡ [] }
    {
        self.bytes.clear();
    }
}
