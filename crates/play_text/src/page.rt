// A text in the making: small pieces are gathered before they come to it.
ghost use Rattle.std.specs.Prelude.{◌≡◌, ◌++◌, [], IfOk, OnOk};

use arrayvec::ArrayVec;
use std::alloc::Global;
use std::marker::Model;
use value_bytes::{Bytes, OutOfMemory};

// How many bytes are gathered.
const ROW: usize = 1_024;

/// A text that is printed, seen as the list of its bytes. Its pieces are gathered in a row, and come to the text in
/// memory when that is full: most are a few bytes long, and then cost half of what they cost one by one.
#[derive(Drop)]
pub struct Page {
    text: Bytes,
    row: ArrayVec<u8, ROW>,
}

impl Model for Page {
    ghost use Rattle.std.specs.Prelude.{ℕ, List, ◌++◌};

    ghost Value = { List ℕ };

    ghost view = { λ page. page.text ++ page.row.items };
}

impl Page {
    /// The empty page. It takes no memory.
    pub fn new(alloc: Global) -> Page
        ensures { result ≡ [] }
    {
        Page {
            text: Bytes::new(alloc),
            row: ArrayVec::new(),
        }
    }

    // Adds a piece that finds no room in the row.
    #[cold]
    #[inline(never)]
    fn append_long(&mut self, piece: &[u8]) -> Result<(), OutOfMemory>
        ensures { OnOk result (self.new ≡ self.old ++ piece.now) }
    {
        self.text.append(self.row.as_slice())?;
        self.row.clear();
        self.text.append(piece)
    }

    /// Adds the bytes at the end. Where memory is refused the text is any.
    pub fn append(&mut self, piece: &[u8]) -> Result<(), OutOfMemory>
        ensures { OnOk result (self.new ≡ self.old ++ piece.now) }
    {
        match self.row.try_extend_from_slice(piece) {
            Ok(()) => Ok(()),
            Err(_) => self.append_long(piece),
        }
    }

    /// The text. Where memory is refused it is gone.
    pub fn into_text(self) -> Result<Bytes, OutOfMemory>
        ensures { IfOk result (λ text. text ≡ self) }
    {
        let Page { mut text, row } = self;
        text.append(row.as_slice())?;
        Ok(text)
    }
}
