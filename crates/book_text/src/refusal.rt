// Why a text is not that of a book, and from which line on.
ghost use Rattle.std.specs.Prelude.{◌≡◌};
ghost use Rattle.book_text.specs.declared.refusal.ReadError.TheVariants.{Memory};

use value_bytes::OutOfMemory;

/// Why a text is not that of a book.
#[derive(Clone, Copy, Debug, PartialEq, Eq)]
pub enum Reason {
    /// The first line does not begin as that of a book.
    NoBook,
    /// It begins so, but is not that of this format: another version, other line ends, or cut short.
    OtherFormat,
    /// The line is not what stands at its place, or not whole.
    BadLine,
    /// A host does not come after the one before it, or a key comes before that of the entry before it.
    Order,
    /// A key has 64 entries before this one.
    Full,
    /// The text goes on behind its last line.
    TooLong,
}

/// The first line of a text that is not that of a book's text, counted from 1, and why. A line ends behind its last
/// field, so that an LF within a name or a URL ends no line.
#[derive(Clone, Copy, Debug, PartialEq, Eq)]
pub struct Refusal {
    pub line: u64,
    pub reason: Reason,
}

/// Why no book was read: memory was refused, or the text.
#[derive(Clone, Copy, Debug, PartialEq, Eq)]
pub enum ReadError {
    Memory,
    Refused(Refusal),
}

impl From<OutOfMemory> for ReadError {
    ghost from_gives = { λ _ e. e ≡ Memory };

    fn from(_error: OutOfMemory) -> Self {
        ReadError::Memory
    }
}
