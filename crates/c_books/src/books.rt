// A book as a text.
ghost use Rattle.std.specs.Prelude.{◌≡◌, ◌≢◌, take};
ghost use Rattle.c_books.specs.Books.{IsRead, IsReadBack, IsTextOf, reason_number};
ghost use Rattle.c_handle.specs.Codes.{IsKept};
ghost use Rattle.book_text.specs.Reading.{read_book};

use book_text::{ReadError, Reason, book_of, text_of};
use c_handle::{Handle, NO, OK, OUT_OF_MEMORY, Thing, WRONG_HANDLE, write};
use std::alloc::Global;

/// Why a text is not that of a book: its first line does not begin as that of a book.
pub const REASON_NO_BOOK: u32 = 0;

/// Its first line begins so, but is not that of this format: another version, other line ends, or cut short.
pub const REASON_OTHER_FORMAT: u32 = 1;

/// The line is not what stands at its place, or not whole.
pub const REASON_BAD_LINE: u32 = 2;

/// The line's host does not come after the one before it, or its key comes before that of the entry before it.
pub const REASON_ORDER: u32 = 3;

/// The key of the line's entry has 64 entries before it.
pub const REASON_FULL: u32 = 4;

/// The text goes on behind its last line.
pub const REASON_TOO_LONG: u32 = 5;

/// Writes the text of a book, which `fiorrudda_book_of_text` reads back as the same book, so that what it knows lasts
/// over restarts: a line with its name and the number of its format, the known hosts, and the entries of the preflight
/// cache. Its times are in seconds since the moment that the calls counted from, which is 1970 for a book that lasts.
/// It has bytes of any kind, tells which servers were asked, and is not signed: who can change it can change what the
/// book knows. Threads that share the book hold one common lock around each call that takes it, and around both calls
/// where the first asks for the length.
///
/// `OK`; `TOO_SHORT` where `room` has less than `len` bytes; `WRONG_HANDLE`; `OUT_OF_MEMORY`. But for `OK` nothing is
/// written to `room`, and but for `OK` and `TOO_SHORT` nothing to `len`. The book is as it was.
#[unsafe(no_mangle)]
pub extern "C" fn fiorrudda_book_text(
    alloc: Global,
    book: &mut Handle,
    room: &mut [u8],
    len: &mut usize,
) -> u32
    ensures told { result ≢ OUT_OF_MEMORY → IsTextOf book.old.held room.old room.new len.old len.new result }
    ensures read { result ≡ OK → IsReadBack book.old.held (take len.new room.new) }
    ensures out_of_memory { result ≡ OUT_OF_MEMORY → IsKept room.old room.new len.old len.new }
    ensures held { book.new.held ≡ book.old.held }
{
    let Some(book) = book.book() else {
        return WRONG_HANDLE;
    };
    match text_of(alloc, book) {
        Ok(text) => write(text.as_slice(), room, len),
        Err(_) => OUT_OF_MEMORY,
    }
}

// The number of a reason.
fn reason_number(reason: Reason) -> u32
    ensures { result ≡ reason_number reason }
{
    match reason {
        Reason::NoBook => REASON_NO_BOOK,
        Reason::OtherFormat => REASON_OTHER_FORMAT,
        Reason::BadLine => REASON_BAD_LINE,
        Reason::Order => REASON_ORDER,
        Reason::Full => REASON_FULL,
        Reason::TooLong => REASON_TOO_LONG,
    }
}

/// Makes in a handle the book whose text this is, as `fiorrudda_book_text` writes it, and frees what the handle held.
/// Nothing is read of a text that is not that of a book: `line` tells its first line that is not as such a text has it,
/// counted from 1, and `reason` why, by `REASON_NO_BOOK` to `REASON_TOO_LONG`. A line ends behind its last field, so
/// that an LF within a name or a URL ends no line. Threads that share the book hold one common lock around each call
/// that takes it, this one too.
///
/// `OK`; `NO`, where the text is refused; `OUT_OF_MEMORY`. Except for `OK` the handle holds what it held. `line` and
/// `reason` are told with `NO` alone.
#[unsafe(no_mangle)]
pub extern "C" fn fiorrudda_book_of_text(
    alloc: Global,
    book: &mut Handle,
    text: &[u8],
    line: &mut u64,
    reason: &mut u32,
) -> u32
    ensures told { result ≢ OUT_OF_MEMORY
        → IsRead (read_book text.now) line.old line.new reason.old reason.new result book.old.held book.new.held }
    ensures out_of_memory { result ≡ OUT_OF_MEMORY
        → (book.new.held ≡ book.old.held) × (line.new ≡ line.old) × (reason.new ≡ reason.old) }
{
    match book_of(alloc, text) {
        Ok(read) => book.fill(alloc, Thing::Book(read)),
        Err(ReadError::Memory) => OUT_OF_MEMORY,
        Err(ReadError::Refused(refusal)) => {
            *line = refusal.line;
            *reason = reason_number(refusal.reason);
            NO
        }
    }
}
