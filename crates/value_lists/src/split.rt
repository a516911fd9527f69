// "get, decode, and split" a header value (Fetch, section 2.2.2).
ghost use Rattle.std.specs.Prelude.{ℕ, List, ◌≡◌, ◌++◌, ◌∷◌, [], IfOk, OnOk, codes, if◌then◌else◌};
ghost use Rattle.value_text.specs.Texts.{Text};
ghost use Rattle.value_text.specs.Trims.{tab_or_space, trimmed};
ghost use Rattle.value_lists.specs.Split.{split, split_values};
ghost use Rattle.value_lists.specs.Private.Splitting.{pieces_at, pieces_behind, split_with};

use std::alloc::Global;
use value_bytes::{Bytes, BytesList, OutOfMemory};
use value_headers::{Field, HeaderList};
use value_text::{eq_fold, trim_tab_or_space};

/// A place in a text that is split at its commas.
#[derive(Clone, Copy)]
enum Place {
    /// Outside quoted strings.
    Outside,
    /// In a quoted string.
    Quoted,
    /// In a quoted string, after a backslash.
    Escaped,
}

impl Place {
    // The place after a byte, or nothing where the byte is a comma between two pieces.
    fn behind(self, byte: u8) -> Option<Place>
        ensures { (rest : Text) → pieces_at self (byte ∷ rest) ≡ pieces_behind byte result rest }
    {
        match self {
            Place::Outside if byte == b',' => None,
            Place::Outside if byte == b'"' => Some(Place::Quoted),
            Place::Outside => Some(Place::Outside),
            Place::Quoted if byte == b'"' => Some(Place::Outside),
            Place::Quoted if byte == b'\\' => Some(Place::Escaped),
            Place::Quoted | Place::Escaped => Some(Place::Quoted),
        }
    }
}

/// Splits a text that comes bit by bit at the commas outside its quoted strings.
#[derive(Drop)]
struct Splitter {
    /// The pieces that ended, trimmed.
    pieces: BytesList,
    /// The bytes of the next piece so far.
    piece: Vec<u8>,
    place: Place,
}

impl Splitter {
    fn new(alloc: Global) -> Splitter
        ensures { (rest : Text) → split_with result rest ≡ split rest }
    {
        Splitter {
            pieces: BytesList::new(alloc),
            piece: Vec::new(alloc),
            place: Place::Outside,
        }
    }

    // Ends the piece.
    fn end_piece(&mut self) -> Result<(), OutOfMemory>
        ensures pieces { OnOk result (self.new.pieces
            ≡ self.old.pieces ++ trimmed tab_or_space self.old.piece.items ∷ []) }
        ensures piece { OnOk result (self.new.piece.items ≡ []) }
        ensures place { self.new.place ≡ self.old.place }
    {
        let alloc = *self.piece.allocator();
        let piece = Bytes::of(alloc, trim_tab_or_space(self.piece.as_slice()))?;
        self.pieces.push(piece)?;
        self.piece.clear();
        Ok(())
    }

    // Takes the next byte of the text.
    fn take(&mut self, byte: u8) -> Result<(), OutOfMemory>
        ensures { OnOk result ((rest : Text) → split_with self.new rest ≡ split_with self.old (byte ∷ rest)) }
    {
        match self.place.behind(byte) {
            None => {
                self.end_piece()?;
                self.place = Place::Outside;
                Ok(())
            }
            Some(place) => {
                self.piece.push(byte)?;
                self.place = place;
                Ok(())
            }
        }
    }

    // Takes the next bytes of the text.
    fn take_all(&mut self, text: &[u8]) -> Result<(), OutOfMemory>
        ensures { OnOk result ((rest : Text) → split_with self.new rest ≡ split_with self.old (text.now ++ rest)) }
    {
        for byte in text {
            self.take(*byte)?;
        }
        Ok(())
    }

    // Takes a value, with a comma and a space before it where it is not the first.
    fn take_value(&mut self, found: bool, value: &[u8]) -> Result<(), OutOfMemory>
        ensures { OnOk result ((rest : Text) → split_with self.new rest
            ≡ split_with self.old (if found then codes ", " ++ (value.now ++ rest) else value.now ++ rest)) }
    {
        if found {
            self.take_all(b", ")?;
        }
        self.take_all(value)
    }

    // All pieces, at the end of the text.
    fn finish(mut self) -> Result<BytesList, OutOfMemory>
        ensures { IfOk result (λ pieces. pieces ≡ split_with self []) }
    {
        self.end_piece()?;
        Ok(self.pieces)
    }
}

/// A value split at the commas outside its quoted strings, each piece without tabs and spaces around
/// it (Fetch, section 2.2.2, "get, decode, and split a header value").
pub fn split_value(alloc: Global, value: &[u8]) -> Result<BytesList, OutOfMemory>
    ensures { IfOk result (λ pieces. pieces ≡ split value.now) }
{
    let mut splitter = Splitter::new(alloc);
    splitter.take_all(value)?;
    splitter.finish()
}

// The values of a name, split as if they were joined: the joined text is not built.
fn split_in(alloc: Global, headers: &[Field], name: &[u8]) -> Result<Option<BytesList>, OutOfMemory>
    ensures { IfOk result (λ pieces. pieces ≡ split_values name.now headers.now) }
{
    let mut splitter = Splitter::new(alloc);
    let mut found = false;
    for header in headers {
        if eq_fold(header.name(), name) {
            splitter.take_value(found, header.value())?;
            found = true;
        }
    }
    if found {
        Ok(Some(splitter.finish()?))
    } else {
        Ok(None)
    }
}

/// "get, decode, and split": the joined values of that name, cut at the commas outside quoted strings, each piece
/// without tabs and spaces around it; nothing where the list does not contain the name. A quoted string that is not
/// closed goes to the end, and a backslash in one takes the next byte with it (Fetch, section 2.2.2).
pub fn split_values(
    alloc: Global,
    headers: &HeaderList,
    name: &[u8],
) -> Result<Option<BytesList>, OutOfMemory>
    ensures { IfOk result (λ pieces. pieces ≡ split_values name.now headers.now) }
{
    split_in(alloc, headers.as_slice(), name)
}
