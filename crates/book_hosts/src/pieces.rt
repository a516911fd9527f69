// Cuts a Strict-Transport-Security field at the semicolons outside its quoted strings.
ghost use Rattle.std.specs.Prelude.{◌≡◌};
ghost use Rattle.book_hosts.specs.Private.Pieces.{piece_end};
ghost use Rattle.book_hosts.specs.Reading.{cuts, next_place};

/// A place in a text that is cut at its semicolons.
#[derive(Clone, Copy)]
pub(crate) enum Place {
    /// Outside quoted strings.
    Outside,
    /// In a quoted string.
    Quoted,
    /// In a quoted string, after a backslash.
    Escaped,
}

impl Place {
    // Whether the byte is a semicolon between two pieces.
    fn cuts(self, byte: u8) -> bool
        ensures { result ≡ cuts self byte }
    {
        match self {
            Place::Outside => byte == b';',
            Place::Quoted | Place::Escaped => false,
        }
    }

    // The place after another byte.
    fn behind(self, byte: u8) -> Place
        ensures { result ≡ next_place self byte }
    {
        match self {
            Place::Outside if byte == b'"' => Place::Quoted,
            Place::Outside => Place::Outside,
            Place::Quoted if byte == b'"' => Place::Outside,
            Place::Quoted if byte == b'\\' => Place::Escaped,
            Place::Quoted | Place::Escaped => Place::Quoted,
        }
    }
}

// How many bytes there are before the first semicolon outside quoted strings, or before the end.
pub(crate) fn piece_end(text: &[u8]) -> usize
    ensures { result ≡ piece_end Place.Outside text.now }
{
    let mut place = Place::Outside;
    for (index, byte) in text.iter().enumerate() {
        if place.cuts(*byte) {
            return index;
        }
        place = place.behind(*byte);
    }
    text.len()
}
