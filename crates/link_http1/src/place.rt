// Where in a chunked body a reader is, and what the next byte comes to (RFC 9112, section 7.1).
ghost use Rattle.std.specs.Prelude.{◌≡◌, IsTrue};
ghost use Rattle.std.specs.Char.{digit_value, is_ascii_hexdigit};
ghost use Rattle.link_http1.specs.Private.Places as spec;

// The most bytes that the line of a chunk has before its CRLF.
const MOST_LINE: u16 = 4094;

// The most bytes that the trailers have before the CRLF of their last line and that of the empty line.
const MOST_TRAILERS: u16 = 8188;

// The most digits that the size of a chunk has.
const MOST_DIGITS: u8 = 16;

/// How far a chunked body has been read (RFC 9112, section 7.1).
#[derive(Clone, Copy)]
pub(crate) enum Place {
    /// After so many digits of a chunk's size, which write this value.
    Size(u8, u64),
    /// After blanks that follow the size; the line has so many bytes.
    Blanks(u64, u16),
    /// In what a chunk of this size extends by; the line has so many bytes.
    Extension(u64, u16),
    /// After the CR of the line of a chunk of this size.
    LineEnd(u64),
    /// In the data of a chunk, of which so many bytes are left; where none is, the CRLF comes next.
    Data(u64),
    /// After the CR that follows data.
    DataEnd,
    /// Before a line of the trailers, which have so many bytes yet.
    Trailers(u16),
    /// In a line of the trailers, which have so many bytes yet.
    Trailer(u16),
    /// After the CR of such a line; the trailers have so many bytes before it.
    TrailerEnd(u16),
    /// After the CR of the empty line.
    LastEnd,
}

/// What a byte that is no data comes to.
#[derive(Clone, Copy)]
pub(crate) enum Turn {
    /// The body goes on at this place.
    To(Place),
    /// The body is whole.
    Ended,
    /// The byte does not fit.
    Broken,
}

impl Place {
    // How many bytes of data are left of the chunk.
    pub(crate) fn data_left(self) -> u64
        ensures { result ≡ spec.data_left self }
    {
        match self {
            Place::Data(left) => left,
            _ => 0,
        }
    }

    // What the next byte comes to, where no data are left.
    pub(crate) fn turn(self, byte: u8) -> Turn
        requires { spec.IsLive self }
        ensures { result ≡ spec.turn self byte }
    {
        match self {
            Place::Size(digits, value) => in_size(digits, value, byte),
            Place::Blanks(size, line) => behind_digits(size, line, byte),
            Place::Extension(size, line) => in_extension(size, line, byte),
            Place::LineEnd(size) => on_line_feed(byte, Turn::To(behind_line(size))),
            Place::Data(_) => on_carriage_return(byte, Turn::To(Place::DataEnd)),
            Place::DataEnd => on_line_feed(byte, Turn::To(Place::Size(0, 0))),
            Place::Trailers(bytes) => at_trailer(byte, bytes, Place::LastEnd),
            Place::Trailer(bytes) => at_trailer(byte, bytes, Place::TrailerEnd(bytes)),
            Place::TrailerEnd(bytes) => on_line_feed(byte, Turn::To(Place::Trailers(bytes + 2))),
            Place::LastEnd => on_line_feed(byte, Turn::Ended),
        }
    }
}

// LF alone fits.
fn on_line_feed(byte: u8, turn: Turn) -> Turn
    ensures { result ≡ spec.on_line_feed byte turn }
{
    if byte == b'\n' { turn } else { Turn::Broken }
}

// CR alone fits.
fn on_carriage_return(byte: u8, turn: Turn) -> Turn
    ensures { result ≡ spec.on_carriage_return byte turn }
{
    if byte == b'\r' { turn } else { Turn::Broken }
}

// A digit of the size, or what follows the digits.
fn in_size(digits: u8, value: u64, byte: u8) -> Turn
    requires { spec.IsLive (Place.Size digits value) }
    ensures { result ≡ spec.in_size digits value byte }
{
    if byte.is_ascii_hexdigit() {
        if digits == MOST_DIGITS {
            return Turn::Broken;
        }
        Turn::To(Place::Size(digits + 1, value * 16 + digit(byte)))
    } else if digits == 0 {
        Turn::Broken
    } else {
        behind_digits(value, u16::from(digits), byte)
    }
}

// The value of a hexadecimal digit.
fn digit(byte: u8) -> u64
    requires { IsTrue (is_ascii_hexdigit byte) }
    ensures { result ≡ digit_value byte }
{
    match byte {
        b'0'..=b'9' => u64::from(byte - b'0'),
        b'a'..=b'f' => u64::from(byte - b'a') + 10,
        _ => u64::from(byte - b'A') + 10,
    }
}

// A blank, a semicolon, or the end of the line.
fn behind_digits(size: u64, line: u16, byte: u8) -> Turn
    ensures { result ≡ spec.behind_digits size line byte }
{
    match byte {
        b'\r' => Turn::To(Place::LineEnd(size)),
        _ if line >= MOST_LINE => Turn::Broken,
        b'\t' | b' ' => Turn::To(Place::Blanks(size, line + 1)),
        b';' => Turn::To(Place::Extension(size, line + 1)),
        _ => Turn::Broken,
    }
}

// A byte of an extension, or the end of the line.
fn in_extension(size: u64, line: u16, byte: u8) -> Turn
    ensures { result ≡ spec.in_extension size line byte }
{
    match byte {
        b'\r' => Turn::To(Place::LineEnd(size)),
        b'\n' => Turn::Broken,
        _ if line >= MOST_LINE => Turn::Broken,
        _ => Turn::To(Place::Extension(size, line + 1)),
    }
}

// What follows the line of a chunk: its data, or after the last chunk the trailers.
fn behind_line(size: u64) -> Place
    ensures { result ≡ spec.behind_line size }
{
    if size == 0 {
        Place::Trailers(0)
    } else {
        Place::Data(size)
    }
}

// A byte of a line of the trailers, or the CR that leads to this place.
fn at_trailer(byte: u8, bytes: u16, end: Place) -> Turn
    ensures { result ≡ spec.at_trailer byte bytes end }
{
    match byte {
        b'\r' => Turn::To(end),
        b'\n' => Turn::Broken,
        _ if bytes >= MOST_TRAILERS => Turn::Broken,
        _ => Turn::To(Place::Trailer(bytes + 1)),
    }
}
