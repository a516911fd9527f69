// Which bytes are written as they are in an escaped text.
ghost use Rattle.std.specs.Prelude.{◌≡◌, ◌≤◌, ◌+◌, not, length, filter};
ghost use Rattle.std.specs.List.{list_all};
ghost use Rattle.script_lines.specs.Escapes as spec;

/// Whether the byte is written as it is in an escaped text: it is printable ASCII, and no backslash.
pub fn is_plain(byte: u8) -> bool
    ensures { result ≡ spec.is_plain byte }
{
    (0x20..=0x7e).contains(&byte) & (byte != b'\\')
}

// How many bytes are looked at together.
const BLOCK: usize = 16;

// Whether each byte is written as it is. It looks at all of them, so that it is compiled to steps on a block of bytes
// at once.
fn all_plain(bytes: &[u8]) -> bool
    ensures { result ≡ list_all spec.is_plain bytes.now }
{
    let mut plain = true;
    for byte in bytes {
        plain &= is_plain(*byte);
    }
    plain
}

// Whether each byte is written as it is, of bytes that are so many at the front and so many at the back: these may
// overlap. Both are looked at, so that two small ones are compiled to steps on one block.
#[inline(always)]
fn ends_are_plain(bytes: &[u8], front: usize, back: usize) -> bool
    requires front { front ≤ length bytes.now }
    requires back { back ≤ length bytes.now }
    requires all { length bytes.now ≤ front + back }
    ensures { result ≡ list_all spec.is_plain bytes.now }
{
    let first = bytes.split_at(front).0;
    let last = bytes.split_at(bytes.len() - back).1;
    all_plain(first) & all_plain(last)
}

/// Whether each byte is written as it is.
pub fn are_plain(bytes: &[u8]) -> bool
    ensures { result ≡ list_all spec.is_plain bytes.now }
{
    let count = bytes.len();
    if count > 2 * BLOCK {
        ends_are_plain(bytes, count - count % BLOCK, BLOCK)
    } else if count >= BLOCK {
        ends_are_plain(bytes, BLOCK, BLOCK)
    } else if count >= BLOCK / 2 {
        ends_are_plain(bytes, BLOCK / 2, BLOCK / 2)
    } else if count >= BLOCK / 4 {
        ends_are_plain(bytes, BLOCK / 4, BLOCK / 4)
    } else {
        all_plain(bytes)
    }
}

// How many of the bytes are not written as they are.
pub(crate) fn escape_count(bytes: &[u8]) -> usize
    ensures { result ≡ length (filter (λ byte. not (spec.is_plain byte)) bytes.now) }
{
    if are_plain(bytes) {
        return 0;
    }
    bytes.iter().filter(|byte| !is_plain(**byte)).count()
}
