// A row as its texts.
use crate::failed::Failed;
use crate::shown::Shown;
use std::alloc::Global;
use value_bytes::{Bytes, BytesList};
use value_text::{after_byte, before_byte, parse_digits, parts_between};

/// The texts of a row, without their escapes.
#[derive(Drop)]
pub struct Row {
    texts: BytesList,
}

impl Row {
    /// Cuts a written row at each such byte into its texts, and undoes their escapes as `unescaped` does.
    pub fn of(alloc: Global, written: &[u8], between: u8) -> Result<Row, Failed> {
        let mut texts = BytesList::new(alloc);
        for text in texts_between(alloc, written, between)?.as_slice() {
            texts.push(unescaped(alloc, text.as_slice())?)?;
        }
        Ok(Row { texts })
    }

    /// How many texts there are.
    pub fn len(&self) -> usize {
        self.texts.len()
    }

    /// The text at an index, or the empty text where there are fewer.
    pub fn text(&self, index: usize) -> &[u8] {
        if index < self.texts.len() {
            self.texts.at(index)
        } else {
            &[]
        }
    }

    /// Whether the text at an index is this one.
    pub fn has(&self, index: usize, text: &[u8]) -> bool {
        self.text(index) == text
    }
}

/// Cuts a text at each such byte. The parts stay as they are written.
pub fn texts_between(alloc: Global, written: &[u8], between: u8) -> Result<BytesList, Failed> {
    let mut texts = BytesList::new(alloc);
    for text in parts_between(alloc, written, between)?.as_slice() {
        texts.push(Bytes::of(alloc, text)?)?;
    }
    Ok(texts)
}

/// The number that the digits write, or the cap where that is less.
pub fn number(digits: &[u8], cap: u64) -> Result<u64, Failed> {
    match parse_digits(digits, cap) {
        Some(number) => Ok(number),
        None => Err(Failed),
    }
}

/// The bytes that a text writes: `\r`, `\n`, `\t`, `\0` and `\\` are CR, LF, tab, NUL and a backslash, `\xHH` is the
/// byte of these two hexadecimal digits, and `{COUNT UNIT}` is COUNT times the UNIT.
pub fn unescaped(alloc: Global, text: &[u8]) -> Result<Bytes, Failed> {
    let mut bytes = Shown::new(alloc);
    let mut rest = text;
    for _ in 0..text.len() {
        add(&mut bytes, before_byte(rest, b'{'));
        let behind = after_byte(rest, b'{');
        if behind.is_empty() {
            break;
        }
        add_repeated(&mut bytes, before_byte(behind, b'}'));
        rest = after_byte(behind, b'}');
    }
    bytes.into_bytes()
}

// Adds what a group `COUNT UNIT` writes: COUNT times the UNIT.
fn add_repeated(bytes: &mut Shown, group: &[u8]) {
    let Some(count) = parse_digits(before_byte(group, b' '), u64::from(u32::MAX)) else {
        bytes.fail();
        return;
    };
    for _ in 0..count {
        add(bytes, after_byte(group, b' '));
    }
}

// Adds the bytes that a text without groups writes.
fn add(bytes: &mut Shown, text: &[u8]) {
    let mut rest = text;
    for _ in 0..text.len() {
        match rest {
            [] => break,
            [b'\\', b'x', high, low, after @ ..] => {
                bytes.add_byte(byte_of(*high, *low));
                rest = after;
            }
            [b'\\', letter, after @ ..] => {
                bytes.add_byte(escape(*letter));
                rest = after;
            }
            [byte, after @ ..] => {
                bytes.add(&[*byte]);
                rest = after;
            }
        }
    }
}

// The byte that two hexadecimal digits write.
fn byte_of(high: u8, low: u8) -> Option<u8> {
    let high = char::from(high).to_digit(16)?;
    let low = char::from(low).to_digit(16)?;
    u8::try_from(high.wrapping_mul(16).wrapping_add(low)).ok()
}

// The byte that a backslash and this letter write.
fn escape(letter: u8) -> Option<u8> {
    match letter {
        b'r' => Some(b'\r'),
        b'n' => Some(b'\n'),
        b't' => Some(b'\t'),
        b'0' => Some(0),
        b'\\' => Some(b'\\'),
        _ => None,
    }
}
