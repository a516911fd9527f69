// Escaping: each byte but printable ASCII without a backslash is written by its number.
ghost use Rattle.std.specs.Prelude.{◌≡◌, ◌<◌, ◌++◌, OnOk};
ghost use Rattle.std.specs.List.{prefix_len};
ghost use Rattle.std.specs.Char.{digit_char};
ghost use Rattle.script_lines.specs.Escapes as spec;

use crate::page::Page;
use script_lines::{are_plain, is_plain};
use value_bytes::OutOfMemory;

// How many bytes are looked at together.
const BLOCK: usize = 512;

// How many bytes at the front are written as they are.
fn plain_len(bytes: &[u8]) -> usize
    ensures { result ≡ prefix_len spec.is_plain bytes.now }
{
    for (index, byte) in bytes.iter().enumerate() {
        if !is_plain(*byte) {
            return index;
        }
    }
    bytes.len()
}

// The hexadecimal digit of a value.
fn hex_digit(value: u8) -> u8
    requires { value < 16 }
    ensures { result ≡ digit_char value }
{
    if value < 10 {
        b'0' + value
    } else {
        b'a' + (value - 10)
    }
}

// A byte by its hexadecimal digits.
fn hex_escape(byte: u8) -> [u8; 4]
    ensures { result ≡ spec.hex_escape byte }
{
    [b'\\', b'x', hex_digit(byte / 16), hex_digit(byte % 16)]
}

// Adds a piece, escaped. Bytes that are not changed are added a run at a time.
fn add_runs(text: &mut Page, piece: &[u8]) -> Result<(), OutOfMemory>
    ensures { OnOk result (text.new ≡ text.old ++ spec.escaped piece.now) }
{
    let mut rest = piece;
    loop {
        let (plain, others) = rest.split_at(plain_len(rest));
        text.append(plain)?;
        let Some((byte, after)) = others.split_first() else {
            return Ok(());
        };
        text.append(&hex_escape(*byte))?;
        rest = after;
    }
}

// Adds a block, escaped: as it is, where each of its bytes is written as it is.
fn add_block(text: &mut Page, block: &[u8]) -> Result<(), OutOfMemory>
    ensures { OnOk result (text.new ≡ text.old ++ spec.escaped block.now) }
{
    if are_plain(block) {
        text.append(block)
    } else {
        add_runs(text, block)
    }
}

// Adds a piece, escaped, a block at a time.
fn add_blocks(text: &mut Page, piece: &[u8]) -> Result<(), OutOfMemory>
    ensures { OnOk result (text.new ≡ text.old ++ spec.escaped piece.now) }
{
    let mut rest = piece;
    while !rest.is_empty() {
        let (block, after) = rest.split_at(rest.len().min(BLOCK));
        add_block(text, block)?;
        rest = after;
    }
    Ok(())
}

// Adds a piece, escaped. Most are no longer than a block.
pub(crate) fn add_escaped(text: &mut Page, piece: &[u8]) -> Result<(), OutOfMemory>
    ensures { OnOk result (text.new ≡ text.old ++ spec.escaped piece.now) }
{
    if piece.len() <= BLOCK {
        add_block(text, piece)
    } else {
        add_blocks(text, piece)
    }
}
