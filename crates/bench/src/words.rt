// The numbers in the words of the program, and texts with a number in them.
ghost use Rattle.std.specs.Prelude.{◌<◌, IfOk};

use rows_shell::{Failed, Row, Shown, number};
use std::alloc::Global;
use value_bytes::Bytes;

/// The words as one text, with a space after each.
pub(crate) fn words_of(alloc: Global, words: &[String]) -> Result<Bytes, Failed> {
    let mut text = Shown::new(alloc);
    for word in words {
        text.add(word.as_str().as_bytes());
        text.add(b" ");
    }
    text.into_bytes()
}

/// The number that the word at an index writes, or the greatest u32 where it is greater.
pub(crate) fn count_in(words: &Row, index: usize) -> Result<u32, Failed> {
    let most = u64::from(u32::MAX);
    Ok(number(words.text(index), most)?.min(most) as u32)
}

/// The same, for a number that may not be 0.
pub(crate) fn some_in(words: &Row, index: usize) -> Result<usize, Failed>
    ensures { IfOk result (λ count. 0 < count) }
{
    match count_in(words, index)? {
        0 => Err(Failed),
        count => Ok(count as usize),
    }
}

/// A text: its front, a number in decimal, and its back.
pub(crate) fn numbered(
    alloc: Global,
    front: &[u8],
    number: u32,
    back: &[u8],
) -> Result<Bytes, Failed> {
    let mut text = Shown::new(alloc);
    text.add(front);
    text.add_number(u64::from(number));
    text.add(back);
    text.into_bytes()
}
