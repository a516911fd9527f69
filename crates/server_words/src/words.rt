// What the words of the program ask for: where to listen, and how many connections to serve.
ghost use Rattle.std.specs.Prelude.{◌≡◌, ◌≤◌, IfOk, IfSome, Ok, None, false};
ghost use Rattle.server_words.specs.Words as spec;
ghost use Rattle.server_words.specs.Words.{texts};

use crate::command::two_words;
use std::alloc::Global;
use value_bytes::{Bytes, OutOfMemory};
use value_text::parse_digits;

/// What the words ask for.
#[derive(Drop)]
pub struct Task {
    /// Where connections are listened for.
    pub address: Bytes,
    /// How many connections are served, from 1 to 1,024.
    pub count: u32,
}

// Whether the word is not empty and does not begin with `-`.
fn is_text(word: &[u8]) -> bool
    ensures { result ≡ spec.is_text word.now }
{
    match word {
        [] => false,
        [byte, ..] => *byte != b'-',
    }
}

// Whether each of the words is such a one.
fn are_texts(words: &[String]) -> bool
    ensures { result ≡ spec.are_texts (texts words.now) }
{
    words.iter().all(|word| is_text(word.as_bytes()))
}

// A decimal number from 1 to 1,024, without a sign and without a leading zero.
fn count_of(word: &[u8]) -> Option<u32>
    ensures value { result ≡ spec.count_of word.now }
    ensures bounds { IfSome result (λ count. (1 ≤ count) × (count ≤ 1024)) }
{
    let count = parse_digits(word, 1025)?;
    if word.first() != Some(&b'0') && 1 <= count && count <= 1024 {
        Some(count as u32)
    } else {
        None
    }
}

/// What the words after the program's name ask for, where they are accepted: they are two, neither is empty or
/// begins with `-`, and the second is a decimal number from 1 to 1,024, without a sign and without a leading zero.
pub fn task_of(alloc: Global, words: &[String]) -> Result<Option<Task>, OutOfMemory>
    ensures value { IfOk result (λ task. task ≡ spec.task_of (texts words.now)) }

    // A word that is empty or begins with `-` is refused first, also where memory would be refused.
    ensures first { spec.are_texts (texts words.now) ≡ false → result ≡ Ok None }
    ensures bounds { IfOk result (λ task. IfSome task (λ task. (1 ≤ task.count) × (task.count ≤ 1024))) }
{
    if !are_texts(words) {
        return Ok(None);
    }
    let Some((address, number)) = two_words(alloc, words)? else {
        return Ok(None);
    };
    let Some(count) = count_of(number.as_bytes()) else {
        return Ok(None);
    };
    let address = Bytes::of(alloc, address.as_bytes())?;
    Ok(Some(Task { address, count }))
}
