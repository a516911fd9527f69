// The words of a directive's value, kept as one text that is walked word by word.
ghost use Rattle.std.specs.Prelude.{◌≡◌, ◌<◌, length, IfOk, IfSome};
ghost use Rattle.std.specs.Char.{is_ascii_whitespace};
ghost use Rattle.std.specs.List.{position, position_or_len};
ghost use Rattle.policy_csp_text.specs.Walks.{IsFirstWord, behind_blanks, behind_first_word};
ghost use Rattle.value_text.specs.Words.{words};

use std::alloc::Global;
use std::marker::Model;
use value_bytes::OutOfMemory;

/// The words of a directive's value, seen as the list of them. They are kept as the text that they stand in, so that a
/// word takes its bytes and what stands between it and the next.
#[derive(Drop)]
pub struct Words {
    text: Vec<u8>,
}

impl Model for Words {
    ghost use Rattle.std.specs.Prelude.{ℕ, List};
    ghost use Rattle.value_text.specs.Words.{words};

    ghost Value = { List (List ℕ) };

    ghost view = { λ list. words list.text.items };
}

impl Words {
    /// The words of a text, which is copied.
    pub fn of(alloc: Global, text: &[u8]) -> Result<Words, OutOfMemory>
        ensures { IfOk result (λ list. list ≡ words text.now) }
    {
        Ok(Words {
            text: Vec::from_slice(alloc, text)?,
        })
    }

    /// A text with these words, to be walked by `first_word`.
    pub fn as_text(&self) -> &[u8]
        ensures { words result.now ≡ self.now }
    {
        self.text.as_slice()
    }
}

// The text without the ASCII whitespace in front.
fn behind_blanks(text: &[u8]) -> &[u8]
    ensures { result.now ≡ behind_blanks text.now }
{
    let mut rest = text;
    while let [first, after @ ..] = rest {
        if !first.is_ascii_whitespace() {
            break;
        }
        rest = after;
    }
    rest
}

// Where the first byte of ASCII whitespace is.
fn first_blank(text: &[u8]) -> Option<usize>
    ensures { result ≡ position is_ascii_whitespace text.now }
{
    text.iter().position(|byte| byte.is_ascii_whitespace())
}

// How long the first word of a text without ASCII whitespace in front is.
fn first_length(text: &[u8]) -> usize
    ensures { result ≡ position_or_len is_ascii_whitespace text.now }
{
    match first_blank(text) {
        Some(index) => index,
        None => text.len(),
    }
}

/// The first word of a text, and what stands behind it, where the text has a word: what is between ASCII whitespace
/// (Infra, "split on ASCII whitespace"). It takes no memory.
pub fn first_word(text: &[u8]) -> Option<(&[u8], &[u8])>
    ensures word { IsFirstWord text.now result }
    ensures rest { IfSome result (λ found. found.1.now ≡ behind_first_word text.now) }
    ensures shorter { IfSome result (λ found. length found.1.now < length text.now) }
{
    let filled = behind_blanks(text);
    if filled.is_empty() {
        return None;
    }
    Some(filled.split_at(first_length(filled)))
}
