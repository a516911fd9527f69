// The words that fetchplay accepts, and what they ask for.
ghost use Rattle.std.specs.Prelude.{◌≡◌, ◌≤◌, IfSome};
ghost use Rattle.program_fetchplay.specs.Words as spec;
ghost use Rattle.program_shell.specs.Words.{texts};
ghost use Rattle.program_fetchplay.specs.Words.{IsBounded};

use value_text::parse_digits;

/// What the words ask for.
#[derive(Clone, Copy, Debug)]
pub(crate) enum Subcommand {
    /// The scenario of the input is played over its own servers.
    Play,
    /// The scenario of the input is played over the links that are made for its documents.
    Net,
    /// The generated scenario of so many documents is played, from 1 to 64.
    Gen(u32),
}

// A decimal number from 1 to 64, without a sign and without a leading zero.
fn count_of(word: &[u8]) -> Option<u32>
    ensures value { result ≡ spec.count_of word.now }
    ensures bounds { IfSome result (λ count. (1 ≤ count) × (count ≤ 64)) }
{
    let count = parse_digits(word, 65)?;
    if word.first() != Some(&b'0') && 1 <= count && count <= 64 {
        Some(count as u32)
    } else {
        None
    }
}

// What the words ask for, where they are accepted.
pub(crate) fn subcommand_of(words: &[String]) -> Option<Subcommand>
    ensures value { result ≡ spec.subcommand_of (texts words.now) }
    ensures bounds { IfSome result IsBounded }
{
    match words {
        [word] if word.as_str() == "play" => Some(Subcommand::Play),
        [word] if word.as_str() == "net" => Some(Subcommand::Net),
        [word, count] if word.as_str() == "gen" => {
            let count = count_of(count.as_bytes())?;
            Some(Subcommand::Gen(count))
        }
        _ => None,
    }
}
