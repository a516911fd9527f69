// Reads a number in decimal, without a sign and without a leading zero.
ghost use Rattle.std.specs.Prelude.{◌≡◌, ◌≤◌, IfSome};
ghost use Rattle.value_decimal.specs.Decimals as spec;

use value_text::{digits_at_most, is_digits, parse_digits};

// Whether the word is a decimal number of 64 bits, without a leading zero.
fn is_number(word: &[u8]) -> bool
    ensures { result ≡ spec.is_number word.now }
{
    is_digits(word)
        && (word.len() == 1 || word.first() != Some(&b'0'))
        && digits_at_most(word, b"18446744073709551615")
}

/// The number whose decimal the word is: digits, without a leading zero or a sign. `None` exactly where it is that of
/// no number up to `most`. It takes no memory.
pub fn number_up_to(most: u64, word: &[u8]) -> Option<u64>
    ensures value { result ≡ spec.number_up_to most word.now }
    ensures few { IfSome result (λ number. number ≤ most) }
{
    if !is_number(word) {
        return None;
    }
    let number = parse_digits(word, u64::MAX)?;
    if number <= most { Some(number) } else { None }
}
