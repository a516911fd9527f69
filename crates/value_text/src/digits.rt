// Numbers that decimal digits write, however many there are.
ghost use Rattle.std.specs.Prelude.{◌≡◌, IsTrue};
ghost use Rattle.value_text.specs.Digits.{capped_digits, digits_at_most, is_digits};
ghost use Rattle.value_text.specs.Private.Zeros.{without_zeros};

/// The number that one decimal digit or more write, or the cap where that is less. `None` exactly
/// where the text is not one digit or more.
pub fn parse_digits(text: &[u8], cap: u64) -> Option<u64>
    ensures { result ≡ capped_digits text.now cap }
{
    if text.is_empty() {
        return None;
    }
    let mut value = 0u64;
    for byte in text {
        if !byte.is_ascii_digit() {
            return None;
        }
        let digit = u64::from(*byte - b'0');
        value = value.saturating_mul(10).saturating_add(digit).min(cap);
    }
    Some(value)
}

/// Whether the text is one decimal digit or more. It takes no memory.
pub fn is_digits(text: &[u8]) -> bool
    ensures { result ≡ is_digits text.now }
{
    parse_digits(text, 0).is_some()
}

// The digits from the first that is no zero on.
fn without_zeros(digits: &[u8]) -> &[u8]
    ensures { result.now ≡ without_zeros digits.now }
{
    let mut rest = digits;
    while let [b'0', after @ ..] = rest {
        rest = after;
    }
    rest
}

/// Whether the number that the digits write is at most that of the others, however many digits there
/// are. It takes no memory.
pub fn digits_at_most(digits: &[u8], most: &[u8]) -> bool
    requires digits { IsTrue (is_digits digits.now) }
    requires most { IsTrue (is_digits most.now) }
    ensures { result ≡ digits_at_most digits.now most.now }
{
    let digits = without_zeros(digits);
    let most = without_zeros(most);
    digits.len() < most.len() || (digits.len() == most.len() && digits.cmp(most).is_le())
}
