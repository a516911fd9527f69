// The first of a byte in a text: where it is, and what is before and after it.
ghost use Rattle.std.specs.Prelude.{◌≡◌, ◌==◌};
ghost use Rattle.std.specs.List.{after_first, before_first, position};

/// Where the first such byte is, if there is one. It takes no memory.
pub fn position_of(text: &[u8], byte: u8) -> Option<usize>
    ensures { result ≡ position (λ b. b == byte) text.now }
{
    text.iter().position(|b| *b == byte)
}

/// What is before the first such byte, or all of the text where there is none. It takes no
/// memory.
pub fn before_byte(text: &[u8], byte: u8) -> &[u8]
    ensures { result.now ≡ before_first (λ b. b == byte) text.now }
{
    match position_of(text, byte) {
        Some(index) => text.split_at(index).0,
        None => text,
    }
}

/// What is after the first such byte, or nothing where there is none. It takes no memory.
pub fn after_byte(text: &[u8], byte: u8) -> &[u8]
    ensures { result.now ≡ after_first (λ b. b == byte) text.now }
{
    match position_of(text, byte) {
        Some(index) => text.split_at(index + 1).1,
        None => &[],
    }
}
