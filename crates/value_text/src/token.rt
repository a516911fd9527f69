// Tokens: what a method and a field name are made of (RFC 9110, section 5.6.2).
ghost use Rattle.std.specs.Prelude.{◌≡◌};
ghost use Rattle.std.specs.List.{list_all};
ghost use Rattle.value_text.specs.Tokens.{is_tchar, is_token};

// The tchars that are neither letters nor digits.
const MARKS: &[u8] = b"!#$%&'*+-.^_`|~";

// Whether the byte is a tchar.
fn is_token_byte(byte: u8) -> bool
    ensures { result ≡ is_tchar byte }
{
    byte.is_ascii_alphanumeric() || MARKS.contains(&byte)
}

// Whether each byte is a tchar.
fn are_token_bytes(text: &[u8]) -> bool
    ensures { result ≡ list_all is_tchar text.now }
{
    text.iter().all(|byte| is_token_byte(*byte))
}

/// Whether the text is a token: one tchar or more (RFC 9110, section 5.6.2). It takes no
/// memory.
pub fn is_token(text: &[u8]) -> bool
    ensures { result ≡ is_token text.now }
{
    !text.is_empty() && are_token_bytes(text)
}
