// Whether a list of texts has a text, byte for byte or ASCII case aside.
ghost use Rattle.std.specs.Prelude.{◌≡◌, bytes_eq};
ghost use Rattle.std.specs.List.{list_any};
ghost use Rattle.std.specs.Str.{str_eq_ignore_ascii_case};

use crate::bytes::Bytes;

/// Whether the list has this text, byte for byte. It takes no memory.
pub fn has_text(texts: &[Bytes], text: &[u8]) -> bool
    ensures { result ≡ list_any (λ item. bytes_eq item text.now) texts.now }
{
    texts.iter().any(|item| item.as_slice() == text)
}

/// Whether the list has this text, ASCII case aside. It takes no memory.
pub fn has_text_fold(texts: &[Bytes], text: &[u8]) -> bool
    ensures { result ≡ list_any (λ item. str_eq_ignore_ascii_case item text.now) texts.now }
{
    texts
        .iter()
        .any(|item| item.as_slice().eq_ignore_ascii_case(text))
}
