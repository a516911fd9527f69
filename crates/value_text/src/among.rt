// Whether a text is one of a list, byte for byte or ASCII case aside.
ghost use Rattle.std.specs.Prelude.{◌≡◌, bytes_eq};
ghost use Rattle.std.specs.List.{list_any};
ghost use Rattle.std.specs.Str.{str_eq_ignore_ascii_case};

use crate::fold::eq_fold;

/// Whether the text is one of these, byte for byte. It takes no memory.
pub fn is_among(listed: &[&[u8]], text: &[u8]) -> bool
    ensures { result ≡ list_any (λ item. bytes_eq item.now text.now) listed.now }
{
    listed.iter().any(|item| *item == text)
}

/// Whether the text is one of these, ASCII case aside. It takes no memory.
pub fn is_among_fold(listed: &[&[u8]], text: &[u8]) -> bool
    ensures { result ≡ list_any (λ item. str_eq_ignore_ascii_case item.now text.now) listed.now }
{
    listed.iter().any(|item| eq_fold(item, text))
}
