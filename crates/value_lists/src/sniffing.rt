// Whether headers say nosniff (Fetch, "determine nosniff").
ghost use Rattle.std.specs.Prelude.{◌≡◌, ◌==◌, codes};
ghost use Rattle.std.specs.List.{before_first};
ghost use Rattle.std.specs.Str.{str_eq_ignore_ascii_case};
ghost use Rattle.value_text.specs.Ascii.{comma};
ghost use Rattle.value_text.specs.Trims.{tab_or_space, trimmed};
ghost use Rattle.value_lists.specs.Nosniff as spec;

use value_headers::HeaderList;
use value_text::{before_byte, eq_fold, trim_tab_or_space};

// Whether what is before the first comma is `nosniff`, ASCII case aside. Where a quoted string begins
// before that comma the value is another than `nosniff`, so no quoted string is followed past the comma.
fn begins_with_nosniff(value: &[u8]) -> bool
    ensures { result ≡ str_eq_ignore_ascii_case
        (trimmed tab_or_space (before_first (λ byte. byte == comma) value.now)) (codes "nosniff") }
{
    eq_fold(trim_tab_or_space(before_byte(value, b',')), b"nosniff")
}

/// Whether the first value of X-Content-Type-Options, after it was got, decoded
/// and split, is `nosniff`, ASCII case aside (Fetch, "determine nosniff"). It takes no memory.
pub fn nosniff(headers: &HeaderList) -> bool
    ensures { result ≡ spec.nosniff headers.now }
{
    for index in 0..headers.len() {
        if eq_fold(headers.name_at(index), b"X-Content-Type-Options") {
            return begins_with_nosniff(headers.value_at(index));
        }
    }
    false
}
