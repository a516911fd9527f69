// Header values (Fetch, section 2.2.2).
ghost use Rattle.std.specs.Prelude.{◌≡◌, not};
ghost use Rattle.std.specs.List.{list_all};
ghost use Rattle.value_text.specs.Values.{is_header_value, is_nul_or_newline};

use crate::trim::trim_tab_or_space;

// Whether the text has neither NUL nor CR nor LF.
fn lacks_nul_and_newline(text: &[u8]) -> bool
    ensures { result ≡ list_all (λ byte. not (is_nul_or_newline byte)) text.now }
{
    text.iter()
        .all(|byte| !(*byte == 0 || *byte == b'\n' || *byte == b'\r'))
}

/// Whether the text is a header value: it neither begins nor ends with a tab or a space, and has no
/// NUL, CR or LF (Fetch, section 2.2.2).
pub fn is_value(text: &[u8]) -> bool
    ensures { result ≡ is_header_value text.now }
{
    trim_tab_or_space(text) == text && lacks_nul_and_newline(text)
}
