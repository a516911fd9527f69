// Trims HTTP whitespace, or tabs and spaces, at the ends of a text (Fetch, section 2.2).
ghost use Rattle.std.specs.Prelude.{◌≡◌};
ghost use Rattle.value_text.specs.Trims.{http_whitespace, tab_or_space, trimmed, trimmed_end, trimmed_start};

// The HTTP tab or space bytes.
const TAB_OR_SPACE: &[u8] = b"\t ";

// The HTTP whitespace bytes.
const HTTP_WHITESPACE: &[u8] = b"\t\n\r ";

/// The text without HTTP whitespace at its ends: tab, LF, CR and space. This normalizes a header
/// value (Fetch, section 2.2.2, "normalize").
pub fn trim_http(text: &[u8]) -> &[u8]
    ensures { result.now ≡ trimmed http_whitespace text.now }
{
    trim(text, HTTP_WHITESPACE)
}

// The text without HTTP whitespace at its end.
pub(crate) fn trim_http_end(text: &[u8]) -> &[u8]
    ensures { result.now ≡ trimmed_end http_whitespace text.now }
{
    trim_end(text, HTTP_WHITESPACE)
}

/// The text without tabs and spaces at its ends, as an item between commas is trimmed (Fetch,
/// section 2.2.2, "get, decode, and split").
pub fn trim_tab_or_space(text: &[u8]) -> &[u8]
    ensures { result.now ≡ trimmed tab_or_space text.now }
{
    trim(text, TAB_OR_SPACE)
}

// The text without the blanks at both ends.
fn trim<'a>(text: &'a [u8], blanks: &[u8]) -> &'a [u8]
    ensures { result.now ≡ trimmed blanks.now text.now }
{
    trim_end(trim_start(text, blanks), blanks)
}

// The text without the blanks at its start.
fn trim_start<'a>(text: &'a [u8], blanks: &[u8]) -> &'a [u8]
    ensures { result.now ≡ trimmed_start blanks.now text.now }
{
    let mut rest = text;
    while let [first, after @ ..] = rest {
        if !blanks.contains(first) {
            break;
        }
        rest = after;
    }
    rest
}

// The text without the blanks at its end.
fn trim_end<'a>(text: &'a [u8], blanks: &[u8]) -> &'a [u8]
    ensures { result.now ≡ trimmed_end blanks.now text.now }
{
    let mut rest = text;
    while let [before @ .., last] = rest {
        if !blanks.contains(last) {
            break;
        }
        rest = before;
    }
    rest
}
