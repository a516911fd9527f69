// The words of a printed history's lines: visible ASCII, and what stands for credentials and subdomains.
ghost use Rattle.std.specs.Prelude.{◌≡◌};
ghost use Rattle.std.specs.List.{list_all};
ghost use Rattle.play_text.specs.Words as spec;
ghost use Rattle.audit_text.specs.Private.Reading as reading;

// Whether each byte is printable ASCII other than a space.
fn are_visible(text: &[u8]) -> bool
    ensures { result ≡ list_all spec.is_visible text.now }
{
    text.iter().all(|byte| b' ' < *byte && *byte < 127)
}

// Whether the text is one such byte or more.
pub(crate) fn is_word(text: &[u8]) -> bool
    ensures { result ≡ spec.is_word text.now }
{
    !text.is_empty() && are_visible(text)
}

// Whether the credentials mode is include.
pub(crate) fn credentials_in(word: &[u8]) -> Option<bool>
    ensures { result ≡ reading.credentials_in word.now }
{
    if word == b"include".as_slice() {
        Some(true)
    } else if word == b"other".as_slice() {
        Some(false)
    } else {
        None
    }
}

// Whether the names under a host are meant too.
pub(crate) fn subdomains_in(word: &[u8]) -> Option<bool>
    ensures { result ≡ reading.subdomains_in word.now }
{
    if word == b"sub".as_slice() {
        Some(true)
    } else if word == b"exact".as_slice() {
        Some(false)
    } else {
        None
    }
}
