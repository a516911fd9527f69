// URLs read from texts (URL Standard, section 4.4), and how long one may be.
ghost use Rattle.std.specs.Prelude.{◌≡◌, Some, None, IfOk, option_map};
ghost use Rattle.std.specs.Result.{result_ok};
ghost use Rattle.url.specs.Parts.{Parts, has_credentials};
ghost use Rattle.url.specs.Parser.{Parsed, Gives};
ghost use Rattle.value_requests.specs.Urls as spec;

use std::alloc::Global;
use url::{ParseError, Url};
use value_bytes::OutOfMemory;

/// How many bytes the text of a URL may have.
const MOST_URL: usize = 8_192;

/// The text that bytes are, or nothing where they are not UTF-8. It takes no memory.
pub fn utf8_text(bytes: &[u8]) -> Option<&str>
    ensures { option_map (λ text. text.now) result ≡ spec.utf8_text bytes.now }
{
    match str::from_utf8(bytes) {
        Ok(text) => Some(text),
        Err(_) => None,
    }
}

// What the parser answered, without its reason. A URL of 4 GB or more is want of memory.
fn parsed(answer: Result<Url, ParseError>) -> Result<Option<Url>, OutOfMemory>
    ensures { (expected : Parsed Parts) → Gives answer expected → IfOk result (λ url. url ≡ result_ok expected) }
{
    match answer {
        Ok(url) => Ok(Some(url)),
        Err(ParseError::OutOfMemory | ParseError::Overflow) => Err(OutOfMemory),
        Err(_) => Ok(None),
    }
}

/// The URL that a text gives against a base URL (URL Standard, section 4.4), or nothing where the
/// text is not UTF-8 or is no URL.
pub fn url_against(alloc: Global, base: &Url, text: &[u8]) -> Result<Option<Url>, OutOfMemory>
    ensures { IfOk result (λ url. url ≡ spec.url_against base.now text.now) }
{
    match utf8_text(text) {
        None => Ok(None),
        Some(text) => parsed(base.join(text)),
    }
}

/// The URL that a text gives by itself (URL Standard, section 4.4), or nothing where it is none.
pub fn url_alone(alloc: Global, text: &str) -> Result<Option<Url>, OutOfMemory>
    ensures { IfOk result (λ url. url ≡ spec.url_of_text None (Some text.now)) }
{
    parsed(Url::parse(alloc, text))
}

/// Whether the text of the URL has at most 8,192 bytes, as that of each URL that is fetched (this
/// project's own choice). It takes no memory.
pub fn is_short_url(url: &Url) -> bool
    ensures { result ≡ spec.is_short_url url.now }
{
    url.as_str().len() <= MOST_URL
}

/// The URL, unless its text has more than 8,192 bytes. It takes no memory.
pub fn unless_long(url: Option<Url>) -> Option<Url>
    ensures { result ≡ spec.unless_long url }
{
    match url {
        Some(url) if is_short_url(&url) => Some(url),
        Some(_) | None => None,
    }
}

/// Whether the URL has a user name or a password (URL Standard, section 4.2, "includes credentials").
/// It takes no memory.
pub fn has_credentials(url: &Url) -> bool
    ensures { result ≡ has_credentials url.now }
{
    !url.username().is_empty() || url.password().is_some()
}
