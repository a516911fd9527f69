// URLs as they are told to others: without user name, password and fragment.
ghost use Rattle.std.specs.Prelude.{◌≡◌, IfOk, OnOk, IsTrue, [], None, Ok};
ghost use Rattle.url.specs.Parser.{Gives, GivesBy};
ghost use Rattle.url.specs.Parts.{IsValid};
ghost use Rattle.value_requests.specs.Requests.{is_http_url};
ghost use Rattle.value_requests.specs.Urls as spec;

use url::{ParseResult, Position, Url};
use value_bytes::OutOfMemory;

/// The text of a URL without its fragment. It takes no memory.
pub fn without_fragment(url: &Url) -> &str
    ensures { result.now ≡ spec.without_fragment url.now }
{
    url.slice(Position::BeforeScheme, Position::AfterQuery)
}

// Takes the fragment away.
fn drop_fragment(url: &mut Url) -> ParseResult<()>
    ensures valid { IsValid url.old }
    ensures value { GivesBy (λ _. url.new) result (Ok (record url.old { fragment = None })) }
{
    if url.fragment().is_none() {
        return Ok(());
    }
    url.set_fragment(None)
}

// Takes the user name and the password away.
fn drop_credentials(url: &mut Url) -> ParseResult<()>
    requires { spec.IsWeb url.old }
    ensures { GivesBy (λ _. url.new) result (Ok (record url.old { username = []; password = [] })) }
{
    if url.username().is_empty() && url.password().is_none() {
        return Ok(());
    }
    url.set_username("")?;
    url.set_password(None)
}

// The URL without user name, password and fragment, or why it could not be made.
fn strip_copy(url: &Url) -> ParseResult<Url>
    requires { IsTrue (is_http_url url.now) }
    ensures web { OnOk result (spec.IsWeb url.now) }
    ensures value { Gives result (Ok (spec.stripped url.now)) }
{
    let mut copy = url.clone()?;
    drop_fragment(&mut copy)?;
    drop_credentials(&mut copy)?;
    Ok(copy)
}

/// A copy of an http or https URL without user name, password and fragment, as a URL is told to others
/// (Referrer Policy, "strip url for use as a referrer"; CSP 3, "strip URL for use in reports"). It has a
/// host. The only error is want of memory, which a URL of 4 GB counts as.
pub fn strip(url: &Url) -> Result<Url, OutOfMemory>
    requires { IsTrue (is_http_url url.now) }
    ensures value { IfOk result (λ copy. copy ≡ spec.stripped url.now) }
    ensures web { OnOk result (spec.IsWeb url.now) }
{
    match strip_copy(url) {
        Ok(copy) => Ok(copy),
        Err(_) => Err(OutOfMemory),
    }
}
