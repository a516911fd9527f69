// A URL as a referrer: whole, or its origin alone (Referrer Policy, section 8.4 "strip url for use as a referrer").
ghost use Rattle.std.specs.Prelude.{◌≡◌, IfOk, IsTrue, codes, None, Ok, Some};
ghost use Rattle.url.specs.Parser.{Gives, GivesBy};
ghost use Rattle.url.specs.Parts.{Parts};
ghost use Rattle.policy_checks.specs.Referrer as spec;
ghost use Rattle.value_requests.specs.Requests.{is_http_url};
ghost use Rattle.value_requests.specs.Urls.{IsWeb};

use url::{ParseResult, Url};
use value_bytes::OutOfMemory;
use value_requests::strip;

// The longest text of a referrer, in bytes.
const LONGEST: usize = 4096;

// Takes the query away, and leaves `/` of the path.
fn drop_path_and_query(url: &mut Url) -> ParseResult<()>
    requires web { IsWeb url.old }
    requires fragment { url.old.fragment ≡ None }
    ensures { GivesBy (λ _. url.new) result (Ok (record url.old { path = codes "/"; query = None })) }
{
    url.set_query(None)?;
    url.set_path("/")
}

// The URL with the path `/` and without query; that it comes to 4 GB is want of memory too.
fn cut_to_origin(url: Url) -> Result<Url, OutOfMemory>
    requires web { IsWeb url }
    requires fragment { url.fragment ≡ None }
    ensures { IfOk result (λ cut. cut ≡ record url { path = codes "/"; query = None }) }
{
    let mut url = url;
    match drop_path_and_query(&mut url) {
        Ok(()) => Ok(url),
        Err(_) => Err(OutOfMemory),
    }
}

// The referrer that tells the URL's origin alone.
pub(crate) fn origin_only(url: &Url) -> Result<Option<Url>, OutOfMemory>
    requires { IsTrue (is_http_url url.now) }
    ensures { IfOk result (λ referrer. referrer ≡ Some (spec.origin_only url.now)) }
{
    Ok(Some(cut_to_origin(strip(url)?)?))
}

// The referrer that tells the URL, or its origin where the text is too long.
pub(crate) fn whole(url: &Url) -> Result<Option<Url>, OutOfMemory>
    requires { IsTrue (is_http_url url.now) }
    ensures { IfOk result (λ referrer. referrer ≡ Some (spec.whole url.now)) }
{
    let referrer = strip(url)?;
    if referrer.as_str().len() <= LONGEST {
        return Ok(Some(referrer));
    }
    Ok(Some(cut_to_origin(referrer)?))
}
