// Where the violations of a policy are reported.
ghost use Rattle.std.specs.Prelude.{◌≡◌, IfOk};
ghost use Rattle.report_delivery.specs.Reports as spec;
ghost use Rattle.value_text.specs.Words.{words};

use policy_csp_text::{Directive, Policies};
use std::alloc::Global;
use url::Url;
use value_bytes::OutOfMemory;
use value_origins::is_http_url;
use value_requests::{has_credentials, is_short_url, url_against};

/// The directive whose words say where.
const REPORT_URI: &[u8] = b"report-uri";

// A text with the words of the directive of a name; none where there is no such directive.
fn words_named<'a>(directives: &'a [Directive], name: &[u8]) -> &'a [u8]
    ensures { words result.now ≡ spec.words_named name.now directives.now }
{
    for directive in directives {
        if directive.name.as_slice() == name {
            return directive.words.as_text();
        }
    }
    &[]
}

// A text with the words of `report-uri` in the policy of this number.
pub(crate) fn report_words(policies: &Policies, number: u32) -> &[u8]
    ensures { words result.now ≡ spec.report_words_of policies.now number }
{
    match policies.as_slice().get(number as usize) {
        Some(policy) => words_named(policy.directives.as_slice(), REPORT_URI),
        None => &[],
    }
}

// Whether it is an http or https URL without credentials, of at most 8,192 bytes.
fn is_endpoint(url: &Url) -> bool
    ensures { result ≡ spec.is_endpoint url.now }
{
    is_http_url(url) && !has_credentials(url) && is_short_url(url)
}

// Where a word sends reports: the URL that it gives against the document's, where a report may go there.
pub(crate) fn endpoint_of(
    alloc: Global,
    base: &Url,
    word: &[u8],
) -> Result<Option<Url>, OutOfMemory>
    ensures { IfOk result (λ url. url ≡ spec.endpoint_of base.now word.now) }
{
    match url_against(alloc, base, word)? {
        Some(url) if is_endpoint(&url) => Ok(Some(url)),
        Some(_) | None => Ok(None),
    }
}
