// The URLs that documents, and the pages at their top, may have.
ghost use Rattle.std.specs.Prelude.{◌≡◌};
ghost use Rattle.script_scenarios.specs.Urls.{is_document_url};
ghost use Rattle.script_reading.specs.Urls as spec;

use std::alloc::Global;
use url::Url;
use value_json::{Form, Refused, Tree, refused_here};
use value_origins::is_http_url;
use value_requests::{has_credentials, is_short_url, url_alone};

// Whether it is an http or https URL without credentials, of at most 8,192 bytes.
fn is_document_url(url: &Url) -> bool
    ensures { result ≡ is_document_url url.now }
{
    is_http_url(url) && !has_credentials(url) && is_short_url(url)
}

/// The URL of a document, or of the page at its top.
#[derive(Drop)]
pub(crate) struct DocumentUrl;

impl Form for DocumentUrl {
    type Out = Url;

    ghost reads = { λ _. spec.document_url_of };

    fn read(&self, alloc: Global, tree: &Tree<'_, '_>) -> Result<Url, Refused> {
        let Some(text) = tree.as_str() else {
            return refused_here(alloc);
        };
        match url_alone(alloc, text)? {
            Some(url) if is_document_url(&url) => Ok(url),
            _ => refused_here(alloc),
        }
    }
}
