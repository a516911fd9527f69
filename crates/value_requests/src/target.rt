// Where a request is sent: the request target and Host (RFC 9112, section 3.2), and the origin.
ghost use Rattle.std.specs.Prelude.{◌≡◌, IfOk, IsTrue};
ghost use Rattle.url.specs.Parts.{IsValid};
ghost use Rattle.value_origins.specs.Origins as origins;
ghost use Rattle.value_text.specs.Ascii.{lacks_space};
ghost use Rattle.value_requests.specs.Requests.{is_http_url};
ghost use Rattle.value_requests.specs.Targets as spec;

use std::alloc::Global;
use url::{Position, Url};
use value_bytes::{Bytes, OutOfMemory};
use value_origins::{is_http_url, serialize_origin_of};

// The path, and the query where there is one; every URL is valid.
fn path_and_query(url: &Url) -> &str
    ensures value { result.now ≡ spec.target_of url.now }
    ensures valid { IsValid url.now }
{
    url.slice(Position::BeforePath, Position::AfterQuery)
}

/// The request target in origin form: the path, and the query where there is one (RFC 9112, section
/// 3.2.1). That of an http or https URL has no space. It takes no memory.
pub fn target_of(url: &Url) -> &str
    ensures value { result.now ≡ spec.target_of url.now }
    ensures no_space { IsTrue (is_http_url url.now) → IsTrue (lacks_space result.now) }
{
    path_and_query(url)
}

/// The value of Host: the host, and the port where the URL has one (RFC 9112, section 3.2). It takes
/// no memory.
pub fn host_value(url: &Url) -> &str
    ensures { result.now ≡ spec.host_value url.now }
{
    url.slice(Position::BeforeHost, Position::AfterPort)
}

/// The serialised origin of a URL, or `null` where it has none (HTML, section 7.1.1).
pub fn origin_text(alloc: Global, url: &Url) -> Result<Bytes, OutOfMemory>
    ensures { IfOk result (λ text. text ≡ spec.origin_text (origins.origin_of url.now)) }
{
    if is_http_url(url) {
        serialize_origin_of(alloc, url)
    } else {
        Bytes::of(alloc, b"null")
    }
}
