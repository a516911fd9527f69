// Mixed content: which requests are upgraded to https, and which are blocked (Mixed Content, section 4).
ghost use Rattle.std.specs.Prelude.{◌≡◌};
ghost use Rattle.url.specs.Parts.{nonempty_host};
ghost use Rattle.policy_checks.specs.Mixed as spec;
ghost use Rattle.value_requests.specs.Requests.{IsRequest};

use url::{Host, Url};
use value_origins::{Origin, is_trustworthy, is_trustworthy_url};
use value_requests::{Destination, Request};

// Whether the document's origin or that of the page at the top is potentially trustworthy.
fn prohibits_mixed(document: &Origin, top: &Origin) -> bool
    ensures { result ≡ spec.prohibits_mixed document.now top.now }
{
    is_trustworthy(document) || is_trustworthy(top)
}

// Whether the destination is that of upgradeable content.
fn is_upgradeable(destination: Destination) -> bool
    ensures { result ≡ spec.is_upgradeable destination }
{
    match destination {
        Destination::Image | Destination::Audio | Destination::Video => true,
        _ => false,
    }
}

// Whether the host of a URL is an IP address.
fn has_ip_address(url: &Url) -> bool
    ensures { result ≡ spec.is_ip_address (nonempty_host url.now) }
{
    match url.host() {
        Some(Host::Ipv4(_)) | Some(Host::Ipv6(_)) => true,
        _ => false,
    }
}

/// Whether a request is upgraded: its destination is image, audio or video, the origin of its
/// document or that of the page at the top is potentially trustworthy, and its current URL is not
/// potentially trustworthy and has no IP address as its host (Mixed Content, "upgrade a mixed content
/// request to a potentially trustworthy URL, if appropriate"). The scheme of its current URL is then to
/// be https. A URL that is neither http nor https is not potentially trustworthy, so the answer for it
/// may be true; main fetch refuses such a URL before it asks. It takes no memory.
pub fn upgrade(request: &Request, document: &Origin, top: &Origin) -> bool
    requires { IsRequest request.now }
    ensures { result ≡ spec.is_upgraded request.now document.now top.now }
{
    let url = request.current_url();
    is_upgradeable(request.destination)
        && prohibits_mixed(document, top)
        && !is_trustworthy_url(url)
        && !has_ip_address(url)
}

/// Whether a request is blocked as mixed content: the origin of its document or that of the page at
/// the top is potentially trustworthy, and its current URL is not (Mixed Content, "should fetching
/// request be blocked as mixed content?"). A URL that is neither http nor https is not potentially
/// trustworthy, so it is blocked like an http one; main fetch refuses it before it asks. It takes no
/// memory.
pub fn blocked(request: &Request, document: &Origin, top: &Origin) -> bool
    requires { IsRequest request.now }
    ensures { result ≡ spec.is_blocked request.now document.now top.now }
{
    prohibits_mixed(document, top) && !is_trustworthy_url(request.current_url())
}
