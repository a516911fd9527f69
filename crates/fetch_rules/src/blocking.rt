// What main fetch refuses before anything is sent (Fetch, section 4.1 "main fetch", step 7, and "scheme fetch").
ghost use Rattle.std.specs.Prelude.{◌≡◌};
ghost use Rattle.fetch_rules.specs.Blocking as spec;
ghost use Rattle.value_requests.specs.Requests.{IsRequest, current_url, is_http_url};

use policy_checks::{bad_port, blocked};
use value_origins::is_http_url;
use value_requests::{Client, NetError, Request};

/// Whether the current URL of a request is http or https. Main fetch refuses another with the network error
/// `Scheme` (Fetch, "scheme fetch"). It takes no memory.
pub fn is_at_http(request: &Request) -> bool
    requires { IsRequest request.now }
    ensures { result ≡ is_http_url (current_url request.now) }
{
    is_http_url(request.current_url())
}

/// The network error with which main fetch refuses a request of this client before anything is sent, if one
/// does: `BadPort` where the port of its current URL is a bad port, and else `Mixed` where it is blocked as
/// mixed content (Fetch, section 4.1, "main fetch", step 7). It takes no memory.
pub fn refusal_before(request: &Request, client: &Client) -> Option<NetError>
    requires { IsRequest request.now }
    ensures { result ≡ spec.refusal_before client.now request.now }
{
    if bad_port(request.current_url().port()) {
        Some(NetError::BadPort)
    } else if blocked(request, &client.origin, &client.top) {
        Some(NetError::Mixed)
    } else {
        None
    }
}
