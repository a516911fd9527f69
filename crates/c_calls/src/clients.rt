// Clients: the documents that fetch.
ghost use Rattle.std.specs.Prelude.{◌≡◌, ◌≢◌};
ghost use Rattle.c_calls.specs.Clients.{add_cookie, add_policies, IsClient};
ghost use Rattle.c_calls.specs.Calls.{done};

use crate::policies::policy_numbered;
use c_fetch::Settings;
use c_handle::{Handle, NO_SUCH_NUMBER, OK, OUT_OF_MEMORY, Thing, WRONG_HANDLE, code_of};
use std::alloc::Global;

/// Makes the client of a document in a handle (HTML, section 8.1.3.2, "environment settings object"): its URL, the URL
/// of the page at the top, which is its own where it is not embedded, and its referrer policy, one of the numbers
/// `REFERRER_..`. It has no content security policies and no cookies. What the handle held is freed.
///
/// `OK`; `NO_SUCH_NUMBER`; `NOT_A_URL` and `NOT_HTTP`, of either URL; `OUT_OF_MEMORY`. Except for `OK` the handle holds
/// what it held.
#[unsafe(no_mangle)]
pub extern "C" fn fiorrudda_client(
    alloc: Global,
    client: &mut Handle,
    url: &[u8],
    top: &[u8],
    policy: u32,
) -> u32
    ensures told { result ≢ OUT_OF_MEMORY → IsClient url.now top.now policy result client.old.held
        client.new.held }
    ensures out_of_memory { result ≡ OUT_OF_MEMORY → client.new.held ≡ client.old.held }
{
    let Some(policy) = policy_numbered(policy) else {
        return NO_SUCH_NUMBER;
    };
    match Settings::new(alloc, url, top, policy) {
        Ok(settings) => client.fill(alloc, Thing::Client(settings)),
        Err(refusal) => code_of(refusal),
    }
}

/// Gives a client the policies of the value of a Content-Security-Policy header, or of a
/// Content-Security-Policy-Report-Only one where `enforced` is false (CSP 3, section 2.2). They are numbered from 0 on,
/// in the order in which they are given.
///
/// `OK`; `WRONG_HANDLE`; `OUT_OF_MEMORY`.
#[unsafe(no_mangle)]
pub extern "C" fn fiorrudda_client_policy(
    alloc: Global,
    client: &mut Handle,
    value: &[u8],
    enforced: bool,
) -> u32
    ensures told { result ≢ OUT_OF_MEMORY
        → done result client.new.held ≡ add_policies value.now enforced client.old.held }
    ensures out_of_memory { result ≡ OUT_OF_MEMORY → client.new.held ≡ client.old.held }
{
    let Some(settings) = client.client() else {
        return WRONG_HANDLE;
    };
    match settings.add_policies(alloc, value, enforced) {
        Ok(()) => OK,
        Err(_) => OUT_OF_MEMORY,
    }
}

/// Gives a client the value of the Cookie header for requests to the origin of a URL. The first of an origin counts.
/// Which cookies a request has is for the caller to say: it is sent with each request that includes credentials (Fetch,
/// section 4.6).
///
/// `OK`; `WRONG_HANDLE`; `NOT_A_URL`; `NOT_HTTP`; `NOT_A_HEADER`; `OUT_OF_MEMORY`. The client is as it was but for
/// `OK`.
#[unsafe(no_mangle)]
pub extern "C" fn fiorrudda_client_cookie(
    alloc: Global,
    client: &mut Handle,
    url: &[u8],
    value: &[u8],
) -> u32
    ensures told { result ≢ OUT_OF_MEMORY → done result client.new.held ≡ add_cookie url.now value.now client.old.held }
    ensures out_of_memory { result ≡ OUT_OF_MEMORY → client.new.held ≡ client.old.held }
{
    let Some(settings) = client.client() else {
        return WRONG_HANDLE;
    };
    match settings.add_cookie(alloc, url, value) {
        Ok(()) => OK,
        Err(refusal) => code_of(refusal),
    }
}
