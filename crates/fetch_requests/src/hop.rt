// A request as it is sent to its current URL (Fetch, section 4.6; RFC 9112, section 3.2).
ghost use Rattle.std.specs.Prelude.{◌≡◌, IfOk, IsTrue};
ghost use Rattle.fetch_requests.specs.Heads as spec;
ghost use Rattle.value_text.specs.Ascii.{lacks_space};
ghost use Rattle.value_requests.specs.Requests.{IsAtHttp, IsRequest, is_determined};

use crate::head::head_lines;
use std::alloc::Global;
use value_bytes::{Bytes, OutOfMemory, copy_of};
use value_requests::{Cookies, Hop, Request, origin_text, target_of};

/// The request as it is sent to its current URL (Fetch, section 4.6; RFC 9112, section 3.2): the
/// target of its request line, and its header list: Host, then the request's own headers, then those of
/// `added_lines` (`specs/Heads.antt`) that have a value. The credentials and the fragment of a URL are not
/// sent. The target has no space.
pub fn hop_of(alloc: Global, request: &Request, cookies: &Cookies) -> Result<Hop, OutOfMemory>
    requires request { IsRequest request.now }
    requires at_http { IsAtHttp request.now }
    requires determined { IsTrue (is_determined request.now.referrer) }
    ensures hop { IfOk result (λ hop. hop ≡ spec.hop_of cookies.now request.now) }
    ensures target { IfOk result (λ hop. IsTrue (lacks_space hop.url)) }
{
    let url = request.current_url();
    let origin = origin_text(alloc, url)?;
    Ok(Hop {
        preflight: false,
        url: Bytes::of(alloc, target_of(url).as_bytes())?,
        method: request.method.copy(alloc)?,
        headers: head_lines(alloc, cookies.as_slice(), request, url, origin.as_slice())?,
        body: copy_of(alloc, &request.body)?,
        origin,
    })
}
