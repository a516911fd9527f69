// The client of a document (HTML, section 8.1.3.2), and the table of cookies.
ghost use Rattle.std.specs.Prelude.{◌≡◌, IfOk};
ghost use Rattle.value_requests.specs.Clients as spec;

use crate::mode::ReferrerPolicy;
use std::alloc::Global;
use url::Url;
use value_bytes::{Bytes, Items, OutOfMemory};
use value_origins::{Origin, serialize, tuple_origin};

/// The environment settings of a document that fetches (HTML, section 8.1.3.2): its URL and the
/// URL's origin, the origin of the page at the top, the key of its part of the preflight cache,
/// which is the serialised top, and its referrer policy. A document that is not embedded is its own
/// top.
#[derive(Drop)]
pub struct Client {
    pub url: Url,
    pub origin: Origin,
    pub top: Origin,
    pub key: Bytes,
    pub policy: ReferrerPolicy,
}

impl Client {
    /// The client of a document with this URL, in a page with that one at the top (HTML, section
    /// 8.1.3.2). Both are http or https.
    pub fn of(
        alloc: Global,
        url: &Url,
        top: &Url,
        policy: ReferrerPolicy,
    ) -> Result<Client, OutOfMemory>
        ensures { IfOk result (λ client. client ≡ spec.client_of url.now top.now policy) }
    {
        let origin = tuple_origin(alloc, url)?;
        let top = tuple_origin(alloc, top)?;
        let key = serialize(alloc, &top)?;
        let url = url.clone()?;
        Ok(Client {
            url,
            origin,
            top,
            key,
            policy,
        })
    }
}

/// The value of the Cookie header for requests to an origin, given by its serialisation.
#[derive(Drop)]
pub struct Cookie {
    pub origin: Bytes,
    pub value: Bytes,
}

/// A table of cookies, seen as the list; the first entry of an origin counts.
pub type Cookies = Items<Cookie>;
