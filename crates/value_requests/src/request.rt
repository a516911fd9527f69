// Requests (Fetch, section 2.2.5).
ghost use Rattle.std.specs.Prelude.{◌≡◌, ◌<◌, length};
ghost use Rattle.value_requests.specs.Requests as spec;

use crate::mode::{Credentials, Mode, RedirectMode, ReferrerPolicy, Tainting};
use crate::policy::Destination;
use url::Url;
use value_bytes::{Bytes, Items};
use value_headers::HeaderList;
use value_origins::Origin;

/// How many redirects are followed ("HTTP-redirect fetch", Fetch, section 4.4).
pub const MOST_REDIRECTS: u32 = 20;

/// The URL list of a request, in order.
pub type Urls = Items<Url>;

/// The referrer of a request (Fetch, section 2.2.5): none, the client, or a URL.
#[derive(Drop)]
pub enum Referrer {
    NoReferrer,
    Client,
    Address(Url),
}

/// A request (Fetch, section 2.2.5). Its URL is the first of the URL list, its current URL the
/// last. `origin` is the document's. `redirects` is the redirect count.
#[derive(Drop)]
pub struct Request {
    pub method: Bytes,
    pub urls: Urls,
    pub headers: HeaderList,
    pub body: Option<Bytes>,
    pub origin: Origin,
    pub mode: Mode,
    pub credentials: Credentials,
    pub redirect: RedirectMode,
    pub referrer: Referrer,
    pub policy: ReferrerPolicy,
    pub integrity: Bytes,
    pub nonce: Bytes,
    pub parser: bool,
    pub unsafe_request: bool,
    pub use_preflight: bool,
    pub destination: Destination,
    pub tainting: Tainting,
    pub redirects: u32,
}

impl Request {
    /// The current URL: the last of the URL list, which is not empty. It takes no memory.
    pub fn current_url(&self) -> &Url
        requires { 0 < length self.now.urls }
        ensures { result.now ≡ spec.current_url self.now }
    {
        self.urls.at(self.urls.len() - 1)
    }
}
