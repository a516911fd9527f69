// What a script asks of `fetch`, and what an element asks for that loads a resource.
use crate::mode::{Credentials, Mode, RedirectMode, ReferrerPolicy};
use crate::policy::Destination;
use value_bytes::{Bytes, Items};

/// A name and a value that a script gives as a header; they need not be ones.
#[derive(Drop)]
pub struct Pair {
    pub name: Bytes,
    pub value: Bytes,
}

/// What a script gives as the headers of a request, in order.
pub type Pairs = Items<Pair>;

/// What a script asks of `fetch`: its input and its init (Fetch, sections 5.4 and 5.6). The URL is
/// a text, parsed against the document's. Header values stand as `normalize` leaves them where a
/// request is made of them. `client_referrer` is true for the referrer `client` and false for
/// `none`. `upload` tells that an upload listener is there, as that of an XMLHttpRequest.
#[derive(Drop)]
pub struct Init {
    pub url: Bytes,
    pub method: Bytes,
    pub mode: Mode,
    pub credentials: Credentials,
    pub redirect: RedirectMode,
    pub headers: Pairs,
    pub body: Option<Bytes>,
    pub client_referrer: bool,
    pub referrer_policy: ReferrerPolicy,
    pub integrity: Bytes,
    pub upload: bool,
}

/// The CORS settings attribute of an element that loads (HTML, section 2.5.4).
#[derive(Clone, Copy, Debug, PartialEq, Eq)]
pub enum CrossOrigin {
    Absent,
    Anonymous,
    UseCredentials,
}

/// What an element asks for that loads a resource of a kind other than `Fetch` (HTML, section
/// 2.5.1, "create a potential-CORS request"). `parser` tells that a parser inserted the element.
#[derive(Drop)]
pub struct LoadInit {
    pub kind: Destination,
    pub url: Bytes,
    pub crossorigin: CrossOrigin,
    pub nonce: Bytes,
    pub integrity: Bytes,
    pub parser: bool,
    pub referrer_policy: ReferrerPolicy,
}
