// Responses as a script sees them (Fetch, section 2.2.6), how bodies end, and what a fetch comes to.
ghost use Rattle.std.specs.Prelude.{◌≡◌};
ghost use Rattle.value_requests.specs.Names.{kind_name};

use crate::error::NetError;
use value_bytes::Bytes;
use value_headers::PackedHeaders;

/// How a body came to its end.
#[derive(Drop)]
pub enum BodyEnd {
    /// There is no body, or it was not read: the null body.
    Null,
    /// All of it came.
    Whole(Bytes),
    /// The answer broke off, or broke its framing, after so many bytes of the body.
    Cut(u32),
    /// The link failed after so many bytes of the body.
    Fault(u32),
    /// More bytes came than the body limit allows.
    TooBig,
}

/// The type of a response that a script sees (Fetch, section 2.2.6).
#[derive(Clone, Copy, Debug, PartialEq, Eq)]
pub enum ResponseKind {
    Basic,
    Cors,
    Opaque,
    OpaqueRedirect,
}

impl ResponseKind {
    /// The name of the type.
    pub fn name(self) -> &'static str
        ensures { result.now ≡ kind_name self }
    {
        match self {
            ResponseKind::Basic => "basic",
            ResponseKind::Cors => "cors",
            ResponseKind::Opaque => "opaque",
            ResponseKind::OpaqueRedirect => "opaqueredirect",
        }
    }
}

/// A filtered response, as a script sees it. The URL has no fragment.
#[derive(Drop)]
pub struct Response {
    pub kind: ResponseKind,
    pub status: u16,
    pub url: Option<Bytes>,
    pub headers: PackedHeaders,
    pub body: BodyEnd,
}

/// What a fetch came to.
#[derive(Drop)]
pub enum Outcome {
    /// A response to a `fetch`.
    Answer(Response),
    /// A load that succeeded.
    Loaded,
    /// A network error.
    Error(NetError),
}
