// A request as it is sent, and the head of an answer.
use value_bytes::Bytes;
use value_headers::{HeaderList, PackedHeaders};

/// One request as it is sent: to `origin`, the serialised origin of the target, its request line
/// made of `method` and the request target `url`, then `headers`, the whole list from Host on, and
/// the body. `preflight` is true exactly in a CORS-preflight request.
#[derive(Drop)]
pub struct Hop {
    pub preflight: bool,
    pub origin: Bytes,
    pub url: Bytes,
    pub method: Bytes,
    pub headers: PackedHeaders,
    pub body: Option<Bytes>,
}

/// The head of an answer: its status and its header list.
#[derive(Drop)]
pub struct Head {
    pub status: u16,
    pub headers: HeaderList,
}
