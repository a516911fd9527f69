// Whom a request is for, and what a link was asked.
use value_bytes::Bytes;

/// Whom a request is for: its serialised origin.
#[derive(Drop)]
pub struct Target {
    pub origin: Bytes,
}

/// What was asked of a link: the origin of the target, and the bytes of the request.
#[derive(Drop)]
pub struct Ask {
    pub origin: Bytes,
    pub request: Bytes,
}
