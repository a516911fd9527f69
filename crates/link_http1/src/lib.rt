// Requests and answers as bytes (RFC 9112): the bytes of a request, and readers of the head and of the
// body of an answer, which are fed pieces.
#![tactic(auto)]

mod block;
mod body;
mod framing;
mod gathered;
mod head;
mod laws;
mod place;
mod request;
mod request_head;
mod seen;
mod taking;

pub use body::{BodyReader, BodyStep};
pub use framing::{Framing, framing_of};
pub use head::{HeadReader, HeadStep};
pub use laws::{
    law_heads_are_blocks, law_one_end, law_one_head, law_one_request, law_open_bodies_are_short,
    law_requests_are_blocks,
};
pub use request::write_request;
pub use request_head::{Asked, read_request};
