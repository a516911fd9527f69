// An entry of the book's history: an operation, its turn, its document and its reply.
use crate::op::{Op, Reply};
use value_bytes::Shared;

/// An operation that was done on the book, in which turn and for which document, and what it replied.
/// Who asked for the operation may hold it as well.
#[derive(Drop)]
pub struct Entry {
    pub turn: u64,
    pub document: u32,
    pub op: Shared<Op>,
    pub reply: Reply,
}
