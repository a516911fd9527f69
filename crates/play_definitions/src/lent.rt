// What the acts and fetches of a document are lent.
use policy_csp::Compiled;
use std::alloc::Global;
use value_requests::{Client, Cookies};

/// What all acts and fetches of a document are lent: the allocator, the share of the book, the document's client and
/// policies, the table of cookies, and the greatest number of bytes that a body may have.
#[derive(Drop)]
pub struct Lent<'a, S> {
    pub alloc: &'a Global,
    pub share: &'a S,
    pub client: &'a Client,
    pub policies: &'a Compiled,
    pub cookies: &'a Cookies,
    pub limit: u32,
}
