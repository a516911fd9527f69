// What a handle may hold.
use crate::found::Found;
use book_calls::Book;
use c_fetch::{Asked, Settings};
use fetch_session::Session;
use policy_csp::Compiled;
use value_headers::HeaderList;

/// What a handle may hold.
#[derive(Drop)]
pub enum Thing {
    Headers(HeaderList),
    Book(Book),
    Client(Settings),
    Request(Asked),
    Fetch(Session),
    Policies(Compiled),
    Violations(Found),
}
