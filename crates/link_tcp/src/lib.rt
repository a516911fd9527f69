// Links over TCP: each request is sent on a connection of its own, to the address that the routes name.
// And connections that are accepted.
#![tactic(auto)]

mod accepts;
mod end;
mod link;
mod links;
mod routes;

pub use accepts::TcpAccepts;
pub use end::TcpEnd;
pub use link::TcpLink;
pub use links::TcpLinks;
