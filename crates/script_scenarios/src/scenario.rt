// A scenario as a value: all that a play begins with.
use crate::document::Documents;
use crate::hosts::Hosts;
use crate::servers::Servers;
use link_traits::Routes;
use value_requests::Cookies;

/// A scenario: the second in which it begins, the hosts that are known then, the cookies that are
/// sent, the servers that answer, where servers listen, the greatest number of bytes that come of an
/// answer at once, the documents that fetch, and the greatest number of bytes that a response's body
/// may have.
#[derive(Drop)]
pub struct Scenario {
    pub now: u64,
    pub hosts: Hosts,
    pub cookies: Cookies,
    pub servers: Servers,
    pub routes: Routes,
    pub piece: u32,
    pub documents: Documents,
    pub body_limit: u32,
}
