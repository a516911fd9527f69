// The request that a script's `fetch` makes, that of an element that loads a resource, and how a
// request is sent, after the Fetch and HTML Standards.
#![tactic(auto)]

mod fault;
mod fill;
mod head;
mod hop;
mod load;
mod make;

pub use head::includes_credentials;
pub use hop::hop_of;
pub use load::new_load;
pub use make::new_request;
