// Rules on a request that a client makes, for a caller that proves nothing: before it is sent, of its preflight, and on
// its answer.
#![tactic(auto)]

mod answers;
mod checks;
mod policies;
mod preflights;
mod requested;

pub use answers::{is_nosniff_blocked, is_type_blocked, seen_response};
pub use checks::{Check, is_mixed_blocked, is_mixed_upgraded, violations_of};
pub use policies::policies_in;
pub use preflights::{preflight_bytes, preflight_verdict, refused_name};
pub use requested::{request_at, request_of};
