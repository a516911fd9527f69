// Which request headers scripts may set, and which of them a server is asked about first: safelisted
// and forbidden request-headers, CORS-unsafe names and guards, after the Fetch Standard.
#![tactic(auto)]

mod forbidden;
mod guard;
mod range;
mod safelisted;
mod sets;
mod unsafe_headers;

pub use forbidden::{is_forbidden_header, is_forbidden_method};
pub use guard::{Appended, Guard, guarded_append};
pub use safelisted::is_safelisted;
pub use unsafe_headers::unsafe_names;
