// The items in the values of headers, after the Fetch Standard, section 2.2.2, and what main fetch asks of a response's
// MIME type: its essence, nosniff, and whether it is blocked.
#![tactic(auto)]

mod blocking;
mod essence;
mod extract;
mod javascript;
mod sniffing;
mod split;
mod wildcard;

pub use blocking::{mime_blocked, nosniff_blocked};
pub use essence::essence_of;
pub use extract::{Extracted, Rule, extract_values};
pub use javascript::is_javascript;
pub use sniffing::nosniff;
pub use split::{split_value, split_values};
pub use wildcard::has_wildcard;
