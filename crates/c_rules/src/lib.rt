// The rules of the engine for a caller that proves nothing: texts in, and an answer or a named refusal out.
#![tactic(auto)]

mod bodies;
mod cors;
mod headers;
mod hosts;
mod names;
mod origins;
mod reading;
mod referrers;
mod refusal;
mod sources;
mod types;

pub use bodies::matches_integrity;
pub use cors::is_kept_by_resource_policy;
pub use headers::{append_header, value_of};
pub use hosts::{is_known_host, note_field};
pub use names::{exposed_name_at, is_forbidden_header, unsafe_name_at};
pub use origins::{are_same_origin, are_same_site, goes_to_bad_port, is_trustworthy, origin_text};
pub use reading::{read_url, read_web_url};
pub use referrers::told_referrer;
pub use refusal::Refusal;
pub use sources::source_matches;
pub use types::essence_in;
