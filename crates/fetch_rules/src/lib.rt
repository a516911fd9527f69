// The rules of main fetch and HTTP fetch that look at a request, its client and the head of an answer, each as
// a function of these alone, after the Fetch Standard, section 4.
#![tactic(auto)]

mod blocking;
mod known_hosts;
mod policies;
mod questions;
mod referrers;
mod switch;
mod upgrading;

pub use blocking::{is_at_http, refusal_before};
pub use known_hosts::{match_of, note_of};
pub use policies::set_policy;
pub use questions::{clear_of, covers_of, learn_of};
pub use referrers::set_referrer;
pub use switch::{Switch, set_tainting, switch_of};
pub use upgrading::{secure, upgrade_request};
