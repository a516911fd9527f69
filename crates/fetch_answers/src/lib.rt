// The rules of a fetch that look at the head of an answer, after the Fetch Standard: what it is
// refused for, where a redirect leads and with which request, and how a fetch ends.
#![tactic(auto)]

mod answers;
mod bodies;
mod endings;
mod following;
mod judging;
mod laws;
mod redirects;

pub use answers::{Ended, Redirection};
pub use bodies::{has_null_body, is_coded};
pub use endings::{after_body, ended};
pub use following::{moved_to, redirect_request};
pub use judging::{is_manual, is_to_follow, refusal_after};
pub use laws::{law_ending, law_redirected, law_redirection, law_refusal};
pub use redirects::redirection;
