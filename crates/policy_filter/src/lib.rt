// Filtered responses, and what a document may learn of the head of an answer, after the Fetch
// Standard.
#![tactic(auto)]

mod exposed;
mod keep;
mod laws;
mod listed;
mod names;
mod responses;
mod views;

pub use exposed::exposed_names;
pub use laws::{
    law_blocking, law_body, law_cors_check, law_filtered, law_known_host, law_own_view,
    law_redirect, law_resource_policy, law_target,
};
pub use responses::filtered;
pub use views::hide;
