// The CORS protocol, after the Fetch Standard: preflights, and the verdicts on their answers.
#![tactic(auto)]

mod allowed;
mod answer;
mod laws;
mod preflight;

pub use answer::{Checked, verdict};
pub use laws::{
    law_check_of_view, law_credentials_never_by_wildcard, law_passes_are_lessons,
    law_verdict_of_view,
};
pub use preflight::preflight_of;
