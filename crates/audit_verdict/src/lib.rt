// A printed play, audited: whether it is the text of a play of a scenario, and where not.
#![tactic(auto)]

mod cases;
mod laws;
mod runs;
mod verdict;

pub use cases::audit;
pub use laws::{law_audited, law_one_verdict, law_own_history, law_own_play};
pub use verdict::Verdict;
