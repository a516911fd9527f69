// Where the failures of a link show in a document's run, and that there are as many as the link counted.
#![tactic(auto)]

mod laws;

pub use laws::{law_faults_counted, law_faults_shown};
