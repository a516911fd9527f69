// The engine for C: each rule as a call that may be made at any time. `include/fiorrudda.h` has its declarations, which
// `embed/header` writes from what stands here.
#![tactic(auto)]

mod answers;
mod asked;
mod choices;
mod clients;
mod free;
mod headers;
mod hosts;
mod laws;
mod origins;
mod policies;
mod requests;
mod rules;

pub use laws::law_numbers;
