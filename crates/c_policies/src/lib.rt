// More of the engine for C: policies, mixed content, preflights, and what a page sees of an answer.
// `include/fiorrudda.h` has its declarations, which `embed/header` writes from what stands here.
#![tactic(auto)]

mod answers;
mod checks;
mod found;
mod headers;
mod laws;
mod policies;
mod preflights;

pub use laws::law_numbers;
