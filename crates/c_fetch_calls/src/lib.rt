// The engine for C: a whole fetch by its acts. `include/fiorrudda.h` has its declarations, which `embed/header` writes
// from what stands here.
#![tactic(auto)]

mod fetches;
mod inputs;
mod judging;
mod laws;
mod parts;

pub use inputs::Said;
pub use laws::law_numbers;
