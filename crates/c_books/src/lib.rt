// The book of the engine for C, as a text: written, and read back.
// `include/fiorrudda.h` has its declarations, which `embed/header` writes from what stands here.
#![tactic(auto)]

mod books;
mod laws;

pub use laws::law_reasons;
