// A whole play of a scenario, for C: its documents one after another over one book, without threads; and the audit of
// one that was printed.
// `include/fiorrudda.h` has its declaration, which `embed/header` writes from what stands here.
#![tactic(auto)]

mod audits;
mod page;
mod plays;
mod reports;
