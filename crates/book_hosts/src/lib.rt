// HTTP Strict Transport Security: the header field, and the hosts that are known to ask for it.
#![tactic(auto)]

mod directives;
mod hosts;
mod index;
mod laws;
mod pieces;
mod sts;
mod walk;

pub use hosts::{HstsList, KnownHost};
pub use laws::{law_ages, law_extends, law_sts_grammar};
pub use sts::{Sts, parse_sts};
