// The scenario of `fetchplay gen N`.
#![tactic(auto)]

mod generated;
mod laws;

pub use generated::generate;
pub use laws::law_addresses;
