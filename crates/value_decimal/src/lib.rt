// Numbers in decimal, as texts that are written and read back have them.
#![tactic(auto)]

mod laws;
mod numbers;

pub use laws::law_decimals;
pub use numbers::number_up_to;
