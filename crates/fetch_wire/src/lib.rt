// What comes of the acts of a fetch over a link: requests go out, heads and bodies come in.
#![tactic(auto)]

mod exchange;
mod laws;
mod wire;

pub use laws::law_exchange_alike;
pub use wire::Wire;
