// A whole fetch for a caller that proves nothing: what it fetches for and what it asks, of texts, and what an act or an
// outcome has, by parts.
#![tactic(auto)]

mod amounts;
mod asked;
mod beginning;
mod fetch_init;
mod load_init;
mod parts;
mod policy_value;
mod settings;

pub use amounts::{Amount, amount_of};
pub use asked::{Asked, Choice, Words};
pub use beginning::{begin, requested};
pub use fetch_init::AskedFetch;
pub use load_init::AskedLoad;
pub use parts::{Part, request_of, text_of};
pub use policy_value::PolicyValue;
pub use settings::Settings;
