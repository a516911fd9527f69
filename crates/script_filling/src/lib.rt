// The last result of a script: the conditions on it, and what a script asks for with its parts filled in.
#![tactic(auto)]

mod filling;
mod kept;
mod results;

pub use filling::{filled_init, filled_load, is_plain, is_plain_load};
pub use results::{holds, is_result};
