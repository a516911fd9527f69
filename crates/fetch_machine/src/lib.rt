// A fetch, as a machine that is resumed, against the main fetch of the Fetch Standard.
#![tactic(auto)]

mod context;
mod http;
mod main_fetch;
mod place;
mod preflight;
mod resume;
mod steps;

pub use place::{Fetching, Step};
