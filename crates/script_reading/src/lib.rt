// Scenarios, read from bytes.
#![tactic(auto)]

mod answers;
mod cookies;
mod documents;
mod format;
mod headers;
mod hosts;
mod place;
mod read;
mod routes;
mod servers;
mod texts;
mod urls;

pub use answers::answer_bytes;
pub use format::Format;
pub use place::Place;
pub use read::read_scenario;
