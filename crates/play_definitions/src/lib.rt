// What plays are: the world of a document, what a fetch and a script come to there, seats, and whole plays. These are
// definitions, and the types that they speak of.
#![tactic(auto)]

mod driver;
mod fetch;
mod fetcher;
mod lent;
mod played;
mod player;
mod seating;

pub use driver::Driver;
pub use fetch::FetchRun;
pub use fetcher::Fetcher;
pub use lent::Lent;
pub use played::Played;
pub use player::Player;
pub use seating::Seating;
