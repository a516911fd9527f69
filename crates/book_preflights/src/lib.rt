// The CORS-preflight cache: what servers have allowed, and for how long.
#![tactic(auto)]

mod cache;
mod entry;
mod laws;
mod lessons;
mod names;
mod packed;
mod partition;
mod question;
mod walk;

pub use cache::Precache;
pub use entry::{Allowed, CacheEntry, Keyed};
pub use laws::{law_caches, law_clears, law_extends, law_lessons};
pub use names::Names;
pub use question::{Lesson, Question};
