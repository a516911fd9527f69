// Header lists, after the Fetch Standard, section 2.2.2.
#![tactic(auto)]

mod field;
mod headers;
mod packed;

pub use field::Field;
pub use headers::{Header, HeaderList, HeaderTest};
pub use packed::PackedHeaders;
