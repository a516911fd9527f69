// Texts of any bytes, kept, and lists of them; values in a place of their own, and values that several hold.
#![tactic(auto)]

mod among;
mod boxed;
mod bytes;
mod cased;
mod items;
mod list;
mod memory;
mod shared;
mod short;

pub use among::{has_text, has_text_fold};
pub use boxed::Boxed;
pub use bytes::{Bytes, copy_of};
pub use cased::{in_lower_case, in_upper_case};
pub use items::Items;
pub use list::BytesList;
pub use memory::OutOfMemory;
pub use shared::Shared;
