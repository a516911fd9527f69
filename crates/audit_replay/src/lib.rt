// A given history: whether the book would give it, and whether its entries name documents; a share of the book that
// replies from it, and calls no book; where the text of a play differs from another text.
#![tactic(auto)]

mod compare;
mod comparing;
mod legality;
mod ops;
mod stray;
mod tape;

pub use compare::differs_from;
pub use legality::{first_illegal, first_stranger};
pub use tape::{TapePass, TapeShare};
