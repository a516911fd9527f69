// What a fetch asks for and what comes of it, as a tree of acts; readings of such a tree over a tape, and
// traces of it through a world.
#![tactic(auto)]

mod act;

pub use act::{Act, Input, fits};
