// A pass of a shared book, the right to call it as one document.
ghost use Rattle.book_turns.specs.Private.Rest.{IsAtRest};

use crate::turn::Held;

/// The document of the first pass.
pub const FIRST: u32 = u32::MAX;

/// The right to call a book as one document. The first pass is for no document of a play: it makes the
/// others, and they come back to it.
#[derive(Drop)]
pub struct TurnPass {
    pub(crate) document: u32,
    pub(crate) seat: Held,
    ghost rests: { IsAtRest seat.me document },
}
