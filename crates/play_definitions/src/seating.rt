// The place of a document in a play.

/// A document's place in a play: its pass of the shared book, and its link.
#[derive(Drop)]
pub struct Seating<L, P> {
    pub pass: P,
    pub link: L,
}
