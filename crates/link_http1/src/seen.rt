// The bytes that went by, as only clauses read them. They take no memory.
ghost use Rattle.std.specs.Prelude.{◌≡◌, ℕ, List, [], ◌++◌};
ghost use Rattle.std.specs.Borrow.{ftrue};
ghost use Rattle.value_text.specs.Texts.{Text};

use std::marker::{Model, PhantomData};

/// All bytes so far.
#[derive(Drop)]
pub(crate) struct Seen {
    marker: PhantomData<u8>,
    pub(crate) ghost bytes: { Text },
}

impl Model for Seen {
    ghost also_owns = { λ _. ftrue };
}

impl Seen {
    // None yet.
    pub(crate) fn new() -> Seen
        ensures { result.bytes ≡ [] }
    {
        Seen {
            marker: PhantomData,
        }
    }

    // One more piece went by.
    pub(crate) fn note(&mut self, _piece: &[u8])
        ensures { self.new.bytes ≡ self.old.bytes ++ _piece.now }
    {}
}
