// A text that grows by what is written.
ghost use Rattle.std.specs.Prelude.{◌≡◌, [], Some};
ghost use Rattle.link_traits.specs.Sources.{no_source};

use link_traits::{Failed, Faults, Sink};
use std::alloc::Global;

// A sink that takes each piece whole, and fails where memory is refused.
#[derive(Drop)]
pub(crate) struct GrowingText {
    bytes: Vec<u8>,
    faults: Faults,
}

impl GrowingText {
    // The empty text.
    pub(crate) fn new(alloc: Global) -> GrowingText
        ensures { result.bytes.items ≡ [] }
    {
        GrowingText {
            bytes: Vec::new(alloc),
            faults: Faults::none(),
        }
    }

    // What was written.
    pub(crate) fn as_slice(&self) -> &[u8]
        ensures { result.now ≡ self.now.bytes.items }
    {
        self.bytes.as_slice()
    }
}

impl Sink for GrowingText {
    ghost takes = { λ text. record { taken = Some text.bytes.items; faults = text.faults; zeros = 0 } };

    ghost beside = { λ _. no_source };

    fn write(&mut self, piece: &[u8]) -> Result<usize, Failed> {
        match self.bytes.extend_from_slice(piece) {
            Ok(()) => Ok(piece.len()),
            Err(_) => Err(self.faults.fail()),
        }
    }
}
