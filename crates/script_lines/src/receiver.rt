// What is told lines, piece by piece, and what is kept of them.
ghost use Rattle.std.specs.Prelude.{decimal, OnOk};
ghost use Rattle.script_lines.specs.Escapes as escapes;
ghost use Rattle.script_lines.specs.Kept.{Kept, Told};

/// What is told lines, piece by piece.
pub trait Receiver {
    /// Why it takes no more.
    type Refusal;

    /// What it has kept of what it was told so far.
    ghost kept: { Self → Kept };

    /// Takes a text. Where it is refused, any of it may be kept.
    fn text(&mut self, text: &[u8]) -> Result<(), Self::Refusal>
        ensures { OnOk result (Told (kept self.old) (kept self.new) text.now) };

    /// Takes a text that is escaped. Where it is refused, any of it may be kept.
    fn escaped(&mut self, text: &[u8]) -> Result<(), Self::Refusal>
        ensures { OnOk result (Told (kept self.old) (kept self.new) (escapes.escaped text.now)) };

    /// Takes a number in decimal. Where it is refused, any of it may be kept.
    fn number(&mut self, number: u64) -> Result<(), Self::Refusal>
        ensures { OnOk result (Told (kept self.old) (kept self.new) (decimal number)) };
}
