// Why a text was not printed whole.
use link_traits::WriteFault;
use value_bytes::OutOfMemory;

/// Why a text was not printed whole.
#[derive(Clone, Copy, Debug, PartialEq, Eq)]
pub enum Failure {
    /// The sink failed.
    Fault,
    /// The sink took nothing of a piece that was not empty.
    TookNothing,
    /// Memory was refused.
    OutOfMemory,
}

impl From<WriteFault> for Failure {
    ghost use Rattle.std.specs.Prelude.{◌≡◌};
    ghost use Rattle.play_text.specs.Failures.{failure_of};

    ghost from_gives = { λ fault made. made ≡ failure_of fault };

    fn from(fault: WriteFault) -> Self {
        match fault {
            WriteFault::Fault => Failure::Fault,
            WriteFault::TookNothing => Failure::TookNothing,
        }
    }
}

impl From<OutOfMemory> for Failure {
    ghost use Rattle.std.specs.Prelude.{◌≡◌};
    ghost use Rattle.play_text.specs.declared.failure.Failure.TheVariants as failure;

    ghost from_gives = { λ _ made. made ≡ failure.OutOfMemory };

    fn from(_error: OutOfMemory) -> Self {
        Failure::OutOfMemory
    }
}
