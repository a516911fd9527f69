// What a program came to, and the number that it ends with.
ghost use Rattle.std.specs.Prelude.{◌≡◌};
ghost use Rattle.program_shell.specs.Statuses as spec;

use link_traits::WriteFault;

/// What a program came to. The numbers are 0 to 7 in this order.
#[derive(Drop)]
pub enum Status<R> {
    /// The input was read to its end, and all was done and written.
    Ok,
    /// The words are not accepted.
    Usage,
    /// The input is refused, or what it asks about is: for this reason.
    Refused(R),
    /// The input failed.
    ReadFault,
    /// The output or the complaints failed, or took nothing of a piece.
    WriteFault,
    /// Memory was refused.
    OutOfMemory,
    /// One byte more than the longest input was read.
    InputTooLong,
    /// The program's own fault, of which its page tells; not every program has one.
    OwnFault,
}

impl<R> Status<R> {
    ghost use Rattle.std.specs.Prelude.{◌≡◌};
    ghost use Rattle.program_shell.specs.Statuses as spec;

    /// The status with which the program ends.
    pub fn number(&self) -> u8
        ensures { result ≡ spec.number self.now }
    {
        match self {
            Status::Ok => 0,
            Status::Usage => 1,
            Status::Refused(_) => 2,
            Status::ReadFault => 3,
            Status::WriteFault => 4,
            Status::OutOfMemory => 5,
            Status::InputTooLong => 6,
            Status::OwnFault => 7,
        }
    }
}

/// The status by what came of writing a text: `Ok` where it was written whole.
pub fn status_of<R: Drop>(written: Result<(), WriteFault>) -> Status<R>
    ensures { result ≡ spec.written_status written }
{
    match written {
        Ok(()) => Status::Ok,
        Err(WriteFault::Fault) => Status::WriteFault,
        Err(WriteFault::TookNothing) => Status::WriteFault,
    }
}
