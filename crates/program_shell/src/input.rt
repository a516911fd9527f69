// An input read whole, or the verdict on one that was not.
ghost use Rattle.std.specs.Prelude.{◌≡◌, ◌<◌, ◌^◌, IfErr, IfOk};
ghost use Rattle.program_shell.specs.Inputs as spec;
ghost use Rattle.program_shell.specs.Inputs.{IsGiven, IsStopped};

use crate::status::Status;
use link_traits::{ReadStop, Source, read_whole};
use std::alloc::Global;
use value_bytes::{Bytes, OutOfMemory};

/// Reads an input whole, which has at most so many bytes. Else the verdict on it: `ReadFault` where the input failed,
/// `InputTooLong` where one byte more was read, and `OutOfMemory`.
pub fn read_input<S: Source, R: Drop>(
    alloc: Global,
    input: &mut S,
    most: usize,
) -> Result<Bytes, Status<R>>
    requires { most < 2 ^ 32 }
    ensures given { IfOk result (IsGiven most (S.gives input.old) (S.gives input.new)) }
    ensures stopped { IfErr result (IsStopped most (S.gives input.old) (S.gives input.new)) }
{
    match read_whole(alloc, input, most) {
        Ok(text) => Ok(text),
        Err(ReadStop::Fault) => Err(Status::ReadFault),
        Err(ReadStop::TooLong) => Err(Status::InputTooLong),
        Err(ReadStop::OutOfMemory) => Err(Status::OutOfMemory),
    }
}

/// What a text was read as, or else the verdict on it.
pub fn read_as<A: Drop, R: Drop>(read: Result<Result<A, R>, OutOfMemory>) -> Result<A, Status<R>>
    ensures { result ≡ spec.read_as read }
{
    match read {
        Ok(Ok(asked)) => Ok(asked),
        Ok(Err(reason)) => Err(Status::Refused(reason)),
        Err(OutOfMemory) => Err(Status::OutOfMemory),
    }
}
