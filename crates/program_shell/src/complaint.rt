// A verdict told to the complaints, and the answer that follows from it.
ghost use Rattle.std.specs.Prelude.{◌≡◌, Some};
ghost use Rattle.program_shell.specs.Complaints as spec;
ghost use Rattle.program_shell.specs.Complaints.{IsComplained};
ghost use Rattle.program_shell.specs.Statuses.{line};

use crate::status::Status;
use crate::writing::write_line;
use link_traits::{Sink, WriteFault};

/// Writes a line of complaint: how it begins, what ends it, and LF.
pub fn complain<E: Sink>(complaints: &mut E, head: &[u8], detail: &[u8]) -> Result<(), WriteFault>
    ensures { IsComplained (Some (line head.now detail.now)) (E.takes complaints.old) (E.takes complaints.new) result }
{
    write_line(complaints, head, detail)
}

/// The answer of a program: its verdict, or `WriteFault` where the complaint of it could not be written.
pub fn told<R: Drop>(verdict: Status<R>, complained: Result<(), WriteFault>) -> Status<R>
    ensures { result ≡ spec.told verdict complained }
{
    match complained {
        Ok(()) => verdict,
        Err(_) => Status::WriteFault,
    }
}
