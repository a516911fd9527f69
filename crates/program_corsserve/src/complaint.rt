// What corsserve tells the complaints of each status.
ghost use Rattle.program_shell.specs.Complaints.{IsComplained, IsTold};
ghost use Rattle.program_corsserve.specs.Complaints.{complaint};

use crate::program::ServeStatus;
use itoa::Buffer;
use link_traits::{Sink, WriteFault};
use program_shell::{Status, complain, told};

// Writes the line of a verdict other than `Ok`.
fn write_complaint<E: Sink>(complaints: &mut E, verdict: &ServeStatus) -> Result<(), WriteFault>
    ensures { IsComplained (complaint verdict.now) (E.takes complaints.old) (E.takes complaints.new) result }
{
    match verdict {
        Status::Ok => Ok(()),
        Status::Usage => complain(complaints, b"corsserve: usage: corsserve ADDRESS N", b""),
        Status::Refused(bad) => {
            let mut buffer = Buffer::new();
            let line = buffer.format(bad.line).as_bytes();
            complain(complaints, b"corsserve: table refused at line ", line)
        }
        Status::ReadFault => complain(complaints, b"corsserve: fault 3", b""),
        Status::WriteFault => complain(complaints, b"corsserve: fault 4", b""),
        Status::OutOfMemory => complain(complaints, b"corsserve: fault 5", b""),
        Status::InputTooLong => complain(complaints, b"corsserve: fault 6", b""),
        Status::OwnFault => complain(complaints, b"corsserve: fault 7", b""),
    }
}

// Tells a verdict to the complaints, and gives the answer.
pub(crate) fn tell<E: Sink>(verdict: ServeStatus, complaints: &mut E) -> ServeStatus
    ensures { IsTold (complaint verdict) (E.takes complaints.old) (E.takes complaints.new) verdict result }
{
    let complained = write_complaint(complaints, &verdict);
    told(verdict, complained)
}
