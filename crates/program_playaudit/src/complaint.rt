// What playaudit tells the complaints of each status.
ghost use Rattle.program_playaudit.specs.Statuses.{complaint};
ghost use Rattle.program_shell.specs.Complaints.{IsComplained, IsTold};

use crate::program::AuditStatus;
use link_traits::{Sink, WriteFault};
use program_shell::{Status, complain, told};

// Writes the line of a status other than `Ok` and `Refused`.
fn write_complaint<E: Sink>(complaints: &mut E, status: &AuditStatus) -> Result<(), WriteFault>
    ensures { IsComplained (complaint status.now) (E.takes complaints.old) (E.takes complaints.new) result }
{
    match status {
        Status::Ok => Ok(()),
        Status::Refused(_) => Ok(()),
        Status::Usage => complain(complaints, b"playaudit: fault 1", b""),
        Status::ReadFault => complain(complaints, b"playaudit: fault 3", b""),
        Status::WriteFault => complain(complaints, b"playaudit: fault 4", b""),
        Status::OutOfMemory => complain(complaints, b"playaudit: fault 5", b""),
        Status::InputTooLong => complain(complaints, b"playaudit: fault 6", b""),
        Status::OwnFault => complain(complaints, b"playaudit: fault 7", b""),
    }
}

// Tells a status to the complaints, and gives the answer.
pub(crate) fn tell<E: Sink>(status: AuditStatus, complaints: &mut E) -> AuditStatus
    ensures { IsTold (complaint status) (E.takes complaints.old) (E.takes complaints.new) status result }
{
    let complained = write_complaint(complaints, &status);
    told(status, complained)
}
