// What cspreport tells the complaints of each status.
ghost use Rattle.program_shell.specs.Complaints.{IsComplained, IsTold};
ghost use Rattle.program_cspreport.specs.Statuses.{complaint};

use crate::program::ReportStatus;
use link_traits::{Sink, WriteFault};
use program_shell::{Status, complain, told};

// Writes the line of a verdict other than `Ok`. The program has no fault of its own.
fn write_complaint<E: Sink>(complaints: &mut E, verdict: &ReportStatus) -> Result<(), WriteFault>
    ensures { IsComplained (complaint verdict.now) (E.takes complaints.old) (E.takes complaints.new) result }
{
    match verdict {
        Status::Ok | Status::OwnFault => Ok(()),
        Status::Usage => complain(complaints, b"cspreport: fault 1", b""),
        Status::Refused(place) => complain(
            complaints,
            b"cspreport: fault 2 at ",
            place.text.as_slice(),
        ),
        Status::ReadFault => complain(complaints, b"cspreport: fault 3", b""),
        Status::WriteFault => complain(complaints, b"cspreport: fault 4", b""),
        Status::OutOfMemory => complain(complaints, b"cspreport: fault 5", b""),
        Status::InputTooLong => complain(complaints, b"cspreport: fault 6", b""),
    }
}

// Tells a verdict to the complaints, and gives the answer.
pub(crate) fn tell<E: Sink>(verdict: ReportStatus, complaints: &mut E) -> ReportStatus
    ensures { IsTold (complaint verdict) (E.takes complaints.old) (E.takes complaints.new) verdict result }
{
    let complained = write_complaint(complaints, &verdict);
    told(verdict, complained)
}
