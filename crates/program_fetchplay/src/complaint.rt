// What fetchplay tells the complaints of each status.
ghost use Rattle.program_shell.specs.Complaints.{IsComplained, IsTold};
ghost use Rattle.program_fetchplay.specs.Statuses.{complaint};

use crate::program::PlayStatus;
use link_traits::{Sink, WriteFault};
use program_shell::{Status, complain, told};

// Writes the line of a verdict other than `Ok`. The program has no fault of its own.
fn write_complaint<E: Sink>(complaints: &mut E, verdict: &PlayStatus) -> Result<(), WriteFault>
    ensures { IsComplained (complaint verdict.now) (E.takes complaints.old) (E.takes complaints.new) result }
{
    match verdict {
        Status::Ok | Status::OwnFault => Ok(()),
        Status::Usage => {
            complain(
                complaints,
                b"fetchplay: usage: fetchplay play | net | gen N",
                b"",
            )
        }
        Status::Refused(place) => {
            complain(
                complaints,
                b"fetchplay: scenario refused at ",
                place.text.as_slice(),
            )
        }
        Status::ReadFault => complain(complaints, b"fetchplay: reading failed", b""),
        Status::WriteFault => complain(complaints, b"fetchplay: writing failed", b""),
        Status::OutOfMemory => complain(complaints, b"fetchplay: out of memory", b""),
        Status::InputTooLong => {
            complain(
                complaints,
                b"fetchplay: input longer than 4194304 bytes",
                b"",
            )
        }
    }
}

// Tells a verdict to the complaints, and gives the answer.
pub(crate) fn tell<E: Sink>(verdict: PlayStatus, complaints: &mut E) -> PlayStatus
    ensures { IsTold (complaint verdict) (E.takes complaints.old) (E.takes complaints.new) verdict result }
{
    let complained = write_complaint(complaints, &verdict);
    told(verdict, complained)
}
