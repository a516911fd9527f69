// How a fetch goes on from an input.
ghost use Rattle.std.specs.Prelude.{◌≡◌, IfOk, IsTrue, Some};
ghost use Rattle.fetch_acts.specs.Process.{fits};
ghost use Rattle.fetch_session.specs.Private.Steps.{HasLast, WentOn, process_of, rest_of};
ghost use Rattle.fetch_session.specs.Readers.{bodies_after};
ghost use Rattle.fetch_session.specs.Sessions.{seen};
ghost use Rattle.fetch_session.specs.Standings.{begun};

use crate::document::Document;
use crate::reading::{Bodies, reader_for};
use crate::session::{Session, Stand, Waiting, Went};
use fetch_acts::Input;
use fetch_machine::{Fetching, Step};
use std::alloc::Global;
use value_bytes::OutOfMemory;

// Where a step leads: the fetch waits with a new reader of what its act awaits, or is over.
pub(crate) fn stand_of(alloc: Global, step: Step, bodies: Bodies) -> Result<Stand, OutOfMemory>
    requires { HasLast step }
    ensures { IfOk result (λ stand. (document : Document)
        → seen document stand ≡ Some (begun (process_of document step) bodies)) }
{
    match step {
        Step::Over(outcome) => Ok(Stand::Ends(outcome, bodies)),
        Step::Going(fetching, act) => {
            let reader = reader_for(alloc, &act, bodies)?;
            Ok(Stand::Waits(Waiting {
                fetching,
                act,
                reader,
                bodies,
            }))
        }
    }
}

// Where a fetch stands that goes on from an input, which may follow its last act.
fn resumed(
    alloc: Global,
    document: &Document,
    fetching: Fetching,
    bodies: Bodies,
    input: Input,
) -> Result<Stand, OutOfMemory>
    requires { IsTrue (fits fetching.last.value input) }
    ensures { IfOk result (λ stand. seen document.now stand
        ≡ Some (begun (rest_of document.now fetching input) (bodies_after bodies input))) }
{
    let bodies = bodies.after(alloc, &input)?;
    let step = fetching.resume(
        alloc,
        &document.client,
        &document.policies,
        &document.cookies,
        input,
    )?;
    stand_of(alloc, step, bodies)
}

impl Session {
    // Takes the fetch on from an input, which may follow its last act.
    pub(crate) fn go_on(
        &mut self,
        alloc: Global,
        fetching: Fetching,
        bodies: Bodies,
        input: Input,
    ) -> Went
        requires { IsTrue (fits fetching.last.value input) }
        ensures went { WentOn fetching bodies input self.old result self.new }
        ensures document { self.new.document ≡ self.old.document }
    {
        match resumed(alloc, &self.document, fetching, bodies, input) {
            Ok(stand) => {
                self.settle(stand);
                Went::On
            }
            Err(_) => {
                self.settle(Stand::Gone);
                Went::OutOfMemory
            }
        }
    }
}
