// What all steps of a fetch share: it asks for an act and waits, is refused, or ends (Fetch, section 4.1 "main fetch",
// steps 14 to 23).
ghost use Rattle.std.specs.Prelude.{◌≡◌, ◌<◌, ◌≤◌, false, length, drop, IfOk, IsTrue, Ok, Err};
ghost use Rattle.fetch_rules.specs.Questions.{clear_of as clear_at};
ghost use Rattle.value_requests.specs.declared.error.NetError.{NetError as AnError};
ghost use Rattle.value_requests.specs.declared.request.Request.{Request};
ghost use Rattle.fetch_acts.specs.Process.{IsPlain, act as acting, ended as ended_with};
ghost use Rattle.fetch_answers.specs.Endings.{after_body as outcome_of};
ghost use Rattle.fetch_definitions.specs.Fetch.{ends};
ghost use Rattle.fetch_machine.specs.Machine.{Does, Leads, next_of, rest_at};
ghost use Rattle.fetch_machine.specs.Ready.{is_ready_at, owes_early};
ghost use Rattle.fetch_definitions.specs.Then as shared;
ghost use Rattle.fetch_definitions.specs.Then.{tell_all, then_ask};

use crate::context::Context;
use crate::place::{Fetching, Level, Place, Step};
use book_calls::Op;
use fetch_acts::Act;
use fetch_answers::{Ended, after_body, ended};
use fetch_rules::clear_of;
use policy_csp::Violations;
use std::alloc::Global;
use std::snapshot::Snapshot;
use value_bytes::{Boxed, OutOfMemory, Shared};
use value_requests::{BodyEnd, Head, Hop, NetError, Outcome, Response, Violation};

// A copy of a violation, in a place of its own.
pub(crate) fn copied(alloc: Global, violation: &Violation) -> Result<Boxed<Violation>, OutOfMemory>
    ensures { IfOk result (λ copy. copy ≡ violation.now) }
{
    let copy = Violation {
        policy: violation.policy,
        enforced: violation.enforced,
        directive: violation.directive,
        url: violation.url.copy(alloc)?,
    };
    Boxed::new(alloc, copy)
}

// It asks for an act at a place of the level, and waits.
pub(crate) fn going(context: &Context<'_>, level: Level, place: Place, act: Act) -> Step
    requires ready { IsTrue (is_ready_at place level.request.value) }
    requires fresh { owes_early place level.owes ≡ false }
    requires plain { IsPlain act }
    ensures { Does context.now result
        (acting level.request.value act (rest_at context.now level place)) }
{
    let last = Snapshot::of(&act);
    let fetching = Fetching {
        now: context.time,
        level,
        place,
        last,
    };
    Step::Going(fetching, act)
}

// It asks the shared book at a place of the level, and waits.
pub(crate) fn asking(
    alloc: Global,
    context: &Context<'_>,
    level: Level,
    place: Place,
    op: Op,
) -> Result<Step, OutOfMemory>
    requires ready { IsTrue (is_ready_at place level.request.value) }
    requires fresh { owes_early place level.owes ≡ false }
    ensures { Leads context.now result
        (acting level.request.value (Act.Ask op) (rest_at context.now level place)) }
{
    let op = Shared::new(alloc, op)?;
    Ok(going(context, level, place, Act::Ask(op)))
}

// It sends a request at a place of the level, and waits.
pub(crate) fn sending(
    alloc: Global,
    context: &Context<'_>,
    level: Level,
    place: Place,
    hop: Hop,
) -> Result<Step, OutOfMemory>
    requires ready { IsTrue (is_ready_at place level.request.value) }
    requires fresh { owes_early place level.owes ≡ false }
    requires plain { IsPlain (Act.Send hop) }
    ensures { Leads context.now result
        (acting level.request.value (Act.Send hop) (rest_at context.now level place)) }
{
    let hop = Boxed::new(alloc, hop)?;
    Ok(going(context, level, place, Act::Send(hop)))
}

// The fetch is over.
fn over(alloc: Global, outcome: Outcome) -> Result<Step, OutOfMemory>
    ensures { (context : shared.Context) → Leads context result (ended_with outcome) }
{
    Ok(Step::Over(Boxed::new(alloc, outcome)?))
}

// How many clears are owed after the next one.
#[tactic(auto, using(crate::proofs::MachineLemmas::clear_first))]
fn one_less(owed: u32, owes: bool) -> u32
    requires { owes ≡ false → 0 < owed }
    ensures clears { (context : shared.Context) (request : Request) (error : AnError)
        → next_of context owed owes request (Err error)
        ≡ then_ask request (clear_at context.client request context.now)
        (next_of context result false request (Err error)) }
    ensures few { result ≤ owed }
{
    if owes { owed } else { owed - 1 }
}

// A network error: each level that owes a clear asks for it (main fetch, step 12), the innermost first, and then it is
// the outcome.
pub(crate) fn refused(
    alloc: Global,
    context: &Context<'_>,
    level: Level,
    error: NetError,
) -> Result<Step, OutOfMemory>
    ensures { Leads context.now result
        (next_of context.now level.owed level.owes level.request.value (Err error)) }
{
    let Level {
        request,
        owed,
        owes,
    } = level;
    if !owes && owed == 0 {
        return over(alloc, Outcome::Error(error));
    }
    let op = clear_of(alloc, context.client, &request, context.time)?;
    let level = Level {
        request,
        owed: one_less(owed, owes),
        owes: false,
    };
    asking(alloc, context, level, Place::Clearing(error), op)
}

// The fetch is over, or the body is read.
fn end(
    alloc: Global,
    context: &Context<'_>,
    level: Level,
    ended: Ended,
) -> Result<Step, OutOfMemory>
    ensures { Leads context.now result (ends level.request.value ended) }
{
    match ended {
        Ended::Over(outcome) => over(alloc, outcome),
        Ended::Reads(response) => {
            let kept = Boxed::new(alloc, response)?;
            Ok(going(context, level, Place::BodyReading(kept), Act::ReadBody))
        }
    }
}

// The violations from a place on are told, and then the fetch ends so.
pub(crate) fn tell_at_end(
    alloc: Global,
    context: &Context<'_>,
    level: Level,
    violations: Violations,
    at: usize,
    ended: Ended,
) -> Result<Step, OutOfMemory>
    ensures { Leads context.now result
        (tell_all level.request.value (drop at violations) (ends level.request.value ended)) }
{
    if at >= violations.len() {
        return end(alloc, context, level, ended);
    }
    let kept = Boxed::new(alloc, ended)?;
    let violation = copied(alloc, violations.at(at))?;
    let place = Place::Ending(violations, at + 1, kept);
    Ok(going(context, level, place, Act::Tell(violation)))
}

// The response: the policies that it violates are told, and then it is blocked, handed over, or its
// body is read (main fetch, steps 14 to 23).
pub(crate) fn finish(
    alloc: Global,
    context: &Context<'_>,
    level: Level,
    head: Head,
) -> Result<Step, OutOfMemory>
    ensures { Leads context.now result
        (next_of context.now level.owed level.owes level.request.value (Ok head)) }
{
    let (violations, blocked) = context
        .policies
        .check_response(alloc, &level.request, &context.client.origin)?;
    let end = ended(alloc, &level.request, head, blocked)?;
    tell_at_end(alloc, context, level, violations, 0, end)
}

// The body is at its end, and the fetch over.
pub(crate) fn body_read(
    alloc: Global,
    level: Level,
    response: Response,
    end: BodyEnd,
) -> Result<Step, OutOfMemory>
    ensures { (context : shared.Context) → Leads context result
        (ended_with (outcome_of level.request.value response end)) }
{
    let outcome = after_body(alloc, &level.request, response, end)?;
    over(alloc, outcome)
}
