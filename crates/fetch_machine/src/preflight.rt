// HTTP fetch with a CORS-preflight: the preflight cache is asked, and a preflight sent and judged (Fetch, sections 4.4
// and 4.8).
ghost use Rattle.std.specs.Prelude.{◌≡◌, false, IfOk};
ghost use Rattle.policy_preflight.specs.Verdict.{verdict as verdict_of};
ghost use Rattle.value_requests.specs.Requests.{IsRequest};
ghost use Rattle.policy_checks.specs.RequestOrigins.{serialized_request_origin};
ghost use Rattle.fetch_machine.specs.Machine.{Leads, at_level};
ghost use Rattle.fetch_definitions.specs.PreflightFetch as spec;
ghost use Rattle.fetch_machine.specs.Ready.{IsReady};

use crate::context::Context;
use crate::http::send;
use crate::place::{Level, Place, Step};
use crate::steps::{asking, going, refused, sending};
use fetch_acts::Act;
use fetch_rules::{covers_of, learn_of, note_of};
use policy_checks::serialized_origin;
use policy_preflight::{Checked, preflight_of, verdict};
use policy_safelist::unsafe_names;
use std::alloc::Global;
use value_bytes::OutOfMemory;
use value_requests::{Head, NetError, Request};

// HTTP fetch with a CORS-preflight: the preflight cache is asked (step 4.1). From here on the level owes a clear.
pub(crate) fn ask_cache(
    alloc: Global,
    context: &Context<'_>,
    level: Level,
) -> Result<Step, OutOfMemory>
    requires ready { IsReady level.request.value }
    requires owes { level.owes ≡ false }
    ensures { Leads context.now result
        (at_level context.now level spec.with_preflight) }
{
    let op = covers_of(alloc, context.client, &level.request, context.time)?;
    let mut level = level;
    level.owes = true;
    asking(alloc, context, level, Place::Covering, op)
}

// The preflight cache covers the request, or a preflight goes before it.
pub(crate) fn covered(
    alloc: Global,
    context: &Context<'_>,
    level: Level,
    yes: bool,
) -> Result<Step, OutOfMemory>
    requires { IsReady level.request.value }
    ensures { Leads context.now result
        (at_level context.now level (λ onward context next request.
        spec.covered_or_not onward context next request yes)) }
{
    if yes {
        send(alloc, context, level)
    } else {
        send_preflight(alloc, context, level)
    }
}

// "CORS-preflight fetch": the preflight is sent (step 6).
pub(crate) fn send_preflight(
    alloc: Global,
    context: &Context<'_>,
    level: Level,
) -> Result<Step, OutOfMemory>
    requires { IsReady level.request.value }
    ensures { Leads context.now result
        (at_level context.now level spec.preflight_fetch) }
{
    let names = unsafe_names(alloc, &level.request.headers)?;
    let hop = preflight_of(alloc, &level.request, &names)?;
    sending(alloc, context, level, Place::PreflightSending, hop)
}

// The head of the answer to the preflight is read, unless the link failed.
pub(crate) fn read_preflight_head(
    alloc: Global,
    context: &Context<'_>,
    level: Level,
    sent: bool,
) -> Result<Step, OutOfMemory>
    requires { IsReady level.request.value }
    ensures { Leads context.now result
        (at_level context.now level (λ onward context next request.
        spec.read_preflight_head onward context next request sent)) }
{
    if sent {
        Ok(going(context, level, Place::PreflightReading, Act::ReadHead))
    } else {
        refused(alloc, context, level, NetError::LinkFault)
    }
}

// The verdict on the answer to the preflight of a request.
fn verdict_on(alloc: Global, request: &Request, head: &Head) -> Result<Checked, OutOfMemory>
    requires { IsRequest request.now }
    ensures { IfOk result (λ checked. checked
        ≡ verdict_of request.now (serialized_request_origin request.now) (spec.names_of request.now) head.now) }
{
    let origin = serialized_origin(alloc, request)?;
    let names = unsafe_names(alloc, &request.headers)?;
    verdict(alloc, request, origin.as_slice(), &names, head)
}

// The head of the answer to the preflight has come, or a network error: a known host is noted by it too.
pub(crate) fn preflight_answered(
    alloc: Global,
    context: &Context<'_>,
    level: Level,
    came: Result<Head, NetError>,
) -> Result<Step, OutOfMemory>
    requires { IsReady level.request.value }
    ensures { Leads context.now result
        (at_level context.now level (λ onward context next request.
        spec.preflight_answered onward context next request came)) }
{
    let head = match came {
        Err(error) => return refused(alloc, context, level, error),
        Ok(head) => head,
    };
    let checked = verdict_on(alloc, &level.request, &head)?;
    match note_of(alloc, &level.request, &head, context.time)? {
        None => judge_preflight(alloc, context, level, checked),
        Some(op) => asking(alloc, context, level, Place::PreflightNoting(checked), op),
    }
}

// The verdict on the answer to the preflight: what it allows is learned (CORS-preflight fetch, steps 7.12 to 7.15).
pub(crate) fn judge_preflight(
    alloc: Global,
    context: &Context<'_>,
    level: Level,
    checked: Checked,
) -> Result<Step, OutOfMemory>
    requires { IsReady level.request.value }
    ensures { Leads context.now result
        (at_level context.now level (λ onward context next request.
        spec.preflight_judged onward context next request checked)) }
{
    match checked {
        Checked::Refused(error) => refused(alloc, context, level, error),
        Checked::Pass {
            age,
            methods,
            names,
        } => {
            let op = learn_of(
                alloc,
                context.client,
                &level.request,
                age,
                methods,
                names,
                context.time,
            )?;
            asking(alloc, context, level, Place::Learning, op)
        }
    }
}
