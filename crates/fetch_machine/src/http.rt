// HTTP fetch and HTTP-redirect fetch, step by step (Fetch, sections 4.4 to 4.6).
ghost use Rattle.std.specs.Prelude.{◌≡◌, ◌<◌, ◌≤◌, ◌+◌, false, IfOk, IsTrue, Option, Ok, Err};
ghost use Rattle.value_requests.specs.Requests.{IsClient, IsRequest, is_http_url, most_redirects};
ghost use Rattle.fetch_answers.specs.Judging.{refusal_after as refusal_of};
ghost use Rattle.fetch_answers.specs.Following.{redirected_request as after_redirect};
ghost use Rattle.fetch_answers.specs.Redirects.{redirection as redirection_of};
ghost use Rattle.fetch_definitions.specs.Fetch.{onward_of};
ghost use Rattle.fetch_definitions.specs.HttpFetch as spec;
ghost use Rattle.fetch_machine.specs.Machine.{Leads, at_level, next_of};
ghost use Rattle.fetch_machine.specs.Ready.{IsReady};
ghost use Rattle.fetch_definitions.specs.Then as shared;

use crate::context::Context;
use crate::main_fetch::begin;
use crate::place::{Level, Place, Step};
use crate::steps::{asking, finish, going, refused, sending};
use fetch_acts::Act;
use fetch_answers::{Redirection, redirect_request, redirection, refusal_after};
use fetch_requests::hop_of;
use fetch_rules::note_of;
use std::alloc::Global;
use url::Url;
use value_bytes::OutOfMemory;
use value_requests::{Head, NetError, Request};

// HTTP fetch: the request is sent (step 4.3).
pub(crate) fn send(alloc: Global, context: &Context<'_>, level: Level) -> Result<Step, OutOfMemory>
    requires { IsReady level.request.value }
    ensures { Leads context.now result
        (at_level context.now level spec.http_fetch) }
{
    let hop = hop_of(alloc, &level.request, context.cookies)?;
    sending(alloc, context, level, Place::Sending, hop)
}

// The head of the answer is read, unless the link failed.
pub(crate) fn read_head(
    alloc: Global,
    context: &Context<'_>,
    level: Level,
    sent: bool,
) -> Result<Step, OutOfMemory>
    requires { IsReady level.request.value }
    ensures { Leads context.now result
        (at_level context.now level (λ onward context next request.
        spec.read_head onward context next request sent)) }
{
    if sent {
        Ok(going(context, level, Place::HeadReading, Act::ReadHead))
    } else {
        refused(alloc, context, level, NetError::LinkFault)
    }
}

// The head of the answer has come, or a network error: a known host is noted before the head is judged.
pub(crate) fn answered(
    alloc: Global,
    context: &Context<'_>,
    level: Level,
    came: Result<Head, NetError>,
) -> Result<Step, OutOfMemory>
    requires client { IsClient context.now.client }
    requires ready { IsReady level.request.value }
    ensures { Leads context.now result
        (at_level context.now level (λ onward context next request.
        spec.answered onward context next request came)) }
{
    let head = match came {
        Err(error) => return refused(alloc, context, level, error),
        Ok(head) => head,
    };
    match note_of(alloc, &level.request, &head, context.time)? {
        None => judge(alloc, context, level, head),
        Some(op) => asking(alloc, context, level, Place::Noting(head), op),
    }
}

// The answer is judged (HTTP fetch, steps 4.4, 5 and 6): it is refused, goes on as a redirect, or is the response.
pub(crate) fn judge(
    alloc: Global,
    context: &Context<'_>,
    level: Level,
    head: Head,
) -> Result<Step, OutOfMemory>
    requires client { IsClient context.now.client }
    requires ready { IsReady level.request.value }
    ensures { Leads context.now result
        (at_level context.now level (λ onward context next request.
        spec.judged onward next request head (refusal_of request head))) }
{
    if let Some(error) = refusal_after(alloc, &level.request, &head)? {
        return refused(alloc, context, level, error);
    }
    redirect(alloc, context, level, head)
}

// HTTP-redirect fetch: the answer is the response (step 4), is refused (steps 5 to 10), or main fetch goes on at the
// new URL (step 22).
pub(crate) fn redirect(
    alloc: Global,
    context: &Context<'_>,
    level: Level,
    head: Head,
) -> Result<Step, OutOfMemory>
    requires client { IsClient context.now.client }
    requires ready { IsReady level.request.value }
    ensures { Leads context.now result
        (at_level context.now level (λ onward context next request.
        spec.redirected onward next request head (redirection_of request head))) }
{
    match redirection(alloc, &level.request, &head)? {
        Redirection::Stays => finish(alloc, context, level, head),
        Redirection::Refuses(error) => refused(alloc, context, level, error),
        Redirection::Goes(url) => follow(alloc, context, level, head, url),
    }
}

// How many levels owe a clear, with this one.
fn total_owed(owed: u32, owes: bool) -> u32
    requires { owed ≤ most_redirects }
    ensures same { (context : shared.Context) → next_of context result false ≡ next_of context owed owes }
    ensures few { result ≤ owed + 1 }
{
    if owes { owed + 1 } else { owed }
}

// A redirect is followed to a URL: main fetch again, for the request after it.
pub(crate) fn follow(
    alloc: Global,
    context: &Context<'_>,
    level: Level,
    head: Head,
    url: Url,
) -> Result<Step, OutOfMemory>
    requires client { IsClient context.now.client }
    requires few { level.request.value.redirects < most_redirects }
    requires http { IsTrue (is_http_url url) }
    requires ready { IsReady level.request.value }
    ensures { Leads context.now result
        (onward_of context.now level.request.value
        (next_of context.now level.owed level.owes) (after_redirect level.request.value head url)) }
{
    let Level {
        request,
        owed,
        owes,
    } = level;
    let mut request = request;
    redirect_request(alloc, &mut request, &head, url)?;
    let level = Level {
        request,
        owed: total_owed(owed, owes),
        owes: false,
    };
    begin(alloc, context, level)
}
