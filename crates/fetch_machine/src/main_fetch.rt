// Main fetch up to the response, step by step (Fetch, section 4.1).
ghost use Rattle.std.specs.Prelude.{◌≡◌, true, false, drop, IfOk, Err};
ghost use Rattle.value_requests.specs.declared.error.NetError.TheVariants.{CspRequest};
ghost use Rattle.value_requests.specs.Requests.{IsAtHttp, IsClient};
ghost use Rattle.policy_csp.specs.Violations.{request_violations};
ghost use Rattle.fetch_rules.specs.Referrers.{with_referrer as referred_for};
ghost use Rattle.fetch_rules.specs.Switch.{with_tainting as tainted_with};
ghost use Rattle.fetch_rules.specs.Upgrading.{secured as secured_as, secured_where};
ghost use Rattle.fetch_machine.specs.Machine.{IsLevelWith, Leads, at_level};
ghost use Rattle.fetch_definitions.specs.MainFetch as spec;
ghost use Rattle.fetch_machine.specs.Ready.{IsReady};
ghost use Rattle.fetch_definitions.specs.Then.{tell_all};
ghost use Rattle.fetch_rules.specs.Upgrading.{upgraded as upgraded_for};

use crate::context::Context;
use crate::http::send;
use crate::place::{Level, Place, Step};
use crate::preflight::ask_cache;
use crate::steps::{asking, copied, going, refused};
use fetch_acts::Act;
use fetch_rules::{
    Switch, is_at_http, match_of, refusal_before, secure, set_referrer, set_tainting, switch_of,
    upgrade_request,
};
use policy_csp::Violations;
use std::alloc::Global;
use value_bytes::OutOfMemory;
use value_requests::{NetError, Tainting};

// The level with this response tainting of its request.
fn tainted(level: Level, tainting: Tainting) -> Level
    requires { IsReady level.request.value }
    ensures value { IsLevelWith (tainted_with tainting level.request.value) level result }
    ensures ready { IsReady result.request.value }
{
    let mut level = level;
    set_tainting(&mut level.request, tainting);
    level
}

// The level with its request over https (step 10).
fn secured_level(level: Level) -> Result<Level, OutOfMemory>
    requires { IsReady level.request.value }
    ensures value { IfOk result (IsLevelWith (secured_as level.request.value) level) }
    ensures ready { IfOk result (λ secured. IsReady secured.request.value) }
{
    let mut level = level;
    secure(&mut level.request)?;
    Ok(level)
}

// The level with its request upgraded where it is to be (steps 5 and 6).
fn upgraded_level(context: &Context<'_>, level: Level) -> Result<Level, OutOfMemory>
    requires { IsAtHttp level.request.value }
    ensures value { IfOk result (IsLevelWith
        (upgraded_for context.now.client context.now.policies level.request.value) level) }
    ensures http { IfOk result (λ upgraded. IsAtHttp upgraded.request.value) }
{
    let mut level = level;
    upgrade_request(&mut level.request, context.client, context.policies)?;
    Ok(level)
}

// The level with the referrer policy of its request, and its referrer by that policy (steps 8 and 9).
fn referred(alloc: Global, context: &Context<'_>, level: Level) -> Result<Level, OutOfMemory>
    requires http { IsAtHttp level.request.value }
    requires client { IsClient context.now.client }
    ensures value { IfOk result (IsLevelWith (referred_for context.now.client level.request.value) level) }
    ensures ready { IfOk result (λ referred. IsReady referred.request.value) }
{
    let mut level = level;
    set_referrer(alloc, &mut level.request, context.client)?;
    Ok(level)
}

// The switch of main fetch (step 12).
pub(crate) fn switch(
    alloc: Global,
    context: &Context<'_>,
    level: Level,
) -> Result<Step, OutOfMemory>
    requires ready { IsReady level.request.value }
    requires owes { level.owes ≡ false }
    ensures { Leads context.now result
        (at_level context.now level spec.switched) }
{
    match switch_of(alloc, &level.request)? {
        Switch::Fetches(tainting) => send(alloc, context, tainted(level, tainting)),
        Switch::Preflights => ask_cache(alloc, context, tainted(level, Tainting::Cors)),
        Switch::Refuses(error) => refused(alloc, context, level, error),
    }
}

// The book said whether the host is known (step 10).
pub(crate) fn matched(
    alloc: Global,
    context: &Context<'_>,
    level: Level,
    yes: bool,
) -> Result<Step, OutOfMemory>
    requires ready { IsReady level.request.value }
    requires owes { level.owes ≡ false }
    ensures { Leads context.now result
        (at_level context.now level (λ onward context next request.
        spec.switched onward context next (secured_where yes request))) }
{
    if !yes {
        return switch(alloc, context, level);
    }
    switch(alloc, context, secured_level(level)?)
}

// The book is asked for the host, where there is a question (step 10).
pub(crate) fn ask_host(
    alloc: Global,
    context: &Context<'_>,
    level: Level,
) -> Result<Step, OutOfMemory>
    requires ready { IsReady level.request.value }
    requires owes { level.owes ≡ false }
    ensures { Leads context.now result
        (at_level context.now level spec.matched) }
{
    match match_of(alloc, &level.request, context.time)? {
        None => switch(alloc, context, level),
        Some(op) => asking(alloc, context, level, Place::Matching, op),
    }
}

// The violations of enforced policies from a place on are told, and then the request is blocked (step 7).
pub(crate) fn tell_blocks(
    alloc: Global,
    context: &Context<'_>,
    level: Level,
    violations: Violations,
    at: usize,
) -> Result<Step, OutOfMemory>
    requires http { IsAtHttp level.request.value }
    requires owes { level.owes ≡ false }
    ensures { Leads context.now result
        (at_level context.now level
        (λ onward context next request. tell_all request (drop at violations)
        (next request (Err CspRequest)))) }
{
    if at >= violations.len() {
        return refused(alloc, context, level, NetError::CspRequest);
    }
    let violation = copied(alloc, violations.at(at))?;
    let place = Place::Blocking(violations, at + 1);
    Ok(going(context, level, place, Act::Tell(violation)))
}

// Enforced policies that are violated block the request (step 7).
fn check_policies(alloc: Global, context: &Context<'_>, level: Level) -> Result<Step, OutOfMemory>
    requires client { IsClient context.now.client }
    requires http { IsAtHttp level.request.value }
    requires owes { level.owes ≡ false }
    ensures { Leads context.now result (at_level context.now level
        (λ onward context next request. spec.unless_violated onward context next request
        (request_violations context.policies request context.client.origin true))) }
{
    let origin = &context.client.origin;
    let violations = context
        .policies
        .check_request(alloc, &level.request, origin, true)?;
    if violations.is_empty() {
        ask_host(alloc, context, referred(alloc, context, level)?)
    } else {
        tell_blocks(alloc, context, level, violations, 0)
    }
}

// A bad port, mixed content and enforced policies block the request, in this order (step 7).
fn check(alloc: Global, context: &Context<'_>, level: Level) -> Result<Step, OutOfMemory>
    requires client { IsClient context.now.client }
    requires http { IsAtHttp level.request.value }
    requires owes { level.owes ≡ false }
    ensures { Leads context.now result
        (at_level context.now level spec.checked) }
{
    match refusal_before(&level.request, context.client) {
        Some(error) => refused(alloc, context, level, error),
        None => check_policies(alloc, context, level),
    }
}

// The violations of report-only policies from a place on are told (step 4), and then the request is upgraded and
// checked.
pub(crate) fn tell_reports(
    alloc: Global,
    context: &Context<'_>,
    level: Level,
    violations: Violations,
    at: usize,
) -> Result<Step, OutOfMemory>
    requires client { IsClient context.now.client }
    requires http { IsAtHttp level.request.value }
    requires owes { level.owes ≡ false }
    ensures { Leads context.now result
        (at_level context.now level
        (λ onward context next request. tell_all request (drop at violations)
        (spec.checked onward context next (upgraded_for context.client context.policies request)))) }
{
    if at < violations.len() {
        let violation = copied(alloc, violations.at(at))?;
        let place = Place::Reporting(violations, at + 1);
        return Ok(going(context, level, place, Act::Tell(violation)));
    }
    check(alloc, context, upgraded_level(context, level)?)
}

// Main fetch (Fetch, section 4.1); the steps in this file are its own.
pub(crate) fn begin(alloc: Global, context: &Context<'_>, level: Level) -> Result<Step, OutOfMemory>
    requires client { IsClient context.now.client }
    requires owes { level.owes ≡ false }
    ensures { Leads context.now result
        (at_level context.now level spec.main_fetch) }
{
    if !is_at_http(&level.request) {
        return refused(alloc, context, level, NetError::Scheme);
    }
    let origin = &context.client.origin;
    let violations = context
        .policies
        .check_request(alloc, &level.request, origin, false)?;
    tell_reports(alloc, context, level, violations, 0)
}
