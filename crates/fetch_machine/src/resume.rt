// The calls of a fetch: it starts, and goes on from what came of its last act.
ghost use Rattle.std.specs.Prelude.{◌≡◌, ◌∷◌, ◌<◌, ◌^◌, IfOk, IsTrue};
ghost use Rattle.fetch_acts.specs.Process.{fits, run};
ghost use Rattle.fetch_definitions.specs.Fetch.{fetch};
ghost use Rattle.fetch_machine.specs.Machine.{Leads, RunsAs, rest, rest_of};
ghost use Rattle.fetch_definitions.specs.Then as spec;
ghost use Rattle.fetch_definitions.specs.Then.{context_of};
ghost use Rattle.value_requests.specs.Requests.{IsClient, IsRequest};

use crate::context::Context;
use crate::http::{answered, judge, read_head, send};
use crate::main_fetch::{begin, matched, tell_blocks, tell_reports};
use crate::place::{Fetching, Level, Place, Step};
use crate::preflight::{covered, judge_preflight, preflight_answered, read_preflight_head};
use crate::steps::{body_read, refused, tell_at_end};
use book_calls::Reply;
use fetch_acts::Input;
use policy_csp::Compiled;
use std::alloc::Global;
use value_bytes::{Boxed, OutOfMemory};
use value_requests::{BodyEnd, Client, Cookies, Head, NetError, Request};

// Whether the book said yes.
fn said_yes(input: &Input) -> bool
    ensures { result ≡ spec.said_yes input.now }
{
    matches!(input, Input::Replied(Reply::Yes))
}

// Whether the request was sent.
fn was_sent(input: &Input) -> bool
    ensures { result ≡ spec.was_sent input.now }
{
    matches!(input, Input::Sent)
}

// The head that an input brings, or the network error in its place.
fn head_of(input: Input) -> Result<Head, NetError>
    ensures { result ≡ spec.head_of input }
{
    match input {
        Input::HeadIs(head) => Ok(head),
        Input::HeadBad => Err(NetError::BadHead),
        Input::HeadLong => Err(NetError::HeadTooBig),
        _ => Err(NetError::LinkFault),
    }
}

// How the body came to its end.
fn body_of(input: Input) -> BodyEnd
    ensures { result ≡ spec.body_of input }
{
    match input {
        Input::BodyIs(end) => end,
        _ => BodyEnd::Null,
    }
}

impl Fetching {
    /// Begins a fetch of a request for a client, with its policies and a table of cookies, at a time in
    /// seconds (Fetch, section 4.1, "main fetch"). The time is below 2^48. What is done first is told, or
    /// the outcome.
    pub fn start(
        alloc: Global,
        request: Request,
        client: &Client,
        policies: &Compiled,
        cookies: &Cookies,
        now: u64,
    ) -> Result<Step, OutOfMemory>
        requires request { IsRequest request }
        requires client { IsClient client.now }
        requires timely { now < 2 ^ 48 }
        ensures process { Leads (context_of client.now policies.now cookies.now now) result
            (fetch (context_of client.now policies.now cookies.now now) request) }
        ensures runs { IfOk result (λ step. RunsAs (context_of client.now policies.now cookies.now now) step
            (run (fetch (context_of client.now policies.now cookies.now now) request))) }
    {
        let request = Boxed::new(alloc, request)?;
        Fetching::start_boxed(alloc, request, client, policies, cookies, now)
    }

    /// The same with a request in a place of its own, where it stays.
    pub fn start_boxed(
        alloc: Global,
        request: Boxed<Request>,
        client: &Client,
        policies: &Compiled,
        cookies: &Cookies,
        now: u64,
    ) -> Result<Step, OutOfMemory>
        requires request { IsRequest request }
        requires client { IsClient client.now }
        requires timely { now < 2 ^ 48 }
        ensures process { Leads (context_of client.now policies.now cookies.now now) result
            (fetch (context_of client.now policies.now cookies.now now) request) }
        ensures runs { IfOk result (λ step. RunsAs (context_of client.now policies.now cookies.now now) step
            (run (fetch (context_of client.now policies.now cookies.now now) request))) }
    {
        let context = Context {
            client,
            policies,
            cookies,
            time: now,
        };
        let level = Level {
            request: request.into_box(),
            owed: 0,
            owes: false,
        };
        begin(alloc, &context, level)
    }

    /// Goes on from the input that followed the last act, with the client, the policies and the cookies that
    /// this call is lent, at the time of the start. After `OutOfMemory` the fetch is gone.
    #[inline(always)]
    pub fn resume(
        self,
        alloc: Global,
        client: &Client,
        policies: &Compiled,
        cookies: &Cookies,
        input: Input,
    ) -> Result<Step, OutOfMemory>
        requires client { IsClient client.now }
        requires fits { IsTrue (fits self.last.value input) }
        ensures process { Leads (context_of client.now policies.now cookies.now self.now) result
            (rest (context_of client.now policies.now cookies.now self.now) self input) }
        ensures runs { IfOk result (λ step. RunsAs (context_of client.now policies.now cookies.now self.now)
            step (λ tape. rest_of (context_of client.now policies.now cookies.now self.now) self
            (input ∷ tape))) }
    {
        let context = Context {
            client,
            policies,
            cookies,
            time: self.now,
        };
        self.go_on(alloc, &context, input)
    }

    // Goes on from an input, whatever it is. It is called once, by `resume`, and a fetch is large to hand over.
    #[inline(always)]
    fn go_on(self, alloc: Global, context: &Context<'_>, input: Input) -> Result<Step, OutOfMemory>
        requires { IsClient context.now.client }
        ensures { Leads context.now result (rest context.now self input) }
    {
        let Fetching {
            now: _,
            level,
            place,
            last: _,
        } = self;
        match place {
            Place::Reporting(violations, at) => tell_reports(alloc, context, level, violations, at),
            Place::Blocking(violations, at) => tell_blocks(alloc, context, level, violations, at),
            Place::Matching => matched(alloc, context, level, said_yes(&input)),
            Place::Covering => covered(alloc, context, level, said_yes(&input)),
            Place::PreflightSending => read_preflight_head(alloc, context, level, was_sent(&input)),
            Place::PreflightReading => preflight_answered(alloc, context, level, head_of(input)),
            Place::PreflightNoting(checked) => judge_preflight(alloc, context, level, checked),
            Place::Learning => send(alloc, context, level),
            Place::Sending => read_head(alloc, context, level, was_sent(&input)),
            Place::HeadReading => answered(alloc, context, level, head_of(input)),
            Place::Noting(head) => judge(alloc, context, level, head),
            Place::Ending(violations, at, ended) => tell_at_end(
                alloc,
                context,
                level,
                violations,
                at,
                ended.into_inner(),
            ),
            Place::BodyReading(response) => body_read(
                alloc,
                level,
                response.into_inner(),
                body_of(input),
            ),
            Place::Clearing(error) => refused(alloc, context, level, error),
        }
    }
}
