// One fetch, played over a link and a share of the book.
ghost use Rattle.std.specs.Prelude.{◌+◌, ◌<◌, ◌^◌, ◌≡◌, ◌≤◌, IfOk, IsTrue, OnErr, OnOk};
ghost use Rattle.play_definitions.specs.Driving.{DriveCameTo};
ghost use Rattle.play_definitions.specs.Fetched.{FetchCameTo};
ghost use Rattle.play_fetch.specs.Private.Going.{CanAnswer, GoesOn, PartNoted};
ghost use Rattle.play_definitions.specs.Standings.{IsReady, Keeps, lent_setting, standing, world};
ghost use Rattle.play_fetch.specs.Words.{IsAtEnd, IsClient, IsRequest, Leads, after_events, asks, at_time};
ghost use Rattle.play_fetch.specs.Words.{context_of, events_of, fetch, fits, most_asks, over_link, price_of, rest};
ghost use Rattle.play_definitions.specs.Worlds.{KeepsPass, outside};

use crate::act::answer;
use crate::held::Held;
use book_calls::Share;
use fetch_acts::{Act, Input};
use fetch_machine::{Fetching, Step};
use fetch_wire::Wire;
use link_traits::Link;
use play_definitions::{FetchRun, Fetcher, Lent, Player};
use policy_csp::Compiled;
use script_runs::Running;
use std::alloc::Global;
use value_bytes::{Boxed, OutOfMemory};
use value_requests::{Client, Cookies, Outcome, Request};

// Shows what came of an act, and takes the fetch on from its input.
#[inline(always)]
fn take_on<S: Share>(
    lent: &Lent<'_, S>,
    running: &mut Running,
    fetching: Fetching,
    act: Act,
    input: Input,
) -> Result<Step, OutOfMemory>
    requires client { IsClient lent.now.client.now }
    requires fits { IsTrue (fits fetching.last.value input) }
    ensures process { Leads (at_time (lent_setting lent.now) fetching.now) result
        (rest (at_time (lent_setting lent.now) fetching.now) fetching input) }
    ensures noted { OnOk result (running.new ≡ after_events (events_of act input) running.old) }
    ensures cut { OnErr result (PartNoted act input running.old running.new) }
{
    running.show_act(act, &input)?;
    let step = fetching.resume(*lent.alloc, lent.client, lent.policies, lent.cookies, input)?;
    Ok(step)
}

// Does the act that a fetch waits for, shows it, and takes the fetch to its next step.
fn go_on<S: Share, L: Link>(
    player: &mut Player<'_, '_, '_, '_, '_, S, L>,
    fetching: Fetching,
    act: Act,
) -> Result<Step, OutOfMemory>
    requires ready { IsReady S.belongs player.old }
    requires waits { fetching.last.value ≡ act }
    requires can { CanAnswer act (world S.account L.told player.old).left }
    ensures went { GoesOn (over_link L.serves) (at_time (lent_setting player.old.lent.now) fetching.now) fetching
        act (standing S.account L.told player.old) result (standing S.account L.told player.new) }
    ensures few { (world S.account L.told player.old).left
        ≤ (world S.account L.told player.new).left + price_of asks act }
    ensures kept { Keeps S.account S.belongs player.old player.new }
{
    let waiting = Held { value: fetching };
    let asked = Held { value: act };
    let input = answer(player, &asked.value)?;
    let fetching = waiting.into_inner();
    let act = asked.into_inner();
    let step = take_on(player.lent, player.running, fetching, act, input)?;
    Ok(step)
}

// Plays one fetch of a request, to its outcome, at a time in seconds (Fetch, section 4.1), over the wire as it is,
// which the caller hangs up. It makes 126 calls of the book at most.
fn play_fetch<S: Share, L: Link>(
    player: &mut Player<'_, '_, '_, '_, '_, S, L>,
    request: Request,
    now: u64,
) -> Result<Boxed<Outcome>, OutOfMemory>
    requires ready { IsReady S.belongs player.old }
    requires request { IsRequest request }
    requires timely { now < 2 ^ 48 }
    requires left { most_asks ≤ (world S.account L.told player.old).left }
    ensures came { FetchCameTo (over_link L.serves) (fetch (at_time (lent_setting player.old.lent.now) now) request)
        (standing S.account L.told player.old) result (standing S.account L.told player.new) }
    ensures few { (world S.account L.told player.old).left ≤ (world S.account L.told player.new).left + most_asks }
    ensures kept { Keeps S.account S.belongs player.old player.new }
{
    // how many acts were answered, so that the loop ends
    let mut acts: u128 = 0;
    let lent = player.lent;
    // the proof reads off this call that the policies are few
    let _policies = lent.policies.len();
    let mut step = Fetching::start(
        *lent.alloc,
        request,
        lent.client,
        lent.policies,
        lent.cookies,
        now,
    )?;
    loop {
        match step {
            Step::Over(outcome) => return Ok(outcome),
            Step::Going(fetching, act) => {
                acts += 1;
                step = go_on(player, fetching, act)?;
            }
        }
    }
}

/// Plays fetches over the link of the player, and with its pass of the book.
#[derive(Clone, Copy, Debug)]
pub struct OverLink;

impl Fetcher for OverLink {
    fn fetch<S: Share, L: Link>(
        &self,
        player: &mut Player<'_, '_, '_, '_, '_, S, L>,
        request: Request,
        now: u64,
    ) -> Result<Boxed<Outcome>, OutOfMemory> {
        play_fetch(player, request, now)
    }
}

/// Plays one fetch of a request over a link and a share of the book: for a client, with its policies and a table of
/// cookies, at a time in seconds, which is below 2^48, with bodies of so many bytes at most (Fetch, section 4.1). It
/// makes 126 calls of the book at most, which the pass has left.
///
/// Its events and its outcome are those of the fetch over a tape of what the world answers: the reply to a call of the
/// book is that of the entry which the call added to the pass's own; heads and bodies are those of the link's answers,
/// where it tells its state, and its count of faults rises by one with each fault of the tape. At an outcome nothing is
/// to come over the link, where it tells that. Where memory was refused the calls that were made by then stay made, and
/// an answer may be read in part.
pub fn drive_fetch<S: Share, L: Link>(
    alloc: Global,
    request: Request,
    client: &Client,
    policies: &Compiled,
    cookies: &Cookies,
    now: u64,
    body_limit: u32,
    share: &S,
    pass: &mut S::Pass,
    link: &mut L,
) -> Result<FetchRun, OutOfMemory>
    requires asked { IsRequest request × IsClient client.now × (now < 2 ^ 48) }
    requires pass { S.belongs share.now pass.old × (most_asks ≤ (S.account pass.old).left) }
    ensures came { DriveCameTo (over_link L.serves) body_limit (S.account pass.old).document
        (fetch (context_of client.now policies.now cookies.now now) request)
        (outside S.account L.told pass.old link.old) result (outside S.account L.told pass.new link.new) }
    ensures hung_up { IfOk result (λ _. IsAtEnd (L.told link.new).left) }
    ensures pass { KeepsPass S.account (S.belongs share.now) most_asks pass.old pass.new }
{
    let mut wire = Wire::new(alloc, link)?;
    let mut running = Running::new(alloc, 0);
    let lent = Lent {
        alloc: &alloc,
        share,
        client,
        policies,
        cookies,
        limit: body_limit,
    };
    let mut player = Player {
        lent: &lent,
        pass,
        link,
        wire: &mut wire,
        running: &mut running,
    };
    let outcome = play_fetch(&mut player, request, now)?;
    wire.close(link);
    Ok(FetchRun {
        events: running.into_events(),
        outcome,
    })
}
