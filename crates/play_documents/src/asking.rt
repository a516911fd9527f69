// What a script asks for: a fetch, or a load by an element.
ghost use Rattle.std.specs.Prelude.{[], ◌+◌, ◌<◌, ◌∷◌, ◌≡◌, ◌≤◌, IfOk, None, OnErr, OnOk};
ghost use Rattle.play_documents.specs.Private.Parts.{RuleCameTo};
ghost use Rattle.play_definitions.specs.Standings.{HasSpent, IsReady, Keeps, MayGoOn, standing, world};
ghost use Rattle.play_documents.specs.Words.{IsAtEnd, IsClient, IsIdle, IsRequest, IsValidInit, IsValidLoad};
ghost use Rattle.play_documents.specs.Words.{after_events, asked as asks_for, command_started, fetch_step, fetched};
ghost use Rattle.play_documents.specs.Words.{filled_init as filled_fetch, filled_load as load_filled, lent_result};
ghost use Rattle.play_documents.specs.Words.{limit_before, load_step, most_asks, most_commands, most_fetches};
ghost use Rattle.play_documents.specs.Words.{new_load as load_of, new_request as request_of, over_link, started};
ghost use Rattle.play_definitions.specs.Worlds.{outside_of};

use book_calls::Share;
use fetch_requests::{new_load, new_request};
use link_traits::Link;
use play_definitions::{Fetcher, Lent, Player};
use script_events::{Ending, Event};
use script_filling::{filled_init, filled_load, is_plain, is_plain_load};
use script_runs::{fault_event, outcome_event};
use value_bytes::OutOfMemory;
use value_requests::{Destination, Init, LoadInit, Request, TypeFault};

// The request of what a script asks of `fetch`, with the parts of the last result in the place of its placeholders, or
// why there is none (Fetch, sections 5.4 and 5.6).
fn requested<S>(
    lent: &Lent<'_, S>,
    last: Option<&Event>,
    init: &Init,
) -> Result<Result<Request, TypeFault>, OutOfMemory>
    requires client { IsClient lent.now.client.now }
    requires valid { IsValidInit init.now }
    ensures value { IfOk result (λ made. made
        ≡ request_of lent.now.client.now (filled_fetch (lent_result last.entry) init.now)) }
    ensures valid { IfOk result (λ made. IfOk made IsRequest) }
{
    // where there is nothing to fill and to normalise no copy is wanted
    if is_plain(init) {
        return new_request(*lent.alloc, init, lent.client);
    }
    let filled = filled_init(*lent.alloc, last, init)?;
    new_request(*lent.alloc, &filled, lent.client)
}

// The request of what an element loads, the same in its URL (HTML, section 2.5.1).
fn requested_load<S>(
    lent: &Lent<'_, S>,
    last: Option<&Event>,
    init: &LoadInit,
) -> Result<Result<Request, TypeFault>, OutOfMemory>
    requires client { IsClient lent.now.client.now }
    requires valid { IsValidLoad init.now }
    ensures value { IfOk result (λ made. made
        ≡ load_of lent.now.client.now (load_filled (lent_result last.entry) init.now)) }
    ensures valid { IfOk result (λ made. IfOk made IsRequest) }
{
    // where there is nothing to fill no copy is wanted
    if is_plain_load(init) {
        return new_load(*lent.alloc, init, lent.client);
    }
    let filled = filled_load(*lent.alloc, last, init)?;
    new_load(*lent.alloc, &filled, lent.client)
}

// Shows what a fetch or a load came to. Nothing more of its answer is wanted then.
fn end_fetch<S: Share, L: Link>(
    player: &mut Player<'_, '_, '_, '_, '_, S, L>,
    event: Event,
) -> Result<(), OutOfMemory>
    requires ready { IsReady S.belongs player.old }
    ensures ended { OnOk result ((player.new.running.now ≡ after_events (event ∷ []) player.old.running.now)
        × IsIdle (world S.account L.told player.new).exchange) }
    ensures unshown { OnErr result (standing S.account L.told player.new ≡ standing S.account L.told player.old) }
    ensures outside { outside_of (world S.account L.told player.new) ≡ outside_of (world S.account L.told player.old) }
    ensures kept { Keeps S.account S.belongs player.old player.new }
{
    player.running.show(event)?;
    player.wire.close(player.link);
    Ok(())
}

// Shows the request's outcome, or that there is no request. Neither ends the run.
fn request<F: Fetcher, S: Share, L: Link>(
    fetcher: &F,
    player: &mut Player<'_, '_, '_, '_, '_, S, L>,
    kind: Destination,
    made: Result<Request, TypeFault>,
) -> Result<Option<Ending>, OutOfMemory>
    requires ready { IsReady S.belongs player.old }
    requires made { IfOk made IsRequest }
    requires left { most_asks ≤ (world S.account L.told player.old).left }
    requires rests { IsAtEnd (world S.account L.told player.old).exchange.left }
    ensures came { RuleCameTo (over_link L.serves) (λ lent. fetched lent kind made)
        (standing S.account L.told player.old) result (standing S.account L.told player.new) }
    ensures few { (world S.account L.told player.old).left ≤ (world S.account L.told player.new).left + most_asks }
    ensures fetches { player.new.running.now.fetches ≡ player.old.running.now.fetches }
    ensures kept { Keeps S.account S.belongs player.old player.new }
{
    match made {
        Err(fault) => {
            player.running.show(fault_event(kind, fault))?;
            Ok(None)
        }
        Ok(request) => {
            let now = player.running.now();
            let outcome = fetcher.fetch(player, request, now)?;
            end_fetch(player, outcome_event(kind, outcome))?;
            Ok(None)
        }
    }
}

// Plays a fetch, or a load of a kind: shows its number, and then what comes of its request.
fn asked<F: Fetcher, S: Share, L: Link>(
    fetcher: &F,
    player: &mut Player<'_, '_, '_, '_, '_, S, L>,
    kind: Destination,
    made: Result<Request, TypeFault>,
) -> Result<Option<Ending>, OutOfMemory>
    requires ready { IsReady S.belongs player.old }
    requires made { IfOk made IsRequest }
    requires limits { (player.old.running.now.commands < most_commands)
        × (player.old.running.now.fetches < most_fetches) }
    requires goes { MayGoOn (standing S.account L.told player.old) }
    ensures came { RuleCameTo (over_link L.serves) (λ lent next begun. asks_for lent kind made next (started begun))
        (standing S.account L.told player.old) result (standing S.account L.told player.new) }
    ensures spent { HasSpent (standing S.account L.told player.old) (standing S.account L.told player.new) }
    ensures kept { Keeps S.account S.belongs player.old player.new }
{
    player.running.start_fetch(kind)?;
    request(fetcher, player, kind, made)
}

// Plays a call of `fetch` (Fetch, section 5.6). The run has reached no limit before it.
pub(crate) fn fetch_command<F: Fetcher, S: Share, L: Link>(
    fetcher: &F,
    player: &mut Player<'_, '_, '_, '_, '_, S, L>,
    init: &Init,
) -> Result<Option<Ending>, OutOfMemory>
    requires ready { IsReady S.belongs player.old }
    requires valid { IsValidInit init.now }
    requires limit { limit_before (fetch_step init.now) player.old.running.now ≡ None }
    requires goes { MayGoOn (standing S.account L.told player.old) }
    ensures came { RuleCameTo (over_link L.serves) (λ lent. command_started lent (fetch_step init.now))
        (standing S.account L.told player.old) result (standing S.account L.told player.new) }
    ensures spent { HasSpent (standing S.account L.told player.old) (standing S.account L.told player.new) }
    ensures kept { Keeps S.account S.belongs player.old player.new }
{
    let made = requested(player.lent, player.running.last(), init)?;
    asked(fetcher, player, Destination::Fetch, made)
}

// Plays a load by an element, the same (HTML, section 2.5.1).
pub(crate) fn load_command<F: Fetcher, S: Share, L: Link>(
    fetcher: &F,
    player: &mut Player<'_, '_, '_, '_, '_, S, L>,
    init: &LoadInit,
) -> Result<Option<Ending>, OutOfMemory>
    requires ready { IsReady S.belongs player.old }
    requires valid { IsValidLoad init.now }
    requires limit { limit_before (load_step init.now) player.old.running.now ≡ None }
    requires goes { MayGoOn (standing S.account L.told player.old) }
    ensures came { RuleCameTo (over_link L.serves) (λ lent. command_started lent (load_step init.now))
        (standing S.account L.told player.old) result (standing S.account L.told player.new) }
    ensures spent { HasSpent (standing S.account L.told player.old) (standing S.account L.told player.new) }
    ensures kept { Keeps S.account S.belongs player.old player.new }
{
    let made = requested_load(player.lent, player.running.last(), init)?;
    asked(fetcher, player, init.kind, made)
}
