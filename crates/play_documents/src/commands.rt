// Scripts, command by command.
ghost use Rattle.std.specs.Prelude.{◌≡◌, None};
ghost use Rattle.play_documents.specs.Private.Parts.{RuleCameTo};
ghost use Rattle.play_definitions.specs.Standings.{HasSpent, IsReady, Keeps, MayGoOn, standing};
ghost use Rattle.play_documents.specs.Words.{AreValid, IsValidStep, chosen, command_started, limit_before, over_link};
ghost use Rattle.play_documents.specs.Words.{repeated, script_run, step_of};

use crate::asking::{fetch_command, load_command};
use book_calls::Share;
use link_traits::Link;
use play_definitions::{Fetcher, Player};
use script_events::Ending;
use script_filling::holds;
use script_scenarios::{Command, Script, Test};
use value_bytes::OutOfMemory;

// One of two scripts, by a condition on the last result.
#[cycle(script)]
fn choice<F: Fetcher, S: Share, L: Link>(
    fetcher: &F,
    player: &mut Player<'_, '_, '_, '_, '_, S, L>,
    test: &Test,
    part: &Script,
    other: &Script,
) -> Result<Option<Ending>, OutOfMemory>
    requires ready { IsReady S.belongs player.old }
    requires valid { AreValid part.now × AreValid other.now }
    requires goes { MayGoOn (standing S.account L.told player.old) }
    ensures came { RuleCameTo (over_link L.serves)
        (λ lent. chosen test.now (script_run lent part.now) (script_run lent other.now))
        (standing S.account L.told player.old) result (standing S.account L.told player.new) }
    ensures spent { HasSpent (standing S.account L.told player.old) (standing S.account L.told player.new) }
    ensures kept { Keeps S.account S.belongs player.old player.new }
{
    if holds(test, player.running.last()) {
        script(fetcher, player, part)
    } else {
        script(fetcher, player, other)
    }
}

// A script so many times.
#[cycle(script)]
fn repeat<F: Fetcher, S: Share, L: Link>(
    fetcher: &F,
    player: &mut Player<'_, '_, '_, '_, '_, S, L>,
    times: u32,
    part: &Script,
) -> Result<Option<Ending>, OutOfMemory>
    requires ready { IsReady S.belongs player.old }
    requires valid { AreValid part.now }
    requires goes { MayGoOn (standing S.account L.told player.old) }
    ensures came { RuleCameTo (over_link L.serves) (λ lent. repeated times (script_run lent part.now))
        (standing S.account L.told player.old) result (standing S.account L.told player.new) }
    ensures spent { HasSpent (standing S.account L.told player.old) (standing S.account L.told player.new) }
    ensures kept { Keeps S.account S.belongs player.old player.new }
{
    for _i in 0..times {
        let ending = script(fetcher, player, part)?;
        if ending.is_some() {
            return Ok(ending);
        }
    }
    Ok(None)
}

// One command, before which the run has reached no limit.
#[cycle(script)]
fn play_command<F: Fetcher, S: Share, L: Link>(
    fetcher: &F,
    player: &mut Player<'_, '_, '_, '_, '_, S, L>,
    command: &Command,
) -> Result<Option<Ending>, OutOfMemory>
    requires ready { IsReady S.belongs player.old }
    requires valid { IsValidStep (step_of command.now) }
    requires limit { limit_before (step_of command.now) player.old.running.now ≡ None }
    requires goes { MayGoOn (standing S.account L.told player.old) }
    ensures came { RuleCameTo (over_link L.serves) (λ lent. command_started lent (step_of command.now))
        (standing S.account L.told player.old) result (standing S.account L.told player.new) }
    ensures spent { HasSpent (standing S.account L.told player.old) (standing S.account L.told player.new) }
    ensures kept { Keeps S.account S.belongs player.old player.new }
{
    match command {
        Command::Fetch(init) => fetch_command(fetcher, player, init.get()),
        Command::Load(init) => load_command(fetcher, player, init),
        Command::Wait(seconds) => {
            player.running.wait(*seconds);
            Ok(None)
        }
        Command::Repeat(times, part) => {
            player.running.start();
            repeat(fetcher, player, *times, part)
        }
        Command::If(test, part, other) => {
            player.running.start();
            choice(fetcher, player, test, part, other)
        }
    }
}

/// Plays the commands of a script, in order, to its end or up to a limit, with the scripts inside them. The run may go
/// on: its fetches and loads are few enough, the calls of the book that are left suffice, and nothing is to come over
/// the link. It gives the ending that a limit brings, or none. `OutOfMemory` where memory was refused: then the script
/// came to some place.
#[cycle(script)]
pub(crate) fn script<F: Fetcher, S: Share, L: Link>(
    fetcher: &F,
    player: &mut Player<'_, '_, '_, '_, '_, S, L>,
    script: &Script,
) -> Result<Option<Ending>, OutOfMemory>
    requires ready { IsReady S.belongs player.old }
    requires valid { AreValid script.now }
    requires goes { MayGoOn (standing S.account L.told player.old) }
    ensures came { RuleCameTo (over_link L.serves) (λ lent. script_run lent script.now)
        (standing S.account L.told player.old) result (standing S.account L.told player.new) }
    ensures spent { HasSpent (standing S.account L.told player.old) (standing S.account L.told player.new) }
    ensures kept { Keeps S.account S.belongs player.old player.new }
{
    for command in script.as_slice() {
        let limit = player.running.limit_before(command);
        if limit.is_some() {
            return Ok(limit);
        }
        let ending = play_command(fetcher, player, command)?;
        if ending.is_some() {
            return Ok(ending);
        }
    }
    Ok(None)
}
