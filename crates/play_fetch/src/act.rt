// One act of a fetch.
ghost use Rattle.std.specs.Prelude.{◌+◌, ◌<◌, ◌≡◌, ◌≤◌, IfOk, IsTrue, OnErr};
ghost use Rattle.play_fetch.specs.Private.Going.{CanAnswer, IsRefusedCall};
ghost use Rattle.play_definitions.specs.Standings.{IsReady, Keeps, world};
ghost use Rattle.play_fetch.specs.Words.{Ask, InRange, asks, fits, over_link, price_of};
ghost use Rattle.play_definitions.specs.Worlds.{IsBookCall, KeepsPass, WorldAnswers, WorldRefused, outside_of};

use book_calls::{Op, Share};
use fetch_acts::{Act, Input};
use link_traits::Link;
use play_definitions::{Lent, Player};
use value_bytes::{OutOfMemory, Shared};

// Makes one call of the book, and answers its reply.
fn ask<S: Share>(
    lent: &Lent<'_, S>,
    pass: &mut S::Pass,
    op: &Shared<Op>,
) -> Result<Input, OutOfMemory>
    requires belongs { S.belongs lent.now.share.now pass.old }
    requires range { InRange op.now }
    requires left { 0 < (S.account pass.old).left }
    ensures asked { IfOk result (λ input. IsBookCall (S.account pass.old).document op.now input (S.account pass.old).own
        (S.account pass.new).own (S.account pass.old).left (S.account pass.new).left) }
    ensures fits { IfOk result (λ input. IsTrue (fits (Ask op.now) input)) }
    ensures refused { OnErr result (IsRefusedCall (S.account pass.old).own (S.account pass.new).own
        (S.account pass.old).left (S.account pass.new).left) }
    ensures kept { KeepsPass S.account (S.belongs lent.now.share.now) 1 pass.old pass.new }
{
    let op = op.share()?;
    let reply = lent.share.call(*lent.alloc, pass, op)?;
    Ok(Input::Replied(reply))
}

// Does an act: a call of the book, what the link does for a request, or a word to the document.
pub(crate) fn answer<S: Share, L: Link>(
    player: &mut Player<'_, '_, '_, '_, '_, S, L>,
    act: &Act,
) -> Result<Input, OutOfMemory>
    requires ready { IsReady S.belongs player.old }
    requires can { CanAnswer act.now (world S.account L.told player.old).left }
    ensures came { IfOk result (λ input. WorldAnswers (over_link L.serves) player.old.lent.now.limit
        (S.account player.old.pass.now).document (world S.account L.told player.old) act.now input
        (world S.account L.told player.new)) }
    ensures fits { IfOk result (λ input. IsTrue (fits act.now input)) }
    ensures refused { OnErr result (WorldRefused (outside_of (world S.account L.told player.old))
        (outside_of (world S.account L.told player.new))) }
    ensures few { (world S.account L.told player.old).left
        ≤ (world S.account L.told player.new).left + price_of asks act.now }
    ensures run { player.new.running.now ≡ player.old.running.now }
    ensures kept { Keeps S.account S.belongs player.old player.new }
{
    let lent = player.lent;
    match act {
        Act::Ask(op) => ask(lent, player.pass, op),
        Act::Send(hop) => player.wire.send(player.link, *lent.alloc, hop.get()),
        Act::ReadHead => player.wire.read_head(player.link, *lent.alloc),
        Act::ReadBody => player.wire.read_body(player.link, *lent.alloc, lent.limit),
        Act::Tell(_) => Ok(Input::Told),
    }
}
