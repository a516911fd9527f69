// Laws of scenarios and plays: a scenario of the first format in the second, what determines a play, and what no
// document may learn.
ghost use Rattle.play_laws.specs.Hidden as hidden;
ghost use Rattle.play_laws.specs.Migration.{IsMigratedAlike};
ghost use Rattle.play_laws.specs.Once as once;
ghost use Rattle.script_scenarios.specs.declared.scenario.Scenario.{Scenario};
ghost use Rattle.serde_json.specs.Data.{Members};

use link_http1::law_one_end;
use link_traits::Link;

/// A tree that is read as a scenario in format 1 is read as the same scenario where its `format` is
/// the number 2 and it has the key `body_limit` with 262,144, whatever else it holds.
pub fn law_migrated()
    ensures { (members : Members) (scenario : Scenario) → IsMigratedAlike members scenario }
{}

/// A law: where its links tell and do not fail, a scenario and a history determine a play: the tape of each document's
/// run, and its transcript. The call does nothing.
pub fn law_one_play<L: Link>()
    ensures tapes { once.TapesOnce L.State }
    ensures plays { once.PlaysOnce }
{
    law_one_end();
}

/// A law: a scenario has at most one play over its own servers whose history is in order of documents, as that of a
/// play in turn is. The call does nothing.
pub fn law_one_in_order()
    ensures { once.OnceInOrder }
{
    law_one_end();
}

/// A law: where its links tell and do not fail, a document's runs in two histories make the same calls, up to the first
/// that is replied to otherwise. The call does nothing.
pub fn law_same_calls<L: Link>()
    ensures { once.CallsFollow L.State }
{
    law_one_end();
}

/// A law: of an opaque response, as of a load from another origin, a document may learn neither the status nor another
/// header than those that a known host and the checks of the response rest on; and of a response that is refused none
/// but those of its check. The call does nothing.
pub fn law_hidden()
    ensures opaque { hidden.HidesOpaque }
    ensures refused { hidden.HidesRefused }
{}
