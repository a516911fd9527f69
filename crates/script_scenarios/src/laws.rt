// What threads may share.
ghost use denote.Param.Send.{IsSync};
ghost use Rattle.script_scenarios.specs.contracts.scenario.Scenario.{the_row};

use crate::scenario::Scenario;

// All threads may read a value.
fn shared<T: Sync>(_value: &T)
    ensures { IsSync T.row }
{}

/// All threads may read a scenario. The call does nothing: a crate that has more types about finds no proof of it.
pub fn law_scenario_is_shared(scenario: &Scenario)
    ensures { IsSync the_row }
{
    shared(scenario);
}
