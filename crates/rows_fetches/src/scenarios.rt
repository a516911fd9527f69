// Scenarios.
ghost use Rattle.std.specs.Prelude.{IfOk};
ghost use Rattle.script_scenarios.specs.Valid.{IsValid};

use rows_shell::{Failed, Held};
use script_reading::read_scenario;
use script_scenarios::Scenario;
use std::alloc::Global;

/// Two documents, each of which asks the book whether b.test is known, and fetches its page.
pub const TWO_DOCUMENTS: &[u8] = b"{\"format\":1,\"documents\":[\
    {\"url\":\"http://a.test/\",\"script\":[{\"fetch\":{\"url\":\"http://b.test/\"}}]},\
    {\"url\":\"http://d.test/\",\"script\":[{\"fetch\":{\"url\":\"http://b.test/\"}}]}]}";

/// The scenario that a text has, which is valid.
pub fn scenario_in(alloc: Global, text: &[u8]) -> Result<Held<Scenario>, Failed>
    ensures { IfOk result (λ held. IsValid held.value) }
{
    match read_scenario(alloc, text)? {
        Ok(scenario) => Ok(Held { value: scenario }),
        Err(_) => Err(Failed),
    }
}
