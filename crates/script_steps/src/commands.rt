// The tables of the commands that have no scripts inside them.
ghost use Rattle.value_json.specs.Trees.{data_of};
ghost use Rattle.std.specs.Prelude.{[], Err};
ghost use Rattle.script_scenarios.specs.Commands.{step_of};
ghost use Rattle.value_json.specs.Gives.{GivesAs};
ghost use Rattle.value_json.specs.Reading.{below};
ghost use Rattle.script_steps.specs.Scripts as spec;

use crate::fetches::FetchTable;
use crate::loads::LoadTable;
use script_scenarios::Command;
use std::alloc::Global;
use value_bytes::{Boxed, Bytes};
use value_json::{Number, Refused, Tree, only_keys, refused_under, required};

const SECONDS: Number = Number {
    least: 0,
    most: 4_294_967_295,
};

// A call of `fetch`.
pub(crate) fn fetch_command(alloc: Global, tree: &Tree<'_, '_>) -> Result<Command, Refused>
    ensures { GivesAs step_of result (spec.fetch_command_of (data_of tree.now)) }
{
    only_keys(alloc, tree, &["fetch"])?;
    let init = required(alloc, tree, "fetch", &FetchTable)?;
    Ok(Command::Fetch(Boxed::new(alloc, init)?))
}

// A load by an element.
pub(crate) fn load_command(alloc: Global, tree: &Tree<'_, '_>) -> Result<Command, Refused>
    ensures { GivesAs step_of result (spec.load_command_of (data_of tree.now)) }
{
    only_keys(alloc, tree, &["load"])?;
    let init = required(alloc, tree, "load", &LoadTable)?;
    Ok(Command::Load(init))
}

// A number of seconds that pass.
pub(crate) fn wait_command(alloc: Global, tree: &Tree<'_, '_>) -> Result<Command, Refused>
    ensures { GivesAs step_of result (spec.wait_command_of (data_of tree.now)) }
{
    only_keys(alloc, tree, &["wait"])?;
    let seconds = required(alloc, tree, "wait", &SECONDS)?;
    Ok(Command::Wait(seconds as u32))
}

// Refuses a command at its own place.
pub(crate) fn refused_command(alloc: Global) -> Result<Command, Refused>
    ensures { GivesAs step_of result (Err []) }
{
    Err(Refused::At(Bytes::new(alloc)))
}

// Refuses a command at a key.
pub(crate) fn refused_key(alloc: Global, name: &str) -> Result<Command, Refused>
    ensures { GivesAs step_of result (Err (below name.now [])) }
{
    let here = Refused::At(Bytes::new(alloc));
    Err(refused_under(alloc, name, here))
}
