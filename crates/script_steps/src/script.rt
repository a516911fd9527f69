// Scripts, with the scripts inside their commands.
ghost use Rattle.std.specs.Prelude.{decimal};
ghost use Rattle.value_json.specs.Trees.{data_of, trees_of};
ghost use Rattle.script_scenarios.specs.Commands.{step_of};
ghost use Rattle.script_scenarios.specs.Scripts.{no_steps};
ghost use Rattle.value_json.specs.Gives.{Gives, GivesAs};
ghost use Rattle.value_json.specs.Reading.{under, required, optional};
ghost use Rattle.script_steps.specs.Scripts as spec;

use crate::commands::{fetch_command, load_command, refused_command, refused_key, wait_command};
use crate::conditions::Condition;
use script_scenarios::{Command, Script};
use std::alloc::Global;
use value_json::{
    Form, Number, Refused, Tree, Trees, at_segment, only_keys, refused_at, refused_here, required,
};

// How many `repeat` may be inside each other.
const REPEATS: u32 = 8;

// How many `if` may be inside each other.
const IFS: u32 = 16;

const TIMES: Number = Number {
    least: 0,
    most: 1000,
};

// How many commands a list has, so that room is made for them at once.
fn room_for(tree: &Tree<'_, '_>) -> usize {
    let mut count = 0;
    if let Some(items) = tree.items() {
        let mut items = items;
        while let Some(_) = items.next() {
            count = usize::saturating_add(count, 1);
        }
    }
    count
}

// A script, in which at most `repeats` `repeat` and `ifs` `if` are inside each other.
#[cycle(scripts)]
#[tactic(auto, using(crate::proofs::StepLemmas::script_of_is))]
fn script(alloc: Global, tree: &Tree<'_, '_>, repeats: u32, ifs: u32) -> Result<Script, Refused>
    ensures { Gives result (spec.script_of repeats ifs (data_of tree.now)) }
{
    match tree.items() {
        Some(items) => commands(alloc, room_for(tree), items, repeats, ifs),
        None => refused_here(alloc),
    }
}

// The commands of a list, in order.
#[cycle(scripts)]
fn commands(
    alloc: Global,
    room: usize,
    items: Trees<'_, '_>,
    repeats: u32,
    ifs: u32,
) -> Result<Script, Refused>
    ensures { Gives result (spec.steps_in (spec.command_in repeats ifs) (trees_of items.entry)) }
{
    let mut items = items;
    let mut script = Script::with_room(alloc, room)?;
    while let Some(item) = items.next() {
        let next = command_at(alloc, script.len(), &item, repeats, ifs)?;
        script.push(next)?;
    }
    Ok(script)
}

// The command at an index.
#[cycle(scripts)]
fn command_at(
    alloc: Global,
    index: usize,
    item: &Tree<'_, '_>,
    repeats: u32,
    ifs: u32,
) -> Result<Command, Refused>
    ensures { GivesAs step_of result
        (under (decimal index) (spec.command_in repeats ifs (data_of item.now))) }
{
    match command(alloc, item, repeats, ifs) {
        Ok(command) => Ok(command),
        Err(refused) => Err(refused_at(alloc, index, refused)),
    }
}

// A command, told by its key.
#[cycle(scripts)]
fn command(alloc: Global, tree: &Tree<'_, '_>, repeats: u32, ifs: u32) -> Result<Command, Refused>
    ensures { GivesAs step_of result (spec.command_in repeats ifs (data_of tree.now)) }
{
    if tree.get("fetch").is_some() {
        fetch_command(alloc, tree)
    } else if tree.get("load").is_some() {
        load_command(alloc, tree)
    } else if tree.get("wait").is_some() {
        wait_command(alloc, tree)
    } else if tree.get("repeat").is_some() {
        repeat_command(alloc, tree, repeats, ifs)
    } else if tree.get("if").is_some() {
        if_command(alloc, tree, repeats, ifs)
    } else {
        refused_command(alloc)
    }
}

// A script that is repeated.
#[cycle(scripts)]
fn repeat_command(
    alloc: Global,
    tree: &Tree<'_, '_>,
    repeats: u32,
    ifs: u32,
) -> Result<Command, Refused>
    ensures { GivesAs step_of result
        (spec.repeat_command_of (spec.inside_repeat repeats ifs) (data_of tree.now)) }
{
    only_keys(alloc, tree, &["repeat", "do"])?;
    if repeats == 0 {
        return refused_key(alloc, "repeat");
    }
    let times = required(alloc, tree, "repeat", &TIMES)?;
    let script = script_under(alloc, tree, "do", repeats - 1, ifs)?;
    Ok(Command::Repeat(times as u32, script))
}

// One of two scripts, by a condition.
#[cycle(scripts)]
fn if_command(
    alloc: Global,
    tree: &Tree<'_, '_>,
    repeats: u32,
    ifs: u32,
) -> Result<Command, Refused>
    ensures { GivesAs step_of result
        (spec.if_command_of (spec.inside_if repeats ifs) (data_of tree.now)) }
{
    only_keys(alloc, tree, &["if", "then", "else"])?;
    if ifs == 0 {
        return refused_key(alloc, "if");
    }
    let test = required(alloc, tree, "if", &Condition)?;
    let script = script_under(alloc, tree, "then", repeats, ifs - 1)?;
    let other = script_or_none(alloc, tree, "else", repeats, ifs - 1)?;
    Ok(Command::If(test, script, other))
}

// The script of a key, which has to be there.
#[cycle(scripts)]
fn script_under(
    alloc: Global,
    tree: &Tree<'_, '_>,
    name: &str,
    repeats: u32,
    ifs: u32,
) -> Result<Script, Refused>
    ensures { Gives result (required name.now (spec.script_of repeats ifs) (data_of tree.now)) }
{
    match tree.get(name) {
        Some(found) => at_segment(alloc, name, script(alloc, &found, repeats, ifs)),
        None => at_segment(alloc, name, refused_here(alloc)),
    }
}

// The script of a key, or an empty one where the key is not there.
#[cycle(scripts)]
fn script_or_none(
    alloc: Global,
    tree: &Tree<'_, '_>,
    name: &str,
    repeats: u32,
    ifs: u32,
) -> Result<Script, Refused>
    ensures { Gives result
        (optional name.now no_steps (spec.script_of repeats ifs) (data_of tree.now)) }
{
    match tree.get(name) {
        Some(found) => at_segment(alloc, name, script(alloc, &found, repeats, ifs)),
        None => Ok(Script::new(alloc)),
    }
}

/// The script of a document: a list of commands, in which at most eight `repeat` and at most 16 `if`
/// are inside each other. A value that is no list is refused at its own place, and else the first
/// bad command, in order, under its number, at the place that its table says: a command that has
/// none of the keys `fetch`, `load`, `wait`, `repeat` and `if`, or one that does not belong beside
/// the first of them, at its own place; a `repeat` or an `if` that is too deep, at that key; a
/// required key that is missing, and a value that is not taken, at the key or below it.
#[derive(Drop)]
pub struct DocumentScript;

impl Form for DocumentScript {
    type Out = Script;

    ghost reads = { λ _. spec.document_script_of };

    fn read(&self, alloc: Global, tree: &Tree<'_, '_>) -> Result<Script, Refused> {
        script(alloc, tree, REPEATS, IFS)
    }
}
