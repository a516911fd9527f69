// The commands of a script, with the scripts and conditions inside them.
use std::alloc::Global;
use std::marker::Model;
use value_bytes::{Boxed, Bytes, OutOfMemory};
use value_requests::{Init, LoadInit};

/// A condition on the last result of a script.
#[derive(Drop)]
pub enum Test {
    /// The status of the result is 200 to 299.
    IsOk,
    /// The result is an error: a network error, or there was no request.
    IsError,
    /// The type of the result has this name.
    TypeIs(Bytes),
    /// The result has this status.
    StatusIs(u16),
    /// The body of the result is whole, and is these bytes.
    BodyIs(Bytes),
}

/// One command of a script. Its texts may hold templates.
#[derive(Drop)]
#[cycle(script)]
pub enum Command {
    /// A call of `fetch`, in a place of its own, so that a wait takes less room.
    Fetch(Boxed<Init>),
    /// An element loads a resource.
    Load(LoadInit),
    /// This many seconds pass.
    Wait(u32),
    /// A script is done this many times.
    Repeat(u32, Script),
    /// The first script where the condition holds, else the second.
    If(Test, Script, Script),
}

/// The commands of a script, in order, seen as its steps.
#[derive(Drop)]
#[cycle(script)]
pub struct Script {
    commands: Vec<Command>,
}

impl Model for Script {
    ghost use Rattle.script_scenarios.specs.Scripts.{Steps};
    ghost use Rattle.script_scenarios.specs.Private.Coding.{steps_code};
    ghost use Rattle.script_scenarios.specs.Depth.{steps_size};

    ghost Value = { Steps };

    ghost coded = { steps_code };

    ghost use Rattle.script_scenarios.specs.Commands.{steps_inside};

    ghost view = { steps_inside };

    ghost size = { steps_size };

    ghost use Rattle.std.proofs.Common.{arith};
    ghost use Rattle.script_scenarios.specs.Private.Nesting.{most-steps_size};

    ghost size_decreases = { λ a h. omega (arith, most-steps_size a.commands.items) };
}

impl Script {
    ghost use Rattle.std.specs.Prelude.{◌≡◌, ◌<◌, Some, IfOk, OnOk, OnErr};
    ghost use Rattle.script_scenarios.specs.Scripts.{no_steps, count, and_step, step_at};
    ghost use Rattle.script_scenarios.specs.Commands.{step_of, steps_of};

    /// A script without commands. It takes no memory.
    pub fn new(alloc: Global) -> Script
        ensures { result ≡ no_steps }
    {
        Script {
            commands: Vec::new(alloc),
        }
    }

    /// A script without commands, with room for so many.
    pub fn with_room(alloc: Global, count: usize) -> Result<Script, OutOfMemory>
        ensures { IfOk result (λ script. script ≡ no_steps) }
    {
        Ok(Script {
            commands: Vec::with_capacity(alloc, count)?,
        })
    }

    /// Adds a command at the end. A refused one leaves the script as it was.
    pub fn push(&mut self, command: Command) -> Result<(), OutOfMemory>
        ensures ok { OnOk result (self.new ≡ and_step self.old (step_of command)) }
        ensures err { OnErr result (self.new ≡ self.old) }
    {
        self.commands.push(command)?;
        Ok(())
    }

    /// How many commands there are.
    pub fn len(&self) -> usize
        ensures { result ≡ count self.now }
    {
        self.commands.len()
    }

    /// The command at an index below the number of commands.
    pub fn at(&self, index: usize) -> &Command
        requires { index < count self.now }
        ensures { step_at index self.now ≡ Some (step_of result.now) }
    {
        &self.commands[index]
    }

    /// The commands, in order.
    pub fn as_slice(&self) -> &[Command]
        ensures { steps_of result.now ≡ self.now }
    {
        self.commands.as_slice()
    }
}
