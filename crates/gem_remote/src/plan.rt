//! The remote commands and the terminals as they are planned, and the look-up of commands and parameters by name.

ghost use Rattle.std.specs.Prelude.{◌≡◌, ◌↔◌, IfOk, IsTrue, bytes_eq};
ghost use Rattle.std.specs.List.{IsDistinct, find, list_any};
ghost use Rattle.std.specs.Option.{option_copied};
ghost use Rattle.gem_remote.specs.Plan.{RemoteFits, has_cpname, has_name, names_of};

use gl_base::{NoMemory, Row};
use secs_items::{Item, Kind};
use std::alloc::Global;

// The most commands of a plan.
const MOST: usize = 256;

/// A parameter of a remote command.
#[derive(Debug, Drop)]
pub struct ParamPlan {
    /// CPNAME.
    pub name: Row<u8>,
    /// The kind that CPVAL must have.
    pub kind: Kind,
    /// The values that CPVAL may have; where there is none, all.
    pub values: Row<Item>,
}

/// A remote command.
#[derive(Debug, Drop)]
pub struct CommandPlan {
    /// RCMD.
    pub name: Row<u8>,
    /// Whether it is carried out after the answer.
    pub later: bool,
    pub params: Row<ParamPlan>,
}

/// The remote commands, and how many terminals there are.
#[derive(Debug, Drop)]
pub struct RemotePlan {
    pub commands: Row<CommandPlan>,
    pub terminals: u8,
}

impl ParamPlan {
    fn copy(&self, alloc: Global) -> Result<ParamPlan, NoMemory>
        ensures { IfOk result (λ copy. copy ≡ self.now) }
    {
        let mut values = Row::new(alloc);
        for value in self.values.as_slice() {
            values.push(value.copy(alloc)?)?;
        }
        Ok(ParamPlan {
            name: Row::of(alloc, self.name.as_slice())?,
            kind: self.kind,
            values,
        })
    }
}

impl CommandPlan {
    fn copy(&self, alloc: Global) -> Result<CommandPlan, NoMemory>
        ensures { IfOk result (λ copy. copy ≡ self.now) }
    {
        let mut params = Row::new(alloc);
        for param in self.params.as_slice() {
            params.push(param.copy(alloc)?)?;
        }
        Ok(CommandPlan {
            name: Row::of(alloc, self.name.as_slice())?,
            later: self.later,
            params,
        })
    }

    /// The first parameter of this name.
    pub(crate) fn param(&self, name: &[u8]) -> Option<&ParamPlan>
        ensures { option_copied result ≡ find (has_cpname name.now) self.now.params }
    {
        first_param(self.params.as_slice(), name)
    }
}

fn first_param<'a>(params: &'a [ParamPlan], name: &[u8]) -> Option<&'a ParamPlan>
    ensures { option_copied result ≡ find (has_cpname name.now) params.now }
{
    params.iter().find(|param| name == param.name.as_slice())
}

impl RemotePlan {
    /// Whether there are at most 256 commands, and no two have one name.
    pub fn fits(&self) -> bool
        ensures { IsTrue result ↔ RemoteFits self.now }
    {
        self.commands.len() <= MOST && are_distinct(self.commands.as_slice())
    }

    /// An equal plan.
    pub fn copy(&self, alloc: Global) -> Result<RemotePlan, NoMemory>
        ensures { IfOk result (λ copy. copy ≡ self.now) }
    {
        let mut commands = Row::new(alloc);
        for command in self.commands.as_slice() {
            commands.push(command.copy(alloc)?)?;
        }
        Ok(RemotePlan {
            commands,
            terminals: self.terminals,
        })
    }

    /// The command of this name.
    pub(crate) fn command(&self, name: &[u8]) -> Option<&CommandPlan>
        ensures { option_copied result ≡ find (has_name name.now) self.now.commands }
    {
        first_command(self.commands.as_slice(), name)
    }
}

fn first_command<'a>(commands: &'a [CommandPlan], name: &[u8]) -> Option<&'a CommandPlan>
    ensures { option_copied result ≡ find (has_name name.now) commands.now }
{
    commands
        .iter()
        .find(|command| name == command.name.as_slice())
}

fn are_distinct(commands: &[CommandPlan]) -> bool
    ensures { IsTrue result ↔ IsDistinct bytes_eq (names_of commands.now) }
{
    for i in 0..commands.len() {
        if is_one_of(commands.split_at(i + 1).1, commands[i].name.as_slice()) {
            return false;
        }
    }
    true
}

fn is_one_of(commands: &[CommandPlan], name: &[u8]) -> bool
    ensures { result ≡ list_any (has_name name.now) commands.now }
{
    commands
        .iter()
        .any(|command| name == command.name.as_slice())
}
