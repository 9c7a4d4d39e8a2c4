//! What remote commands and texts for terminals are answered. Nothing changes by it.

ghost use Rattle.std.specs.Prelude.{◌≡◌, ◌↔◌, List, Some, IfOk, IsTrue, OnOk};
ghost use Rattle.gem_remote.specs.Commands.{Answers, AnswersFor, HasRefusals, IsAllowed, IsCpack, IsCpackOf, Param, PutsRefusal, ackc10_of, param_item, params_item, refusal_item, remoted_with};
ghost use Rattle.gem_remote.specs.Plan.{RemoteFits};

use crate::plan::{CommandPlan, ParamPlan, RemotePlan};
use gem_shapes::{code_item, pair_item};
use gl_base::{NoMemory, Row};
use secs_items::{Item, ItemView};
use std::alloc::Global;
use std::marker::Model;

/// What a remote command is answered.
#[derive(Debug, Drop)]
pub struct Remoted {
    /// HCACK: 0 done, 1 no such command, 2 not now, 3 a parameter isn't right, 4 to be carried out later.
    pub hcack: u8,
    /// The body of S2F42.
    pub reply: Item,
}

/// The acknowledgement of a text for a terminal.
#[derive(Clone, Copy, Debug, PartialEq, Eq)]
pub enum Ackc10 {
    Accepted,
    /// There is no such terminal.
    NoTerminal,
}

/// The remote commands of the plan, and its terminals.
#[derive(Debug, Drop)]
pub struct Remote {
    pub(crate) plan: RemotePlan,
}

impl Model for Remote {
    ghost use Rattle.gem_remote.specs.contracts.plan.RemotePlan as whole;
    ghost use Rattle.gem_remote.specs.declared.plan.RemotePlan.{RemotePlan};

    ghost Value = { RemotePlan };

    ghost coded = { whole.the_row.coded };

    ghost view = { λ inside. inside.plan };
}

impl Remote {
    /// The plan's commands and terminals. The plan must fit.
    pub fn new(alloc: Global, plan: &RemotePlan) -> Result<Remote, NoMemory>
        requires { RemoteFits plan.now }
        ensures { IfOk result (λ remote. remote ≡ plan.now) }
    {
        Ok(Remote {
            plan: plan.copy(alloc)?,
        })
    }

    /// Answers S2F41, where `params` shows its second part: a list of pairs of CPNAME, a text, and CPVAL.
    ///
    /// HCACK is 2 exactly where `local`; else 1 exactly where the plan has no command of this name; else 3 exactly
    /// where a parameter isn't right; else 4 exactly where the plan says that the command is carried out later; else 0.
    /// With 3 the reply names each parameter that isn't right, in order, with CPACK 1 where the command has none of
    /// its name, else 3 where the value is of another kind than the plan's, else 2 where the plan has values and it is
    /// none of them. With every other HCACK it names none.
    pub fn command(
        &self,
        alloc: Global,
        local: bool,
        name: &[u8],
        params: &ItemView<'_>,
    ) -> Result<Remoted, NoMemory>
        ensures { (all : List Param) → params.now.item ≡ params_item all
            → IfOk result (λ answer. Answers self.now local name.now all answer) }
    {
        if local {
            return answer_of(alloc, 2, Row::new(alloc));
        }
        let Some(command) = self.plan.command(name) else {
            return answer_of(alloc, 1, Row::new(alloc));
        };
        answer(alloc, command, &params.item(alloc)?)
    }

    /// Answers a text for a terminal. `NoTerminal` exactly where `tid` is at least the number of terminals.
    pub fn display(&self, tid: u8) -> Ackc10
        ensures { result ≡ ackc10_of self.now tid }
    {
        if tid < self.plan.terminals {
            Ackc10::Accepted
        } else {
            Ackc10::NoTerminal
        }
    }
}

// The answer to a command that the plan has, with the second part of S2F41.
fn answer(alloc: Global, command: &CommandPlan, params: &Item) -> Result<Remoted, NoMemory>
    ensures { (all : List Param) → params.now ≡ params_item all
        → IfOk result (λ answer. AnswersFor (Some command.now) all answer) }
{
    let refusals = refusals_of(alloc, command, params)?;
    if !refusals.is_empty() {
        answer_of(alloc, 3, refusals)
    } else if command.later {
        answer_of(alloc, 4, refusals)
    } else {
        answer_of(alloc, 0, refusals)
    }
}

// The part of S2F42 on parameters.
fn refusals_of(alloc: Global, command: &CommandPlan, params: &Item) -> Result<Row<Item>, NoMemory>
    ensures { (all : List Param) → params.now ≡ params_item all
        → IfOk result (λ items. HasRefusals command.now.params all items) }
{
    let Item::L(params) = params else {
        return Ok(Row::new(alloc));
    };
    let mut refusals = Row::new(alloc);
    for param in params.as_slice() {
        put_refusal(alloc, command, param, &mut refusals)?;
    }
    Ok(refusals)
}

// Puts the refusal of a parameter, if it isn't right.
fn put_refusal(
    alloc: Global,
    command: &CommandPlan,
    param: &Item,
    refusals: &mut Row<Item>,
) -> Result<(), NoMemory>
    ensures { (one : Param) → param.now ≡ param_item one
        → OnOk result (PutsRefusal command.now.params one refusals.old refusals.new) }
{
    let Item::L(parts) = param else {
        return Ok(());
    };
    let [Item::A(name), value] = parts.as_slice() else {
        return Ok(());
    };
    let cpack = cpack_of(command, name.as_slice(), value);
    if cpack != 0 {
        refusals.push(refusal(alloc, name.as_slice(), cpack)?)?;
    }
    Ok(())
}

pub(crate) fn cpack_of(command: &CommandPlan, name: &[u8], value: &Item) -> u8
    ensures { IsCpack command.now.params (record { name = name.now; value = value.now }) result }
{
    match command.param(name) {
        None => 1,
        Some(plan) => cpack_by(plan, value),
    }
}

fn cpack_by(plan: &ParamPlan, value: &Item) -> u8
    ensures { IsCpackOf plan.now value.now result }
{
    if value.kind() != plan.kind {
        3
    } else if !is_allowed(plan.values.as_slice(), value) {
        2
    } else {
        0
    }
}

fn is_allowed(values: &[Item], value: &Item) -> bool
    ensures { IsTrue result ↔ IsAllowed values.now value.now }
{
    if values.is_empty() {
        return true;
    }
    for allowed in values {
        if allowed.equals(value) {
            return true;
        }
    }
    false
}

fn refusal(alloc: Global, name: &[u8], cpack: u8) -> Result<Item, NoMemory>
    ensures { IfOk result (λ refusal. refusal ≡ refusal_item (name.now, cpack)) }
{
    let name = Item::text(alloc, name)?;
    pair_item(alloc, name, code_item(alloc, cpack)?)
}

// The answer with this HCACK, and with these items on parameters.
fn answer_of(alloc: Global, hcack: u8, refusals: Row<Item>) -> Result<Remoted, NoMemory>
    ensures { IfOk result (λ answer. answer ≡ remoted_with hcack refusals) }
{
    let code = code_item(alloc, hcack)?;
    let reply = pair_item(alloc, code, Item::L(refusals))?;
    Ok(Remoted { hcack, reply })
}
