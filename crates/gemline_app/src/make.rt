//! Made rounds, carried out over a tool and its host.

ghost use Rattle.std.specs.Prelude.{◌≡◌, ◌++◌, ◌∷◌, [], IfOk, OnOk};
ghost use Rattle.equipment_tables.specs.Plan.{PlansFit, function_of};
ghost use Rattle.gemline_app.specs.Make.{MakeComes, WereMade, made_equipment, made_line, made_plans, made_spooled, made_variable, made_vars};
ghost use Rattle.gl_base.specs.Told.{sink_told};

use crate::outcome::Outcome;
use crate::replay::outcome_of_end;
use equipment_tables::{EquipmentPlan, HostPlan};
use gem_remote::RemotePlan;
use gem_shapes::RuleEntry;
use gem_states::ControlState;
use gem_vars::{VariablePlan, VarsPlan};
use gl_base::{NoMemory, Row, Sink};
use line_end::{LinePlan, Times};
use line_world::Plans;
use secs_items::Item;
use std::alloc::Global;

/// Writes the summary of so many made rounds, over a plan that has one variable and one event, and each other key as
/// where a plan file doesn't say it.
pub(crate) fn make<W: Sink>(alloc: Global, rounds: u32, out: &mut W) -> Outcome
    ensures { MakeComes rounds
        (sink_told W.Sink out.old out.new)
        result }
{
    match made_plans(alloc) {
        Ok(plans) => make_over(alloc, &plans, rounds, out),
        Err(NoMemory) => Outcome::NoMemory,
    }
}

// Writes the summary of so many rounds over these plans.
fn make_over<W: Sink>(alloc: Global, plans: &Plans, rounds: u32, out: &mut W) -> Outcome
    requires { PlansFit plans.now }
    ensures { WereMade plans.now rounds
        (sink_told W.Sink out.old out.new)
        result }
{
    outcome_of_end(line_world::make(alloc, plans, rounds, out))
}

// The plans of the rounds.
fn made_plans(alloc: Global) -> Result<Plans, NoMemory>
    ensures { IfOk result (λ plans. plans ≡ made_plans) }
{
    let equipment = made_equipment(alloc)?;
    Ok(Plans {
        equipment,
        host: HostPlan {
            line: made_line(),
            enable: true,
        },
        slots: 16,
    })
}

fn made_equipment(alloc: Global) -> Result<EquipmentPlan, NoMemory>
    ensures { IfOk result (λ plan. plan ≡ made_equipment) }
{
    let mdln = Row::of(alloc, b"GEMLINE")?;
    let softrev = Row::of(alloc, b"1")?;
    let spooled = made_spooled(alloc)?;
    let vars = made_vars(alloc)?;
    let events = Row::of(alloc, &[1])?;
    Ok(EquipmentPlan {
        line: made_line(),
        mdln,
        softrev,
        enable: true,
        control: ControlState::Remote,
        spooled,
        vars,
        events,
        alarms: Row::new(alloc),
        remote: RemotePlan {
            commands: Row::new(alloc),
            terminals: 1,
        },
    })
}

fn made_line() -> LinePlan
    ensures { result ≡ made_line }
{
    LinePlan {
        device: 0,
        times: Times {
            t1: 500,
            t2: 10_000,
            rty: 3,
        },
        t3: 45_000,
        t4: 45_000,
        max_body: 1_048_576,
    }
}

fn made_spooled(alloc: Global) -> Result<Row<RuleEntry>, NoMemory>
    ensures { IfOk result (λ entries. entries ≡ made_spooled) }
{
    let mut entries = Row::new(alloc);
    push_function(alloc, 5, 1, &mut entries)?;
    push_function(alloc, 6, 11, &mut entries)?;
    push_function(alloc, 10, 1, &mut entries)?;
    Ok(entries)
}

fn push_function(
    alloc: Global,
    stream: u8,
    function: u8,
    entries: &mut Row<RuleEntry>,
) -> Result<(), NoMemory>
    ensures { OnOk result (entries.new ≡ entries.old ++ function_of stream function ∷ []) }
{
    let functions = Row::of(alloc, &[function])?;
    entries.push(RuleEntry { stream, functions })
}

fn made_vars(alloc: Global) -> Result<VarsPlan, NoMemory>
    ensures { IfOk result (λ vars. vars ≡ made_vars) }
{
    let value = Item::U4(Row::of(alloc, &[0])?);
    let mut variables = Row::new(alloc);
    variables.push(made_variable(alloc, value))?;
    Ok(VarsPlan {
        variables,
        constants: Row::new(alloc),
        built_in: [10, 1, 1, 0],
    })
}

fn made_variable(alloc: Global, value: Item) -> VariablePlan
    ensures { result ≡ record made_variable { value = value } }
{
    VariablePlan {
        vid: 1,
        name: Row::new(alloc),
        units: Row::new(alloc),
        value,
    }
}
