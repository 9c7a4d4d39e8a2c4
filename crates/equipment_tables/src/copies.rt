//! Copies of plans.

ghost use Rattle.std.specs.Prelude.{◌≡◌, IfOk};

use crate::plan::EquipmentPlan;
use gem_alarms::AlarmPlan;
use gem_shapes::RuleEntry;
use gem_vars::{ConstantPlan, VariablePlan, VarsPlan};
use gl_base::{NoMemory, Row};
use std::alloc::Global;

impl EquipmentPlan {
    /// An equal plan.
    pub fn copy(&self, alloc: Global) -> Result<EquipmentPlan, NoMemory>
        ensures { IfOk result (λ copy. copy ≡ self.now) }
    {
        Ok(EquipmentPlan {
            line: self.line,
            mdln: Row::of(alloc, self.mdln.as_slice())?,
            softrev: Row::of(alloc, self.softrev.as_slice())?,
            enable: self.enable,
            control: self.control,
            spooled: copy_rule(alloc, self.spooled.as_slice())?,
            vars: copy_vars(alloc, &self.vars)?,
            events: Row::of(alloc, self.events.as_slice())?,
            alarms: copy_alarms(alloc, self.alarms.as_slice())?,
            remote: self.remote.copy(alloc)?,
        })
    }
}

fn copy_rule(alloc: Global, entries: &[RuleEntry]) -> Result<Row<RuleEntry>, NoMemory>
    ensures { IfOk result (λ copy. copy ≡ entries.now) }
{
    let mut copy = Row::new(alloc);
    for entry in entries {
        let functions = Row::of(alloc, entry.functions.as_slice())?;
        copy.push(RuleEntry {
            stream: entry.stream,
            functions,
        })?;
    }
    Ok(copy)
}

fn copy_vars(alloc: Global, plan: &VarsPlan) -> Result<VarsPlan, NoMemory>
    ensures { IfOk result (λ copy. copy ≡ plan.now) }
{
    Ok(VarsPlan {
        variables: copy_variables(alloc, plan.variables.as_slice())?,
        constants: copy_constants(alloc, plan.constants.as_slice())?,
        built_in: plan.built_in,
    })
}

fn copy_variables(alloc: Global, variables: &[VariablePlan]) -> Result<Row<VariablePlan>, NoMemory>
    ensures { IfOk result (λ copy. copy ≡ variables.now) }
{
    let mut copy = Row::new(alloc);
    for variable in variables {
        copy.push(VariablePlan {
            vid: variable.vid,
            name: Row::of(alloc, variable.name.as_slice())?,
            units: Row::of(alloc, variable.units.as_slice())?,
            value: variable.value.copy(alloc)?,
        })?;
    }
    Ok(copy)
}

fn copy_constants(alloc: Global, constants: &[ConstantPlan]) -> Result<Row<ConstantPlan>, NoMemory>
    ensures { IfOk result (λ copy. copy ≡ constants.now) }
{
    let mut copy = Row::new(alloc);
    for constant in constants {
        copy.push(ConstantPlan {
            ecid: constant.ecid,
            name: Row::of(alloc, constant.name.as_slice())?,
            units: Row::of(alloc, constant.units.as_slice())?,
            min: constant.min,
            max: constant.max,
            value: constant.value,
        })?;
    }
    Ok(copy)
}

fn copy_alarms(alloc: Global, alarms: &[AlarmPlan]) -> Result<Row<AlarmPlan>, NoMemory>
    ensures { IfOk result (λ copy. copy ≡ alarms.now) }
{
    let mut copy = Row::new(alloc);
    for alarm in alarms {
        copy.push(AlarmPlan {
            alid: alarm.alid,
            category: alarm.category,
            text: Row::of(alloc, alarm.text.as_slice())?,
            enabled: alarm.enabled,
        })?;
    }
    Ok(copy)
}
