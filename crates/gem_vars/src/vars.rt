//! The table of variables and constants: the tool sets the ones, S2F15 the others. Four constants are in every plan.

ghost use Rattle.std.specs.Prelude.{◌≡◌, ◌≢◌, [], ◌++◌, List, map, nat_eq, IfErr, IfOk, None, OnErr, OnOk, Some};
ghost use Rattle.std.specs.List.{IsDistinct};
ghost use Rattle.std.specs.Map.{keys_of};
ghost use Rattle.std.specs.Option.{option_copied};
ghost use Rattle.gem_vars.specs.declared.settings.Eac.TheVariants as eac;
ghost use Rattle.gem_vars.specs.History.{constant_after, variable_after, vars_at};
ghost use Rattle.gem_vars.specs.Plan.{VarsFit, built_in, built_in_constants, planned_ecids, planned_vids};
ghost use Rattle.gem_vars.specs.Settings.{SetAnswers, eac_of, entry_fault, refusal_of};
ghost use Rattle.gem_vars.specs.Tables.{constant_in, ecids_of, value_in, vids_of, with_constants, with_value};

use crate::constant::Constant;
use crate::plan::{ConstantPlan, VariablePlan, VarsPlan, is_within, value_fits};
use crate::settings::{Eac, Setting};
use crate::variable::Variable;
use gl_base::{NoMemory, Row};
use indexmap::IndexMap;
use secs_items::Item;
use std::alloc::Global;
use std::marker::Model;

/// The variables and constants of the plan, each with its value. The four built-in constants stand before the plan's.
#[derive(Drop)]
pub struct Vars {
    pub(crate) variables: IndexMap<u32, Variable>,
    pub(crate) constants: IndexMap<u32, Constant>,
}

impl Model for Vars {
    ghost use Rattle.std.specs.Prelude.{ℕ, List, refl};
    ghost use Rattle.std.specs.Coded.{code_by, coded×, coded_list, coded_ℕ};
    ghost use Rattle.gem_vars.specs.contracts.constant.Constant as constant;
    ghost use Rattle.gem_vars.specs.contracts.variable.Variable as variable;
    ghost use Rattle.gem_vars.specs.declared.constant.Constant.{Constant};
    ghost use Rattle.gem_vars.specs.declared.variable.Variable.{Variable};
    ghost use Rattle.gem_vars.specs.Tables.{VarsTable};

    ghost Value = { VarsTable };

    ghost coded = { code_by
        (List (ℕ × Variable) × List (ℕ × Constant))
        (coded× (coded_list (coded× coded_ℕ variable.the_row.coded))
        (coded_list (coded× coded_ℕ constant.the_row.coded)))
        (λ t. (t.variables, t.constants))
        (λ p. record { variables = p.0; constants = p.1 })
        (λ _. refl) };

    ghost view = { λ inside. record { variables = inside.variables.entries; constants = inside.constants.entries } };
}

impl Vars {
    /// The variables and constants as planned, after no setting. The plan must fit.
    pub fn new(alloc: Global, plan: &VarsPlan) -> Result<Vars, NoMemory>
        requires { VarsFit plan.now }
        ensures { IfOk result (λ vars. vars ≡ vars_at plan.now []) }
    {
        let built_in = built_in_rows(alloc, &plan.built_in)?;
        let mut constants = IndexMap::new(alloc);
        put_constants(alloc, &mut constants, built_in.as_slice())?;
        put_constants(alloc, &mut constants, plan.constants.as_slice())?;
        Ok(Vars {
            variables: variables_of(alloc, plan.variables.as_slice())?,
            constants,
        })
    }

    /// The tool sets a variable.
    ///
    /// The first of these that holds: `Unknown` exactly where the plan has no such variable, `Kind` exactly where the
    /// value is of another kind than the variable's, `TooLong` exactly where it has more than 4,096 bytes when it is
    /// encoded, or lists that nest more than 60 deep. Where it is refused, nothing changes.
    pub fn set(&mut self, alloc: Global, vid: u32, value: &Item) -> Result<(), Setting>
        ensures answer { SetAnswers (refusal_of self.old vid value.now) result }
        ensures table { OnOk result (self.new ≡ with_value vid value.now self.old) }
        ensures refused { OnErr result (self.new ≡ self.old) }
        ensures vids { vids_of self.new ≡ vids_of self.old }
    {
        self.judge(vid, value)?;
        let value = value.copy(alloc)?;
        match self.variables.get_mut(&vid) {
            Some(variable) => variable.value = value,
            None => {}
        }
        Ok(())
    }

    fn judge(&self, vid: u32, value: &Item) -> Result<(), Setting>
        ensures ok { OnOk result (refusal_of self.now vid value.now ≡ None) }
        ensures err { IfErr result (λ e. refusal_of self.now vid value.now ≡ Some e) }
    {
        match self.value(vid) {
            None => Err(Setting::Unknown(vid)),
            Some(held) => {
                if held.kind().code() != value.kind().code() {
                    Err(Setting::Kind(vid))
                } else if !value_fits(value) {
                    Err(Setting::TooLong(vid))
                } else {
                    Ok(())
                }
            }
        }
    }

    /// The value of a variable, `None` exactly where the plan has no such variable.
    pub fn value(&self, vid: u32) -> Option<&Item>
        ensures { option_copied result ≡ value_in self.now vid }
    {
        match self.variables.get(&vid) {
            Some(variable) => Some(&variable.value),
            None => None,
        }
    }

    /// The value of a constant, `None` exactly where neither the plan nor the four built-in ones have it.
    pub fn constant(&self, ecid: u32) -> Option<u32>
        ensures { result ≡ constant_in self.now ecid }
    {
        match self.constants.get(&ecid) {
            Some(constant) => Some(constant.value),
            None => None,
        }
    }

    /// S2F15: sets the constants of the list, one after the other.
    ///
    /// The first bad entry decides, and then nothing changes: `Unknown` where there is no such constant, `OutOfRange`
    /// where the value is below the constant's minimum or above its maximum. It takes no memory.
    pub fn set_constants(&mut self, list: &[(u32, u32)]) -> Eac
        ensures answer { result ≡ eac_of self.old list.now }
        ensures table { result ≡ eac.Done → self.new ≡ with_constants list.now self.old }
        ensures refused { result ≢ eac.Done → self.new ≡ self.old }
        ensures ecids { ecids_of self.new ≡ ecids_of self.old }
    {
        let eac = self.judge_constants(list);
        if let Eac::Done = eac {
            self.put_values(list);
        }
        eac
    }

    /// What [`Vars::set_constants`] would answer. It changes nothing.
    pub fn judge_constants(&self, list: &[(u32, u32)]) -> Eac
        ensures { result ≡ eac_of self.now list.now }
    {
        for (ecid, value) in list {
            if let Some(fault) = self.entry_fault(*ecid, *value) {
                return fault;
            }
        }
        Eac::Done
    }

    fn entry_fault(&self, ecid: u32, value: u32) -> Option<Eac>
        ensures { result ≡ entry_fault self.now (ecid, value) }
    {
        match self.constants.get(&ecid) {
            None => Some(Eac::Unknown(ecid)),
            Some(constant) => {
                if is_within(constant.min, constant.max, value) {
                    None
                } else {
                    Some(Eac::OutOfRange(ecid))
                }
            }
        }
    }

    fn put_values(&mut self, list: &[(u32, u32)])
        ensures { self.new ≡ with_constants list.now self.old }
    {
        for (ecid, value) in list {
            match self.constants.get_mut(ecid) {
                Some(constant) => constant.value = *value,
                None => {}
            }
        }
    }
}

fn variables_of(alloc: Global, plan: &[VariablePlan]) -> Result<IndexMap<u32, Variable>, NoMemory>
    requires { IsDistinct nat_eq (planned_vids plan.now) }
    ensures { IfOk result (λ rows. rows.entries ≡ map (λ p. (p.vid, variable_after [] p)) plan.now) }
{
    let mut variables = IndexMap::new(alloc);
    for planned in plan {
        let variable = Variable {
            name: Row::of(alloc, planned.name.as_slice())?,
            units: Row::of(alloc, planned.units.as_slice())?,
            value: planned.value.copy(alloc)?,
        };
        variables.insert(planned.vid, variable)?;
    }
    Ok(variables)
}

/// Puts the planned constants behind those that are there.
fn put_constants(
    alloc: Global,
    constants: &mut IndexMap<u32, Constant>,
    plan: &[ConstantPlan],
) -> Result<(), NoMemory>
    requires { IsDistinct nat_eq (keys_of constants.old.entries ++ planned_ecids plan.now) }
    ensures { OnOk result (constants.new.entries
        ≡ constants.old.entries ++ map (λ p. (p.ecid, constant_after [] p)) plan.now) }
{
    for planned in plan {
        let constant = Constant {
            name: Row::of(alloc, planned.name.as_slice())?,
            units: Row::of(alloc, planned.units.as_slice())?,
            min: planned.min,
            max: planned.max,
            default: planned.value,
            value: planned.value,
        };
        constants.insert(planned.ecid, constant)?;
    }
    Ok(())
}

/// The constants that every plan has, with these values.
fn built_in_rows(alloc: Global, values: &[u32; 4]) -> Result<Row<ConstantPlan>, NoMemory>
    ensures { IfOk result (λ rows. rows ≡ built_in_constants values.now) }
{
    let timeout = b"EstablishCommunicationsTimeout";
    let mut rows = Row::new(alloc);
    rows.push(built_in(alloc, 1, timeout, b"s", (1, 120), values[0])?)?;
    rows.push(built_in(alloc, 2, b"EnableSpool", b"", (0, 1), values[1])?)?;
    rows.push(built_in(alloc, 3, b"OverWriteSpool", b"", (0, 1), values[2])?)?;
    rows.push(built_in(alloc, 4, b"MaxSpoolTransmit", b"", (0, u32::MAX), values[3])?)?;
    Ok(rows)
}

fn built_in(
    alloc: Global,
    ecid: u32,
    name: &[u8],
    units: &[u8],
    range: (u32, u32),
    value: u32,
) -> Result<ConstantPlan, NoMemory>
    ensures { IfOk result (λ row. row ≡ built_in ecid name.now units.now range.0 range.1 value) }
{
    Ok(ConstantPlan {
        ecid,
        name: Row::of(alloc, name)?,
        units: Row::of(alloc, units)?,
        min: range.0,
        max: range.1,
        value,
    })
}
