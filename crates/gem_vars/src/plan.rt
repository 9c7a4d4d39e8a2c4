//! The variables and constants as they are planned, and which plans fit.

ghost use Rattle.std.specs.Prelude.{◌≡◌, ◌↔◌, All, IsTrue, nat_eq};
ghost use Rattle.std.specs.List.{IsDistinct, list_all, list_any};
ghost use Rattle.gem_vars.specs.Plan.{ConstantFits, ConstantsFit, VariableFits, VariablesFit, VarsFit, built_in_constants, has_ecid, has_vid, is_in_range, planned_ecids, planned_vids};
ghost use Rattle.gem_vars.specs.Settings.{is_within, value_fits};

use gl_base::Row;
use secs_items::Item;

// The most variables of a plan.
const MOST_VARIABLES: usize = 1_024;

// The most constants of a plan, without the built-in ones.
const MOST_CONSTANTS: usize = 256;

// The least ECID of a plan's constant.
const FIRST_ECID: u32 = 100;

// The most bytes of a value when it is encoded.
const LONGEST: usize = 4_096;

// How deep a value's lists may nest.
const DEEPEST: usize = 60;

/// A variable of the plan.
#[derive(Debug, Drop)]
pub struct VariablePlan {
    pub vid: u32,
    pub name: Row<u8>,
    pub units: Row<u8>,
    /// Its value at first. It keeps the kind of this value.
    pub value: Item,
}

/// An equipment constant of the plan.
#[derive(Debug, Drop)]
pub struct ConstantPlan {
    pub ecid: u32,
    pub name: Row<u8>,
    pub units: Row<u8>,
    pub min: u32,
    pub max: u32,
    /// Its value at first, and its default.
    pub value: u32,
}

/// What the plan says of variables and constants.
#[derive(Debug, Drop)]
pub struct VarsPlan {
    pub variables: Row<VariablePlan>,
    pub constants: Row<ConstantPlan>,
    /// The values at first of the constants 1 to 4: EstablishCommunicationsTimeout, EnableSpool, OverWriteSpool and
    /// MaxSpoolTransmit.
    pub built_in: [u32; 4],
}

impl VarsPlan {
    /// Whether there are at most 1,024 variables, each with a VID of its own and a value of at most 4,096 bytes and 60
    /// lists deep; at most 256 constants, each with an ECID of its own from 100 and a value within its range; and the
    /// values of the built-in constants are within theirs.
    pub fn fits(&self) -> bool
        ensures { IsTrue result ↔ VarsFit self.now }
    {
        variables_fit(self.variables.as_slice())
            && constants_fit(self.constants.as_slice())
            && built_in_fits(&self.built_in)
    }
}

fn variables_fit(plan: &[VariablePlan]) -> bool
    ensures { IsTrue result ↔ VariablesFit plan.now }
{
    plan.len() <= MOST_VARIABLES && all_variables_fit(plan) && vids_are_distinct(plan)
}

fn constants_fit(plan: &[ConstantPlan]) -> bool
    ensures { IsTrue result ↔ ConstantsFit plan.now }
{
    plan.len() <= MOST_CONSTANTS && all_constants_fit(plan) && ecids_are_distinct(plan)
}

fn built_in_fits(values: &[u32; 4]) -> bool
    ensures { result ≡ list_all is_in_range (built_in_constants values.now) }
{
    is_within(1, 120, values[0])
        && is_within(0, 1, values[1])
        && is_within(0, 1, values[2])
        && is_within(0, u32::MAX, values[3])
}

/// Whether a value is short and shallow enough for the body of an event.
pub(crate) fn value_fits(value: &Item) -> bool
    ensures { result ≡ value_fits value.now }
{
    value.spelled_len() <= LONGEST && value.depth() <= DEEPEST
}

pub(crate) fn is_within(min: u32, max: u32, value: u32) -> bool
    ensures { result ≡ is_within min max value }
{
    min <= value && value <= max
}

fn constant_fits(constant: &ConstantPlan) -> bool
    ensures { IsTrue result ↔ ConstantFits constant.now }
{
    constant.ecid >= FIRST_ECID && is_within(constant.min, constant.max, constant.value)
}

fn all_variables_fit(plan: &[VariablePlan]) -> bool
    ensures { IsTrue result ↔ All VariableFits plan.now }
{
    for variable in plan {
        if !value_fits(&variable.value) {
            return false;
        }
    }
    true
}

fn all_constants_fit(plan: &[ConstantPlan]) -> bool
    ensures { IsTrue result ↔ All ConstantFits plan.now }
{
    for constant in plan {
        if !constant_fits(constant) {
            return false;
        }
    }
    true
}

fn vids_are_distinct(plan: &[VariablePlan]) -> bool
    ensures { IsTrue result ↔ IsDistinct nat_eq (planned_vids plan.now) }
{
    for i in 0..plan.len() {
        if has_variable(plan.split_at(i + 1).1, plan[i].vid) {
            return false;
        }
    }
    true
}

fn has_variable(plan: &[VariablePlan], vid: u32) -> bool
    ensures { result ≡ list_any (has_vid vid) plan.now }
{
    plan.iter().any(|variable| vid == variable.vid)
}

fn ecids_are_distinct(plan: &[ConstantPlan]) -> bool
    ensures { IsTrue result ↔ IsDistinct nat_eq (planned_ecids plan.now) }
{
    for i in 0..plan.len() {
        if has_constant(plan.split_at(i + 1).1, plan[i].ecid) {
            return false;
        }
    }
    true
}

fn has_constant(plan: &[ConstantPlan], ecid: u32) -> bool
    ensures { result ≡ list_any (has_ecid ecid) plan.now }
{
    plan.iter().any(|constant| ecid == constant.ecid)
}
