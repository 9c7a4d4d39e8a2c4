//! The data of a GEM tool: its variables and equipment constants (SEMI E30; SEMI E5, streams 1 and 2).
#![tactic(auto)]

mod constant;
mod laws;
mod listing;
mod plan;
mod rows;
mod settings;
mod variable;
mod vars;

pub use laws::{values_stay_as_planned, vars_are_looked_back_for};
pub use plan::{ConstantPlan, VariablePlan, VarsPlan};
pub use settings::{Eac, Setting};
pub use vars::Vars;
