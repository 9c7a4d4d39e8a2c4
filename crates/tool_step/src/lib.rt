//! What the equipment does in a step: the definition alone.
#![tactic(auto)]

mod kind;
mod laws;
mod owed;

pub use kind::Kind;
pub use laws::{
    calls_are_counted, losses_are_counted, worked_losses, worked_own_s1f13, worked_recipes,
    worked_setups, worked_spool_runs, worked_traces,
};
pub use owed::Owed;
