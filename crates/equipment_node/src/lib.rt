//! The equipment: a GEM tool at its end of the line, with its spool.
#![tactic(auto)]

mod disk_step;
mod ended;
mod equipment;
mod in_memory;
mod notes_cut;
mod serving;
mod sizes;

pub use ended::Ended;
pub use equipment::{Equipment, Starting};
pub use equipment_tables::{EquipmentPlan, HostPlan, Plans};
pub use in_memory::{EquipmentEnd, LISTED_BYTES, LISTED_CALLS, LISTED_SPARE};
pub use trace_log::ToolCommand;
