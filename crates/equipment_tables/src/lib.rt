//! The tables of the equipment: what it is planned as, what its tool and its host set in it, and what it answers from
//! it.
#![tactic(auto)]

mod answers;
mod copies;
mod judging;
mod laws;
mod plan;
mod tables;

pub use answers::{Answer, are_bytes, bounded, request_of};
pub use laws::{kept_tells_the_same, setups_are_as_worked, tables_are_looked_back_for};
pub use line_end::HostPlan;
pub use plan::{EquipmentPlan, Plans};
pub use tables::Tables;
