//! What a step asks of the disk of a spool: the calls of each work, what each loss of power among them leaves, and what
//! stands behind it.
#![tactic(auto)]

mod ended;
mod keeping;
mod laws;
mod owed;

pub use ended::Ended;
pub use keeping::keep_setup;
pub use laws::{losses_are_found, worked_calls, worked_keeps, works_are_updates};
pub use owed::carry_owed;
