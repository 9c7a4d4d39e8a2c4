//! That the equipment keeps the law of an end, and that its numbers are spent by cause.
#![tactic(auto)]

mod laws;

pub use laws::{equipment_keeps_the_law, steps_are_spent_by_cause, worked_spent_steps};
