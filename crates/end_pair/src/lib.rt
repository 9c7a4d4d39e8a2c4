//! The world of two ends and the line between them, whatever ends they are: a schedule is carried out, and what both
//! ends note is written.
#![tactic(auto)]

mod answers;
mod laws;
mod power;
mod putting;
mod running;
mod step;
mod world;

pub use answers::{RunEnd, WorldStep};
pub use laws::{
    entries_are_of_courses, never_full, runs_are_bounded, runs_are_moves, runs_end_five_ways,
    steps_end_by_cause, turns_end_by_cause, worked_host_losses, worked_losses, worked_runs,
    worked_steps,
};
pub use running::run;
pub use world::World;
