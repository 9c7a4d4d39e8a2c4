//! The world that runs: a tool and its host on one line, by a schedule, whose trace is written.
#![tactic(auto)]

mod counting;
mod disk;
mod laws;
mod maker;
mod making;
mod rounds;
mod running;
mod summary;

pub use disk::empty_spool;
pub use end_pair::{RunEnd, World, WorldStep};
pub use equipment_tables::Plans;
pub use laws::{
    few_calls_find_room, holds_at_each_entry, laws_hold, replies_go_in_steps, steps_are_noted,
    worked_rounds, worked_steps, worked_trace_data,
};
pub use maker::make;
pub use running::run;
