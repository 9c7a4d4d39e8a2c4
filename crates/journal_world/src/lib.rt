//! The world of a tool and a host with a journal, either of which may lose its power: a schedule is carried out, and
//! its trace is written.
#![tactic(auto)]

mod laws;
mod running;
#[cfg(test)]
mod tests;

pub use laws::{
    few_calls_find_room, holds_at_each_entry, replies_go_in_steps, steps_are_noted, worked_journals,
};
pub use running::run;
