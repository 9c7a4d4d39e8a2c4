//! What the spool and the setup of the equipment hold, over all its starts.
#![tactic(auto)]

mod laws;

pub use laws::{
    messages_leave_in_step, overwrites_for_puts, runs_try_in_turn, setup_is_kept, spool_is_kept,
    worked_held, worked_pairs, worked_room, worked_steps, works_are_in_pairs,
};
