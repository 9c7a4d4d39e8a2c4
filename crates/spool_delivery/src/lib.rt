//! What becomes of the equipment's spool in a log, and that the host takes its messages in order.
#![tactic(auto)]

mod laws;

pub use laws::{spool_is_taken_in_order, worked_logs};
