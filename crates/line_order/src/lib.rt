//! The order in which blocks arrive over a line of two ends (SEMI E4).
#![tactic(auto)]

mod laws;

pub use laws::{arrivals_are_judged, blocks_arrive_in_order, worked_runs};
