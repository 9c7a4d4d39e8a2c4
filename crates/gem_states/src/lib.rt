//! The two state models of GEM (SEMI E30), communication and control, as tables. No call takes memory.
#![tactic(auto)]

mod comms;
#[cfg(test)]
mod comms_tests;
mod control;
#[cfg(test)]
mod control_tests;

pub use comms::{Comms, CommsIn, CommsOut, CommsState};
pub use control::{Control, ControlIn, ControlOut, ControlState};
