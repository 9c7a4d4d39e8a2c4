//! The alarms of GEM (SEMI E30, alarm management; SEMI E5, stream 5).
#![tactic(auto)]

mod alarm;
mod alarms;
mod laws;
mod lengths;
mod plan;

pub use alarms::{Ackc5, AlarmStep, Alarms};
pub use laws::alarms_are_looked_back_for;
pub use plan::AlarmPlan;
