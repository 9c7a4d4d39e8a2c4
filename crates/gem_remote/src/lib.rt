//! The remote commands and the terminals of GEM (SEMI E30, remote control, equipment terminal services; SEMI E5, S2F41
//! and stream 10).
#![tactic(auto)]

mod laws;
mod lengths;
mod plan;
mod remote;

pub use laws::parameters_are_read;
pub use plan::{CommandPlan, ParamPlan, RemotePlan};
pub use remote::{Ackc10, Remote, Remoted};
