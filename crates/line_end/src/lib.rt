//! One end of a SECS-I line: the transfer of blocks by ENQ, EOT, ACK and NAK (SEMI E4).
#![tactic(auto)]

mod end;
mod event;
mod laws;
mod plan;

pub use end::{Chars, LineEnd};
pub use event::{LineCause, LineEvent, Phase};
pub use laws::{
    arrived_frames_came, clean_exchange, frames_are_own, states_are_kept, steps_are_small,
    tries_are_limited, worked_runs,
};
pub use plan::{HostPlan, LinePlan, Times};
