//! Two ends on one line, of which each keeps its law, deliver their messages.
#![tactic(auto)]

mod laws;

pub use laws::{ends_deliver, worked_runs};
