//! What the trace data of the equipment hold, whatever it meets.
#![tactic(auto)]

mod laws;

pub use laws::traces_are_sampled;
