//! Trace data of GEM: what the host asks for with S2F23, and the samples that S6F1 brings (SEMI E30, trace data
//! collection; SEMI E5, stream 2 and stream 6).
#![tactic(auto)]

mod body;
mod laws;
mod period;
mod request;
mod trace;
mod traces;

pub use laws::{
    few_traces_run, no_trace_outlives_its_total, two_samples_are_worked,
    what_runs_is_looked_back_for,
};
pub use request::{Tiaack, TraceRequest};
pub use traces::Traces;
