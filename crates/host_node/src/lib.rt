//! The host's end of the link: what it sends, what it replies, and its state of communication.
#![tactic(auto)]

mod calls;
mod comms;
mod endings;
mod host;
mod late;
mod replies;

pub use calls::HostEnded;
pub use comms::HostComms;
pub use host::Host;
pub use line_end::HostPlan;
pub use trace_log::HostCommand;
