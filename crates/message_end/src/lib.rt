//! The core of both ends of the link, equipment and host.
#![tactic(auto)]

mod end;
mod endings;
mod ends;
mod hearing;
mod laws;
mod sending;
mod unsent;
mod written;

pub use end::{MessageEnd, Stop, Took, least};
pub use ends::End;
pub use laws::{
    ends_are_lawful, notes_are_read, stops_are_lawful, worked_run, worked_starts, worked_steps,
};
pub use unsent::Unsent;
pub use written::put_wrote;
