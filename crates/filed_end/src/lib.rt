//! Ends of a world that keep what they mustn't lose in one file on a disk: their trait, and how they go on, lose their
//! power and start anew over a disk in memory.
#![tactic(auto)]

mod ended;
mod filed_end;
mod in_memory;

pub use ended::Ended;
pub use filed_end::FiledEnd;
pub use in_memory::InMemory;
