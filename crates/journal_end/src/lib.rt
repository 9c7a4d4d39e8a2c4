//! The host with its journal as an end of a world, where it may lose its power and start anew.
#![tactic(auto)]

mod journal_end;

pub use journal_end::{JournalEnd, JournalOnDisk};
