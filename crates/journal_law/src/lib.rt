//! The law of a host's journal: it is kept over all starts of the host.
#![tactic(auto)]

mod laws;

pub use laws::{files_have_no_gap, journals_are_kept, journals_write_in_turn, worked_journals};
