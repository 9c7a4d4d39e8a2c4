//! That what a host lists in its journal is what it takes of the equipment's spool, in order, though it restarts.
#![tactic(auto)]

mod laws;

pub use laws::{journal_is_taken_in_order, worked_journals, worked_notes};
