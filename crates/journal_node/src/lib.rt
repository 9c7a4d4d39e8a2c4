//! The host with a journal: it lists what it takes before it answers, so that a loss of its power forgets none of it.
#![tactic(auto)]

mod disk_step;
mod journal_host;
mod laws;
mod notes;
#[cfg(test)]
mod tests;

pub use journal_host::{JournalEnded, JournalHost, JournalStarting, start_over};
pub use laws::{journal_host_keeps_its_law, lists_nothing_early, worked_journals};
