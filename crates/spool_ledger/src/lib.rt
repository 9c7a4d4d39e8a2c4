//! What is decided of the spool of the equipment before the disk has it (SEMI E30, spooling): in the course of a step,
//! which messages are put, which leave and why, and how far an unload has come. The works that the disk then owes are
//! handed over at the step's end.
#![tactic(auto)]

mod activity;
mod laws;
mod ledger;
mod sizes;
mod storing;
mod unload;
mod unloading;

pub use laws::{ledgers_are_lawful, worked_removals};
pub use ledger::Ledger;
pub use unload::WaitingText;
