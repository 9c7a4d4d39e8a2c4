//! The first messages of a spool file are dropped.
#![tactic(auto)]

mod dropping;
#[cfg(test)]
mod tests;

pub use dropping::drop_messages;
