//! The journal of a host: the file of a spool in which it lists what it takes, so that it forgets none of it without
//! power.
#![tactic(auto)]

mod entry;
mod listing;

pub use entry::entry_of;
pub use listing::{Fit, Listing, fit_of, list_entry};
