//! What the reports of the equipment hold, and that its tables are what was set.
#![tactic(auto)]

mod laws;

pub use laws::{
    later_settings_are_not_reported, reports_are_of_their_events, setup_is_what_was_kept,
    tables_are_what_was_set, worked_samples, worked_settings,
};
