//! Collection event reports of GEM (SEMI E30, event data collection; SEMI E5, S2F33, S2F35, S2F37 and stream 6).
#![tactic(auto)]

mod answers;
mod bodies;
mod draft;
mod event;
mod events;
mod laws;
mod lengths;
mod links;
mod reports;
mod standing;

pub use answers::{Drack, Erack, Lrack};
pub use gem_shapes::{Definition, Linking};
pub use laws::{reports_are_counted, reports_go_by_what_stands, reports_have_variables};
pub use reports::Reports;
