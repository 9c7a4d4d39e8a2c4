//! What is written about a spool file: that it was made, and its list.
#![tactic(auto)]

mod lines;
mod listing;
mod making;
mod spool_end;

pub use listing::show_spool;
pub use making::format_spool;
pub use spool_end::SpoolEnd;
