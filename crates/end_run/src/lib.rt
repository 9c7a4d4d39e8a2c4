//! One end of the line over a real link: what it is told by a script, or as it comes, and by the link, what it writes
//! and sends, and how it ends.
#![tactic(auto)]

mod ending;
mod linked_end;
mod live;
mod polls;
mod putting;
mod run;
mod step;
mod teller;
mod telling;

pub use ending::Ending;
pub use linked_end::LinkedEnd;
pub use live::run_told;
pub use run::run_started;
pub use teller::{Teller, Told};
