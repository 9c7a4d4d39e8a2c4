//! What tells a tool its commands as they come beside a link, and who is at the line.
#![tactic(auto)]

mod beside;
mod teller;

pub use beside::{Beside, Caller};
pub use teller::LiveTeller;
