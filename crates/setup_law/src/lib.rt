//! What an equipment owes for the setup that its host makes, as its notes tell of it.
#![tactic(auto)]

mod laws;

pub use laws::{kept_setup_holds, worked_setups};
