//! Plan files (this profile): what a TOML document says of the equipment, the host and the line between them.
#![tactic(auto)]

mod element;
mod fault;
mod found;
mod laws;
mod part;
mod plans;
mod rows;
mod sections;
mod unknown;
mod values;
mod words;

pub use fault::{ConfigFault, ConfigWhat};
pub use laws::what_is_read_fits;
pub use plans::read_plans;
