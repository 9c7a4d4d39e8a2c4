//! The decisions of the equipment in a step, in code: no disk, and no device.
#![tactic(auto)]

mod awaiting;
mod commands;
mod endings;
mod messages;
mod noting;
mod own;
mod primaries;
mod recipes;
mod replies;
mod routing;
mod sampling;
mod sending;
mod setup;
mod spoolable;
mod spooling;
mod starting;
mod states;
mod step;
mod unloading;

pub use own::{Own, Planned, Tool, Tracing};
pub use setup::{KeptSetup, NextSetup};
pub use spoolable::{ForGrant, Live, Spoolable, primary_function};
pub use starting::MORE;
