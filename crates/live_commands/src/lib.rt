//! The commands that a row of bytes is, a line each, as its bytes come in parts.
#![tactic(auto)]

mod asks;
mod item_places;
mod laws;
mod open_line;
mod places;
mod reader;

pub use asks::{Asks, LINE_LIMIT};
pub use laws::{comes_by_bytes, parts_are_commands, worked_lines};
pub use reader::CommandReader;
