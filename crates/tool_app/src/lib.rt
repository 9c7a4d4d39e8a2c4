//! The program `gemline_tool` over any input, output, disk and link: a tool that is told commands as they come, and
//! whose host comes and goes.
#![tactic(auto)]

mod reporting;
mod running;

pub use reporting::{Names, report};
pub use running::tool;
