//! Both directions of a line between two ends (SEMI E4): the characters on their way with their origins, and what each
//! end has gathered of a frame.
#![tactic(auto)]

mod character;
mod slip;
#[cfg(test)]
mod tests;
mod way;
mod ways;

pub use slip::Slip;
pub use ways::Ways;
