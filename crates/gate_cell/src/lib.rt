//! A number on a disk that changes whole or not at all, whenever the power is lost.
#![tactic(auto)]

mod cell;
mod places;
mod prepared;
mod preparing;

pub use cell::{CellAnswer, counting_place, read_cell, value_of};
pub use prepared::Prepared;
pub use preparing::prepare;

#[cfg(test)]
mod tests;
