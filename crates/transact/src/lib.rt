//! Transactions of SECS-I (SEMI E4, E5): the primaries of one side that await a reply, with T3, and the numbers that
//! primaries get as system bytes.
#![tactic(auto)]

mod begun;
mod laws;
mod matching;
mod numbers;
mod transactions;

pub use laws::{numbers_come_once, open_are_begun_and_not_ended};
pub use matching::matches;
pub use numbers::Numbers;
pub use transactions::{Beginning, Match, Transactions};
