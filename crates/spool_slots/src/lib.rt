//! The spool on a disk that can lose power: a list of messages over its file, and the calls that change it.
#![tactic(auto)]

mod area;
mod cells;
mod device;
mod drops;
mod gates;
mod known;
mod pieces;
mod puts;
mod spool;
mod staged;
mod states;
mod stored;
mod upgrades;

pub use known::{MARK_STEP, message_size};
pub use spool::Spool;
pub use staged::Staged;
pub use states::{
    Dropping, Formatting, OldestAnswer, PlaceAnswer, Raw, Recovering, Reserving, Spent, Staging,
};
pub use stored::Stored;
