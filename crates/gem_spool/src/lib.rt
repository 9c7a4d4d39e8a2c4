//! Spooling by GEM (SEMI E30, spooling): the spool that keeps what is to be sent to a host that is away.
#![tactic(auto)]

mod count;
mod kept;
mod spool;
mod works;

pub use count::Count;
pub use kept::{Kept, Unread};
pub use spool::{GemSpool, PutAnswer, Room};
pub use works::{Undone, Work};
