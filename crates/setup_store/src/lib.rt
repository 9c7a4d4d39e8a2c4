//! The setup of a tool as its host has made it: the primaries that are kept of those that were accepted, and the bytes
//! that spell them.
#![tactic(auto)]

mod change;
mod entry;
mod kept;
mod laws;
mod reading;
mod store;

pub use change::Change;
pub use entry::{EntryView, is_kept};
pub use kept::next_kept;
pub use laws::{kept_lists_are_as_worked, lists_are_read_as_spelled};
pub use reading::{first_entry, has_room, list_break};
pub use spool_file::NotSpool;
pub use store::{Keeping, Loading, keep, load};
