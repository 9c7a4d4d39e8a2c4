//! The file of a spool: how it is made, and how it is read whole for the list that it stands for.
#![tactic(auto)]

mod chain;
mod format;
mod front;
mod laws;
mod reading;
mod recovery;
mod setup;
mod sizes;
mod slot;
mod slots;

pub use format::write_empty;
pub use front::{FLOOR_CELL, MARK_CELL, MARK_MOST, SLOTS_MOST, VERSION_GATE};
pub use laws::files_are_as_worked;
pub use reading::{NotSpool, Reading};
pub use recovery::{Known, read_file};
pub use setup::{AREA_SIZE, COPY_SIZE, SETUP_CELL, area_end, has_area};
pub use sizes::{AREA, body_most, is_too_long, slots_for};
pub use slot::{CLOSED, Frame, NUMBERS, OPEN, SLOT_SIZE, SlotHead, head_in, slot_of};
pub use slots::slot_place;
