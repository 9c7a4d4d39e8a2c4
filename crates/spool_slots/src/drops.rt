//! The first message is taken off the list: its length is read, and the gate of its first slot is closed.

ghost use Rattle.std.specs.Prelude.{◌+◌, ◌^◌, ◌<◌, ◌≤◌};
ghost use Rattle.spool_file.specs.Slot.{slot_place as place_of};
ghost use Rattle.spool_slots.specs.Calls.{number_place as number_place_of};
ghost use Rattle.spool_slots.specs.Work.{HasClosed, HasReadLen};

use crate::device::{read_at, settle_byte};
use crate::gates::number_place;
use disk_base::{Disk, DiskAnswer};
use spool_file::{CLOSED, Known};

/// What closing the first message's slot came to.
#[derive(Clone, Copy, Debug)]
pub enum Closing {
    /// The length of its body, as it was read.
    Closed(u32),
    Failed,
}

// Reads the length of the body in the slot at a place.
fn read_len<D: Disk>(disk: &mut D, at: u64) -> Closing
    requires within { at + 15 ≤ D.size_is disk.old }
    requires place { at ≤ 2 ^ 48 }
    ensures { HasReadLen D.Disk disk.old disk.new at result }
{
    let mut len = [0; 4];
    match read_at(disk, at + 11, &mut len) {
        DiskAnswer::Failed => Closing::Failed,
        DiskAnswer::Done => Closing::Closed(u32::from_be_bytes(len)),
    }
}

/// Reads the length of the first message's body, closes the gate of its slot, and syncs.
pub fn close_first<D: Disk>(disk: &mut D, known: Known) -> Closing
    requires some { 0 < known.slots }
    requires within { place_of known.slots ≤ D.size_is disk.old }
    ensures { HasClosed D.Disk disk.old disk.new (number_place_of known.slots known.first) result }
{
    let at = number_place(known.slots, known.first);
    match read_len(disk, at) {
        Closing::Failed => Closing::Failed,
        Closing::Closed(len) => match settle_byte(disk, at, CLOSED) {
            DiskAnswer::Done => Closing::Closed(len),
            DiskAnswer::Failed => Closing::Failed,
        },
    }
}
