//! The calls of a put up to its last gate: the gates of its slots are looked at and closed, and its parts are written.

ghost use Rattle.std.specs.Prelude.{◌≡◌, ◌+◌, ◌<◌, ◌≤◌, ◌^◌, length};
ghost use Rattle.spool_file.specs.Sizes.{slots_for as slots_of};
ghost use Rattle.spool_file.specs.Slot.{slot_place as place_of};
ghost use Rattle.spool_slots.specs.Calls.{part_calls};
ghost use Rattle.spool_slots.specs.Put.{HasPut};

use crate::gates::{SLOTS_MOST, look_at_gates, shut_gates};
use crate::pieces::settle_parts;
use crate::stored::Stored;
use disk_base::{Disk, DiskAnswer};
use spool_file::Known;

/// Writes all of a message but its gate into the next slots, which are closed then, and syncs.
pub fn put_parts<D: Disk>(disk: &mut D, known: Known, size: u32, message: &Stored<'_>) -> DiskAnswer
    requires some { 0 < known.slots }
    requires within { place_of known.slots ≤ D.size_is disk.old }
    requires stream { message.now.stream < 128 }
    requires body { length message.now.body.now ≤ 1048576 }
    requires size { size ≡ slots_of (length message.now.body.now) }
    requires most { size ≤ 257 }
    requires number { known.next + size ≤ 2 ^ 63 }
    ensures { HasPut D.Disk disk.old disk.new known.slots known.next size (part_calls known.slots known.next
        message.now.stream message.now.function message.now.body.now) result }
{
    let mut gates = [0; SLOTS_MOST];
    match look_at_gates(disk, known.slots, known.next, size, &mut gates) {
        DiskAnswer::Failed => return DiskAnswer::Failed,
        DiskAnswer::Done => {}
    }
    match shut_gates(disk, known.slots, known.next, size, &gates) {
        DiskAnswer::Failed => return DiskAnswer::Failed,
        DiskAnswer::Done => {}
    }
    settle_parts(disk, known.slots, known.next, size, message)
}
