//! The parts of a message, each written into the slot of its number.

ghost use Rattle.std.specs.Prelude.{◌≡◌, ◌+◌, ◌*◌, ◌<◌, ◌≤◌, ◌^◌, length};
ghost use Rattle.spool_file.specs.Sizes.{slots_for as slots_of};
ghost use Rattle.spool_file.specs.Slot.{slot_place as place_of};
ghost use Rattle.spool_slots.specs.Calls.{part_calls, part_write, part_writes, piece_of as piece};
ghost use Rattle.spool_slots.specs.Carried.{CarriesOut};

use crate::device::{sync_all, write_at};
use crate::gates::number_place;
use crate::stored::{Stored, front_of, parts_of};
use disk_base::{Disk, DiskAnswer};
use spool_file::AREA;

// The piece of a body in a further one of its slots.
fn piece_of(body: &[u8], place: u32) -> &[u8]
    requires { 4081 * place ≤ length body.now }
    ensures piece { result.now ≡ piece body.now place }
    ensures len { length result.now ≤ 4081 }
{
    front_of(body.split_at(AREA as usize * place as usize).1)
}

// Writes what a message has in one of its slots, all but the gate of the first one.
fn write_part<D: Disk>(
    disk: &mut D,
    slots: u32,
    number: u64,
    message: &Stored<'_>,
    place: u32,
) -> DiskAnswer
    requires some { 0 < slots }
    requires within { place_of slots ≤ D.size_is disk.old }
    requires stream { message.now.stream < 128 }
    requires body { length message.now.body.now ≤ 1048576 }
    requires place { place < slots_of (length message.now.body.now) }
    requires number { number + place < 2 ^ 63 }
    ensures { CarriesOut D.Disk disk.old disk.new (part_write slots number message.now.stream message.now.function
        message.now.body.now place) result }
{
    let at = number_place(slots, number + place as u64);
    if place == 0 {
        return write_at(disk, at + 1, &parts_of(number, message));
    }
    write_at(disk, at + 15, piece_of(message.body, place))
}

// Writes what it has in each of them.
fn write_parts<D: Disk>(
    disk: &mut D,
    slots: u32,
    number: u64,
    size: u32,
    message: &Stored<'_>,
) -> DiskAnswer
    requires some { 0 < slots }
    requires within { place_of slots ≤ D.size_is disk.old }
    requires stream { message.now.stream < 128 }
    requires body { length message.now.body.now ≤ 1048576 }
    requires size { size ≡ slots_of (length message.now.body.now) }
    requires number { number + size ≤ 2 ^ 63 }
    ensures { CarriesOut D.Disk disk.old disk.new (part_writes slots number message.now.stream message.now.function
        message.now.body.now size) result }
{
    for place in 0..size {
        match write_part(disk, slots, number, message, place) {
            DiskAnswer::Failed => return DiskAnswer::Failed,
            DiskAnswer::Done => {}
        }
    }
    DiskAnswer::Done
}

/// Writes all of a message but the gate of its first slot, a write a slot, and syncs.
pub fn settle_parts<D: Disk>(
    disk: &mut D,
    slots: u32,
    number: u64,
    size: u32,
    message: &Stored<'_>,
) -> DiskAnswer
    requires some { 0 < slots }
    requires within { place_of slots ≤ D.size_is disk.old }
    requires stream { message.now.stream < 128 }
    requires body { length message.now.body.now ≤ 1048576 }
    requires size { size ≡ slots_of (length message.now.body.now) }
    requires number { number + size ≤ 2 ^ 63 }
    ensures { CarriesOut D.Disk disk.old disk.new (part_calls slots number message.now.stream message.now.function
        message.now.body.now) result }
{
    match write_parts(disk, slots, number, size, message) {
        DiskAnswer::Failed => return DiskAnswer::Failed,
        DiskAnswer::Done => {}
    }
    sync_all(disk)
}
