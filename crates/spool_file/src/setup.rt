//! The area behind the slots, in which a setup is kept: where it is, and how it is made.

ghost use Rattle.std.specs.Prelude.{◌≡◌, ◌<◌, ◌≤◌};
ghost use Rattle.disk_base.specs.Faults.{HasCause};
ghost use Rattle.disk_base.specs.SameDisk.{IsSameDisk};
ghost use Rattle.spool_file.specs.Added.{OnlyAdds, WritesOrSyncs};
ghost use Rattle.spool_file.specs.Format.{ClearsArea};
ghost use Rattle.spool_file.specs.Setup.{area_end as end_of, has_area as has_area_of};

use crate::slots::slot_place;
use disk_base::{Disk, DiskAnswer};

/// Where the cell of the setup begins.
pub const SETUP_CELL: u64 = 47;

/// How many bytes each of the two copies in the area has.
pub const COPY_SIZE: u64 = 262_144;

/// How many bytes the area has.
pub const AREA_SIZE: u64 = 524_288;

// The area is made in parts of so many bytes, each by one write.
const PART_SIZE: usize = 16_384;

const PARTS: u32 = 32;

const ZEROS: [u8; PART_SIZE] = [0; PART_SIZE];

/// Where the area of a file with so many slots ends. It begins behind the last slot.
pub fn area_end(slots: u32) -> u64
    ensures end { result ≡ end_of slots }
{
    slot_place(slots) + AREA_SIZE
}

/// Whether a file of so many slots and bytes has an area.
pub fn has_area(slots: u32, size: u64) -> bool
    ensures { result ≡ has_area_of slots size }
{
    area_end(slots) <= size
}

/// Fills the area with zeros.
pub fn clear_area<D: Disk>(disk: &mut D, slots: u32) -> DiskAnswer
    requires size { end_of slots ≤ D.size_is disk.old }
    requires slots { slots ≤ 65535 }
    ensures told { ClearsArea (D.told disk.old) (D.told disk.new) slots result }
    ensures size { D.size_is disk.new ≡ D.size_is disk.old }
    ensures cause { HasCause (D.health disk.old) (D.health disk.new) 32 524288
        ((D.health disk.old).room < 524288) result }
    ensures calls { OnlyAdds WritesOrSyncs (D.calls disk.old) (D.calls disk.new) }
    ensures same_disk { IsSameDisk D.Disk disk.old disk.new }
{
    for part in 0..PARTS {
        match disk.write(slot_place(slots) + PART_SIZE as u64 * part as u64, &ZEROS) {
            DiskAnswer::Done => {}
            DiskAnswer::Failed => return DiskAnswer::Failed,
        }
    }
    DiskAnswer::Done
}
