//! The disk of a spool in a world.

ghost use Rattle.std.specs.Prelude.{◌≤◌, IfOk};
ghost use Rattle.line_world.specs.Disk.{IsEmptySpool};

use disk_base::MemDisk;
use equipment_node::{LISTED_BYTES, LISTED_CALLS, LISTED_SPARE};
use gl_base::NoMemory;
use spool_file::area_end;
use spool_slots::{Raw, Spool};
use std::alloc::Global;

/// An empty spool of so many slots and of version 2, on a disk in memory that is made for it. Only memory may be
/// wanting. The disk has room to spare at its planned stop, so that power can be lost at a call for which there is no
/// room.
pub fn empty_spool(alloc: Global, slots: u32) -> Result<Spool<MemDisk>, NoMemory>
    requires some { 1 ≤ slots }
    requires most { slots ≤ 1024 }
    ensures { IfOk result (λ spool. IsEmptySpool slots spool) }
{
    let Ok(disk) = MemDisk::with_spare(
        alloc,
        area_end(slots),
        LISTED_CALLS,
        LISTED_BYTES,
        LISTED_SPARE,
    ) else {
        return Err(NoMemory);
    };
    match Raw::new(disk).format(slots) {
        Ok(spool) => {
            // (asked for nothing but what the list of its disk says)
            let _ = spool.stops_in();
            Ok(spool)
        }
        Err(_) => unreachable!("the disk has room for it"),
    }
}
