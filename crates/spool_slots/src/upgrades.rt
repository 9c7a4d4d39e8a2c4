//! A file of version 1 is made one of version 2, in place.

ghost use Rattle.std.specs.Prelude.{◌≤◌};
ghost use Rattle.spool_slots.specs.Work.{WritesVersion};

use crate::device::settle_byte;
use disk_base::{Disk, DiskAnswer};
use spool_file::VERSION_GATE;

/// Writes the gate that says version 2 and syncs, and then the last letter of its name, and syncs.
pub fn write_version<D: Disk>(disk: &mut D) -> DiskAnswer
    requires { 4096 ≤ D.size_is disk.old }
    ensures { WritesVersion D.Disk disk.old disk.new result }
{
    match settle_byte(disk, VERSION_GATE, 1) {
        DiskAnswer::Failed => return DiskAnswer::Failed,
        DiskAnswer::Done => {}
    }
    settle_byte(disk, 7, b'2')
}
