//! A write with its sync, the pair of calls by which the cells and slots above change their bytes.

ghost use Rattle.std.specs.Prelude.{◌≡◌, ◌+◌, ◌<◌, ◌≤◌, false, length};
ghost use Rattle.disk_base.specs.Faults.{GoesAsListed, HasCause, IsLeftOut};
ghost use Rattle.disk_base.specs.Listed.{AsListed};
ghost use Rattle.disk_base.specs.SameDisk.{IsSameDisk};
ghost use Rattle.disk_base.specs.Settle.{LogsBoth, Settles};

use crate::disk::{Disk, DiskAnswer};

/// Writes bytes over those from a place on and syncs: two calls. Where it fails, nothing was written, or the bytes or
/// some others in their place, and all that was loose is so still.
pub fn settle<D: Disk>(disk: &mut D, at: u64, bytes: &[u8]) -> DiskAnswer
    requires { at + length bytes.now ≤ D.size_is disk.old }
    ensures told { Settles (D.told disk.old) at bytes.now (D.told disk.new) result }
    ensures size { D.size_is disk.new ≡ D.size_is disk.old }
    ensures calls { LogsBoth at bytes.now (IsLeftOut (D.health disk.old) (D.health disk.new))
        (D.calls disk.old) (D.calls disk.new) result }
    ensures listed { GoesAsListed (D.health disk.old) →
        AsListed (D.told disk.old) (D.calls disk.old) (D.told disk.new) (D.calls disk.new) }
    ensures cause { HasCause (D.health disk.old) (D.health disk.new) 2 (length bytes.now)
        ((D.health disk.old).room < length bytes.now) result }
    ensures same_disk { IsSameDisk D.Disk disk.old disk.new }
{
    match disk.write(at, bytes) {
        DiskAnswer::Failed => return DiskAnswer::Failed,
        DiskAnswer::Done => {}
    }
    disk.sync()
}
