//! Single calls of the disk, and the write of a byte with its sync, as rows of calls.

ghost use Rattle.std.specs.Prelude.{◌≡◌, ◌+◌, ◌≤◌, [], ◌∷◌, length};
ghost use Rattle.disk_base.specs.Calls.{read_call, sync_call, write_call};
ghost use Rattle.disk_base.specs.Disk.{Reads};
ghost use Rattle.disk_base.specs.declared.disk.DiskAnswer.TheVariants.{Done};
ghost use Rattle.spool_slots.specs.Calls.{byte_calls};
ghost use Rattle.spool_slots.specs.Carried.{CarriesOut};

use disk_base::{Disk, DiskAnswer};

/// Fills a buffer with the bytes from a place on.
pub fn read_at<D: Disk>(disk: &mut D, at: u64, into: &mut [u8]) -> DiskAnswer
    requires { at + length into.old ≤ D.size_is disk.old }
    ensures bytes { Reads (D.told disk.old) at into.new result }
    ensures told { D.told disk.new ≡ D.told disk.old }
    ensures row { CarriesOut D.Disk disk.old disk.new (read_call at (length into.old) Done ∷ []) result }
{
    disk.read(at, into)
}

/// Writes bytes from a place on.
pub fn write_at<D: Disk>(disk: &mut D, at: u64, bytes: &[u8]) -> DiskAnswer
    requires { at + length bytes.now ≤ D.size_is disk.old }
    ensures { CarriesOut D.Disk disk.old disk.new (write_call at bytes.now Done ∷ []) result }
{
    disk.write(at, bytes)
}

/// Makes all that was written last.
pub fn sync_all<D: Disk>(disk: &mut D) -> DiskAnswer
    ensures { CarriesOut D.Disk disk.old disk.new (sync_call Done ∷ []) result }
{
    disk.sync()
}

/// Writes one byte, and syncs.
pub fn settle_byte<D: Disk>(disk: &mut D, at: u64, byte: u8) -> DiskAnswer
    requires { at + 1 ≤ D.size_is disk.old }
    ensures { CarriesOut D.Disk disk.old disk.new (byte_calls at byte) result }
{
    match write_at(disk, at, &[byte]) {
        DiskAnswer::Failed => return DiskAnswer::Failed,
        DiskAnswer::Done => {}
    }
    sync_all(disk)
}
