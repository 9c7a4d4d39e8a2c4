//! A whole file is read, for what is known of a device with a spool.

ghost use Rattle.std.specs.Prelude.{◌≡◌};
ghost use Rattle.disk_base.specs.SameDisk.{IsSameDisk};
ghost use Rattle.spool_file.specs.Reading.{FileFits, FileIs, reading_answer};
ghost use Rattle.spool_file.specs.Reads.{HasRead, MakesWhole, file_looks, file_reads};

use crate::front::read_front;
use crate::reading::Reading;
use crate::slots::read_slots;
use disk_base::Disk;

/// What a spool file holds: its version, 1 or 2, how many slots, the numbers of the first message and of the next one,
/// how many messages, and the mark.
#[derive(Clone, Copy, Debug)]
pub struct Known {
    pub version: u8,
    pub slots: u32,
    pub first: u64,
    pub next: u64,
    pub len: u32,
    pub mark: u64,
}

impl Known {
    /// Of an empty list with mark 0, in a new file.
    pub fn new(slots: u32) -> Known
        ensures { result ≡ record { version = 2; slots = slots; first = 0; next = 0; len = 0; mark = 0 } }
    {
        Known {
            version: 2,
            slots,
            first: 0,
            next: 0,
            len: 0,
            mark: 0,
        }
    }
}

/// Reads a file whole.
pub fn read_file<D: Disk>(disk: &mut D) -> Reading<Known>
    ensures file { FileIs (D.told disk.old) result }
    ensures fits { FileFits (D.size_is disk.old) result }
    ensures told { D.told disk.new ≡ D.told disk.old }
    ensures size { D.size_is disk.new ≡ D.size_is disk.old }
    ensures reads { HasRead (D.health disk.old) (D.health disk.new) (D.calls disk.old) (D.calls disk.new)
        (file_reads (D.told disk.old) (D.size_is disk.old) result) (reading_answer result) }
    ensures exact { MakesWhole file_looks (D.told disk.old) (D.health disk.old) (D.health disk.new)
        (D.calls disk.old) (D.calls disk.new) (reading_answer result) }
    ensures same_disk { IsSameDisk D.Disk disk.old disk.new }
{
    match read_front(disk) {
        Reading::Whole(front) => match read_slots(disk, front.frame) {
            Reading::Whole(scan) => Reading::Whole(Known {
                version: front.frame.version,
                slots: front.frame.slots,
                first: scan.least,
                next: scan.least + scan.used as u64,
                len: scan.count,
                mark: front.mark,
            }),
            Reading::Broken(not_spool) => Reading::Broken(not_spool),
            Reading::Failed => Reading::Failed,
        },
        Reading::Broken(not_spool) => Reading::Broken(not_spool),
        Reading::Failed => Reading::Failed,
    }
}
