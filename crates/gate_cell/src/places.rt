//! Places in a cell: that they are numbers of 64 bits, since the disk reaches there, is shown here once.

ghost use Rattle.std.specs.Prelude.{◌≡◌, ◌+◌, ◌≤◌};

use disk_base::Disk;

/// So many bytes behind a place. The disk reaches there, so it is a number of 64 bits.
pub fn place_in<D: Disk>(disk: &D, at: u64, offset: u64) -> u64
    requires { at + offset ≤ D.size_is disk.now }
    ensures { result ≡ at + offset }
{
    // a size is a number of 64 bits, and what lies below it is, too
    let _ = disk.size();
    at + offset
}
