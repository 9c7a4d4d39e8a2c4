//! What reading a part of a file comes to.

ghost use Rattle.std.specs.Prelude.{◌≡◌, ◌+◌, ◌≤◌, Some};
ghost use Rattle.recipe_disk.specs.Reading.{Breaks, HasLooked, reading_answer};

use disk_base::{Disk, DiskAnswer};
use spool_file::NotSpool;

/// The disk failed.
#[derive(Clone, Copy, Debug)]
pub struct DiskFailed;

/// What reading a part of a file came to.
#[derive(Clone, Copy, Debug)]
pub enum Reading<T> {
    Whole(T),
    Broken(NotSpool),
    /// The disk failed.
    Failed,
}

/// A break at a place, with the byte there.
pub fn broken_at<T, D: Disk>(disk: &mut D, at: u64) -> Reading<T>
    requires { at + 1 ≤ D.size_is disk.old }
    ensures broken { Breaks (D.told disk.old) at result }
    ensures looked { HasLooked D.Disk disk.old disk.new (reading_answer result) }
{
    let mut byte = [0];
    match disk.read(at, &mut byte) {
        DiskAnswer::Done => Reading::Broken(NotSpool {
            at,
            got: Some(byte[0]),
        }),
        DiskAnswer::Failed => Reading::Failed,
    }
}
