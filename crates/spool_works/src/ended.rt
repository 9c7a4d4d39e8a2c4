//! Why a step over the device of a spool has stopped.

use spool_slots::Spent;

/// Why an equipment has stopped in a step. Its device is handed back.
#[derive(Debug, Drop)]
pub enum Ended<D> {
    /// Memory ran out. Some first works of the step are done on the device, and some slots of its oldest message may be
    /// read.
    NoMemory(Spent<D>),
    /// The disk failed. The works before that call are done, and the one that it is of is done or not.
    DiskFailed(Spent<D>),
    /// No system bytes are left, or no number for a message of the spool. The works that came before that are done.
    NumbersSpent(Spent<D>),
}
