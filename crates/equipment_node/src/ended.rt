//! Why an equipment has stopped in a step.

ghost use Rattle.std.specs.Prelude.{◌≡◌};
ghost use Rattle.equipment_node.specs.Held.{keeper_of, of_disk};

use spool_slots::Spent;
use spool_works::Ended as DiskEnded;

/// Why an equipment has stopped in a step. Its device is handed back, and the keeper of its recipes, of which nothing
/// may be asked any more where it is what has failed.
#[derive(Debug, Drop)]
pub enum Ended<D, K> {
    /// Memory ran out. Some first works of the step are done on the device, and some slots of its oldest message may be
    /// read; the recipes may have changed, as the host asked for.
    NoMemory(Spent<D>, K),
    /// The disk failed: the works before that call are done, and the one that it is of is done or not. Or the keeper
    /// failed: all works of the step are done, and some first of the changes that the host asked for are made.
    DiskFailed(Spent<D>, K),
    /// No system bytes are left, or no number for a message of the spool. The works that came before that are done.
    NumbersSpent(Spent<D>, K),
}

/// The same with the keeper.
pub(crate) fn with_keeper<D, K>(ended: DiskEnded<D>, keeper: K) -> Ended<D, K>
    ensures disk { of_disk result ≡ ended }
    ensures keeper { keeper_of result ≡ keeper }
{
    match ended {
        DiskEnded::NoMemory(spent) => Ended::NoMemory(spent, keeper),
        DiskEnded::DiskFailed(spent) => Ended::DiskFailed(spent, keeper),
        DiskEnded::NumbersSpent(spent) => Ended::NumbersSpent(spent, keeper),
    }
}
