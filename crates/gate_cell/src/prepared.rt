//! The second half of a change: the new value is written and doesn't count, and a commit lets it.

ghost use Rattle.std.specs.Prelude.{◌≡◌, ◌+◌, ◌<◌, ◌≤◌, false, [], ◌∷◌, None, Some, IfOk};
ghost use Rattle.disk_base.specs.Faults.{GoesAsListed, HasCause, IsLeftOut};
ghost use Rattle.disk_base.specs.Listed.{AsListed};
ghost use Rattle.disk_base.specs.SameDisk.{IsSameDisk};
ghost use Rattle.disk_base.specs.Settle.{LogsBoth};
ghost use Rattle.disk_base.specs.Story.{Story};
ghost use Rattle.gate_cell.specs.Cell.{gate_byte as byte_of};
ghost use Rattle.gate_cell.specs.Ready.{Commits, HasSpare, IsCommitted, OnDisk};

use crate::places::place_in;
use disk_base::{Disk, DiskAnswer, settle};

/// A disk with a cell whose new value is written, and isn't the one that counts yet.
#[derive(Debug, Drop)]
pub struct Prepared<D: Disk> {
    pub(crate) disk: D,
    pub(crate) at: u64,
    // whether the new value is in copy 1
    pub(crate) second: bool,
    ghost within: { at + 17 ≤ D.size_is disk },
    ghost spare: { (s : Story) → D.told disk ≡ Some s → HasSpare s at second },
}

// The gate that names a copy.
fn gate_byte(second: bool) -> u8
    ensures { result ≡ byte_of second }
{
    if second { 1 } else { 0 }
}

impl<D: Disk> Prepared<D> {
    /// Lets the new value count: writes the gate that names its copy, and syncs. A crash leaves the old value or the
    /// new one, and once this is `Ok` the new one. `Err` comes only where the disk has counted a fault.
    pub fn commit(self) -> Result<D, D>
        ensures told { (s : Story) → D.told self.disk ≡ Some s → OnDisk (λ disk. disk) result
            (λ after answer. Commits s self.at self.second (D.told after) answer) }
        ensures untold { D.told self.disk ≡ None → OnDisk (λ disk. disk) result (λ after answer. D.told after ≡ None) }
        ensures value { (s : Story) → D.told self.disk ≡ Some s →
            IfOk result (λ after. IsCommitted s self.at (D.told after)) }
        ensures size { OnDisk (λ disk. disk) result (λ after answer. D.size_is after ≡ D.size_is self.disk) }
        ensures calls { OnDisk (λ disk. disk) result (λ after answer.
            LogsBoth (self.at + 16) (byte_of self.second ∷ []) (IsLeftOut (D.health self.disk) (D.health after))
            (D.calls self.disk) (D.calls after) answer) }
        ensures listed { GoesAsListed (D.health self.disk) → OnDisk (λ disk. disk) result (λ after answer.
            AsListed (D.told self.disk) (D.calls self.disk) (D.told after) (D.calls after)) }
        ensures cause { OnDisk (λ disk. disk) result (λ after answer.
            HasCause (D.health self.disk) (D.health after) 2 1 ((D.health self.disk).room < 1) answer) }
        ensures same_disk { OnDisk (λ disk. disk) result (λ after answer. IsSameDisk D.Disk self.disk after) }
    {
        let Prepared { disk, at, second } = self;
        let mut disk = disk;
        let gate = place_in(&disk, at, 16);
        match settle(&mut disk, gate, &[gate_byte(second)]) {
            DiskAnswer::Failed => Err(disk),
            DiskAnswer::Done => Ok(disk),
        }
    }
}
