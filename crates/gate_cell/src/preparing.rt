//! The first half of a change: the new value goes into the copy that doesn't count.

ghost use Rattle.std.specs.Prelude.{◌≡◌, ◌+◌, ◌<◌, ◌≤◌, false, not, None, Some, IfOk};
ghost use Rattle.disk_base.specs.Faults.{GoesAsListed, HasCause, IsLeftOut};
ghost use Rattle.disk_base.specs.Listed.{AsListed};
ghost use Rattle.disk_base.specs.SameDisk.{IsSameDisk};
ghost use Rattle.disk_base.specs.Story.{Story};
ghost use Rattle.gate_cell.specs.Calls.{LogsPreparing};
ghost use Rattle.gate_cell.specs.Cell.{cell_in};
ghost use Rattle.gate_cell.specs.Ready.{IsCell, IsReady, OnDisk, Prepares};

use crate::cell::{copy_bytes, copy_place, names_second};
use crate::places::place_in;
use crate::prepared::Prepared;
use disk_base::{Disk, DiskAnswer, settle};

/// Writes a new value that doesn't count yet: reads which copy the gate names, writes the other one, and syncs. A crash
/// leaves the old value. `Err` comes only where the disk has counted a fault.
pub fn prepare<D: Disk>(disk: D, at: u64, value: u64) -> Result<Prepared<D>, D>
    requires within { at + 17 ≤ D.size_is disk }
    requires settled { (s : Story) → D.told disk ≡ Some s → IsCell s at }
    ensures told { (s : Story) → D.told disk ≡ Some s → OnDisk (λ w. w.disk) result
        (λ after answer. Prepares s at value (D.told after) answer) }
    ensures untold { D.told disk ≡ None → OnDisk (λ w. w.disk) result (λ after answer. D.told after ≡ None) }
    ensures value { IfOk result (λ w. (w.at ≡ at) × IsReady at value (D.told w.disk)) }
    ensures second { (s : Story) → D.told disk ≡ Some s →
        IfOk result (λ w. w.second ≡ not (cell_in s.now.bytes at).second) }
    ensures size { OnDisk (λ w. w.disk) result (λ after answer. D.size_is after ≡ D.size_is disk) }
    ensures calls { (s : Story) → D.told disk ≡ Some s → OnDisk (λ w. w.disk) result (λ after answer.
        LogsPreparing s at value (IsLeftOut (D.health disk) (D.health after)) (D.calls disk) (D.calls after) answer) }
    ensures listed { GoesAsListed (D.health disk) → OnDisk (λ w. w.disk) result (λ after answer.
        AsListed (D.told disk) (D.calls disk) (D.told after) (D.calls after)) }
    ensures cause { OnDisk (λ w. w.disk) result (λ after answer.
        HasCause (D.health disk) (D.health after) 3 8 ((D.health disk).room < 8) answer) }
    ensures same_disk { OnDisk (λ w. w.disk) result (λ after answer. IsSameDisk D.Disk disk after) }
{
    let mut disk = disk;
    let mut gate = [0];
    let gate_place = place_in(&disk, at, 16);
    match disk.read(gate_place, &mut gate) {
        DiskAnswer::Failed => return Err(disk),
        DiskAnswer::Done => {}
    }
    let second = !names_second(gate[0]);
    let copy = place_in(&disk, at, copy_place(second));
    match settle(&mut disk, copy, &copy_bytes(value)) {
        DiskAnswer::Failed => Err(disk),
        DiskAnswer::Done => Ok(Prepared { disk, at, second }),
    }
}
