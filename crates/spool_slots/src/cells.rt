//! A number in front of the slots is changed: it stands in a cell of `gate_cell`, so that a crash leaves the old one or
//! the new one.

ghost use Rattle.std.specs.Prelude.{◌≡◌, ◌+◌, ◌<◌, ◌≤◌, false, None, Some, IfErr, IfOk};
ghost use Rattle.disk_base.specs.Faults.{GoesAsListed, HasCause, IsLeftOut};
ghost use Rattle.disk_base.specs.Listed.{AsListed};
ghost use Rattle.disk_base.specs.SameDisk.{IsSameDisk};
ghost use Rattle.disk_base.specs.Story.{Story};
ghost use Rattle.disk_base.specs.Through.{GoesThrough};
ghost use Rattle.gate_cell.specs.Cell.{cell_in, with_value};
ghost use Rattle.gate_cell.specs.Holds.{HoldsEither};
ghost use Rattle.gate_cell.specs.Ready.{IsCell, OnDisk};
ghost use Rattle.spool_slots.specs.Changes.{HasValue, LogsValue};
ghost use Rattle.spool_slots.specs.Losses.{HasLostValue};

use disk_base::{Disk, cut_leaves_the_chosen_byte, failed_settle_has_written};
use gate_cell::prepare;

/// Writes another value of the cell that begins at a place: into the copy that doesn't count, and then the gate that
/// names it. At every moment the old value counts, or the new one.
pub fn write_cell<D: Disk>(disk: D, at: u64, value: u64) -> Result<D, D>
    requires within { at + 17 ≤ D.size_is disk }
    requires settled { (s : Story) → D.told disk ≡ Some s → IsCell s at }
    ensures images { (s : Story) → D.told disk ≡ Some s → OnDisk (λ d. d) result (λ after answer.
        GoesThrough s (D.told after) (HoldsEither s.now at (cell_in s.now.bytes at)
        (with_value value (cell_in s.now.bytes at)))) }
    ensures value { (s : Story) → D.told disk ≡ Some s → IfOk result (λ after. HasValue s at value (D.told after)) }
    ensures untold { D.told disk ≡ None → OnDisk (λ d. d) result (λ after answer. D.told after ≡ None) }
    ensures size { OnDisk (λ d. d) result (λ after answer. D.size_is after ≡ D.size_is disk) }
    ensures calls { (s : Story) → D.told disk ≡ Some s → OnDisk (λ d. d) result (λ after answer.
        LogsValue s at value (IsLeftOut (D.health disk) (D.health after)) (D.calls disk) (D.calls after) answer) }
    ensures listed { GoesAsListed (D.health disk) → OnDisk (λ d. d) result (λ after answer.
        AsListed (D.told disk) (D.calls disk) (D.told after) (D.calls after)) }
    ensures cause { OnDisk (λ d. d) result (λ after answer.
        HasCause (D.health disk) (D.health after) 5 9 ((D.health disk).room < 9) answer) }
    ensures loss { (s : Story) → D.told disk ≡ Some s →
        IfErr result (λ after. HasLostValue s at value (D.health disk) (D.health after) (D.told after)) }
    ensures same_disk { OnDisk (λ d. d) result (λ after answer. IsSameDisk D.Disk disk after) }
{
    match prepare(disk, at, value) {
        Err(disk) => Err(disk),
        Ok(prepared) => match prepared.commit() {
            Ok(disk) => Ok(disk),
            Err(disk) => {
                failed_settle_has_written();
                cut_leaves_the_chosen_byte();
                Err(disk)
            }
        },
    }
}
