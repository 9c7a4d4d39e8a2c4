//! Slots that were left open where a replacement was cut off: a newer one of the same name stands beside each.

ghost use Rattle.std.specs.Prelude.{◌≡◌, ◌+◌, ◌<◌, ◌≤◌};
ghost use Rattle.recipe_disk.specs.Hints.{KnowsSlots, StillKnows};
ghost use Rattle.recipe_disk.specs.Opening.{IsTidyCall, TidiesOn, TidiesTo};
ghost use Rattle.recipe_disk.specs.Reading.{HasMade};
ghost use Rattle.recipe_disk.specs.Slot.{slot_place as place_of};

use crate::head::{name_of, read_head};
use crate::hints::Hints;
use crate::reading::DiskFailed;
use crate::settling::close_slot;
use crate::sought::{Sought, has_sought};
use disk_base::{Disk, DiskAnswer};

// Closes a slot if it is open and a newer one has its name.
fn close_if_stale<D: Disk>(disk: &mut D, hints: &mut Hints, slots: u32, slot: u32) -> DiskAnswer
    requires slot { slot < slots }
    requires most { slots ≤ 4096 }
    requires within { place_of slots ≤ D.size_is disk.old }
    requires known { KnowsSlots (D.told disk.old) slots hints.old }
    ensures known { StillKnows (D.told disk.old) (D.told disk.new) slots hints.old hints.new result }
    ensures told { TidiesOn (D.told disk.old) (D.told disk.new) slots slot result }
    ensures made { HasMade IsTidyCall D.Disk disk.old disk.new result }
{
    let head = match read_head(disk, slot) {
        Ok(head) => head,
        Err(DiskFailed) => return DiskAnswer::Failed,
    };
    if !head.opened {
        return DiskAnswer::Done;
    }
    match has_sought(
        disk,
        hints,
        slots,
        Sought::Newer(name_of(&head), head.number),
    ) {
        Ok(stale) => {
            if !stale {
                return DiskAnswer::Done;
            }
            close_slot(disk, hints, slot)
        }
        Err(DiskFailed) => DiskAnswer::Failed,
    }
}

/// Closes all but the newest slot of each name, from the first one on.
pub fn close_stale<D: Disk>(disk: &mut D, hints: &mut Hints, slots: u32) -> DiskAnswer
    requires most { slots ≤ 4096 }
    requires within { place_of slots ≤ D.size_is disk.old }
    requires known { KnowsSlots (D.told disk.old) slots hints.old }
    ensures known { StillKnows (D.told disk.old) (D.told disk.new) slots hints.old hints.new result }
    ensures told { TidiesTo (D.told disk.old) (D.told disk.new) slots slots result }
    ensures made { HasMade IsTidyCall D.Disk disk.old disk.new result }
{
    for slot in 0..slots {
        match close_if_stale(disk, hints, slots, slot) {
            DiskAnswer::Done => {}
            DiskAnswer::Failed => return DiskAnswer::Failed,
        }
    }
    DiskAnswer::Done
}
