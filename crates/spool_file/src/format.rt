//! A new file: its first page, its slots, all closed, and its area of zeros.

ghost use Rattle.std.specs.Prelude.{◌≡◌, ◌+◌, ◌<◌, ◌≤◌, None};
ghost use Rattle.disk_base.specs.Faults.{HasCause};
ghost use Rattle.disk_base.specs.SameDisk.{IsSameDisk};
ghost use Rattle.spool_file.specs.Added.{OnlyAdds, WritesOrSyncs};
ghost use Rattle.spool_file.specs.Format.{ClosesSlots, StandsEmpty, first_page as page_of};
ghost use Rattle.spool_file.specs.Setup.{area_end};
ghost use Rattle.spool_file.specs.Slot.{slot_place as place_of};

use crate::setup::clear_area;
use crate::slot::{CLOSED, SLOT_SIZE};
use crate::slots::slot_place;
use arrayvec::ArrayVec;
use disk_base::{Disk, DiskAnswer};

// The name at the start of a new file.
const NEW_MAGIC: [u8; 8] = [0x47, 0x4C, 0x53, 0x50, 0x4F, 0x4F, 0x4C, 0x32];

/// What stands before the slots.
pub type Page = ArrayVec<u8, SLOT_SIZE>;

/// The first page of a new file: its name, how many slots there are, zeros, which are mark 0 and floor 0, and the gate
/// that says version 2.
#[tactic(auto, unfolding(crate::specs::Format::first_page))]
pub fn first_page(slots: u32) -> Page
    ensures { result.items ≡ page_of slots }
{
    let mut page = Page::new();
    page.try_extend_from_slice(&NEW_MAGIC).unwrap();
    page.try_extend_from_slice(&slots.to_be_bytes()).unwrap();
    page.try_extend_from_slice(&[0; 34]).unwrap();
    page.try_extend_from_slice(&[1]).unwrap();
    page.try_extend_from_slice(&[0; 4049]).unwrap();
    page
}

/// Closes the gate of each slot.
pub fn close_slots<D: Disk>(disk: &mut D, slots: u32) -> DiskAnswer
    requires size { place_of slots ≤ D.size_is disk.old }
    requires slots { slots ≤ 65535 }
    ensures told { ClosesSlots (D.told disk.old) (D.told disk.new) slots result }
    ensures size { D.size_is disk.new ≡ D.size_is disk.old }
    ensures cause { HasCause (D.health disk.old) (D.health disk.new) slots slots
        ((D.health disk.old).room < slots) result }
    ensures calls { OnlyAdds WritesOrSyncs (D.calls disk.old) (D.calls disk.new) }
    ensures same_disk { IsSameDisk D.Disk disk.old disk.new }
{
    for slot in 0..slots {
        match disk.write(slot_place(slot), &[CLOSED]) {
            DiskAnswer::Done => {}
            DiskAnswer::Failed => return DiskAnswer::Failed,
        }
    }
    DiskAnswer::Done
}

/// Writes the first page, closes the slots, fills the area with zeros, and syncs.
pub fn write_empty<D: Disk>(disk: &mut D, slots: u32) -> DiskAnswer
    requires size { area_end slots ≤ D.size_is disk.old }
    requires some { 1 ≤ slots }
    requires most { slots ≤ 65535 }
    ensures told { StandsEmpty (D.told disk.new) slots result }
    ensures size { D.size_is disk.new ≡ D.size_is disk.old }
    ensures cause { HasCause (D.health disk.old) (D.health disk.new) (slots + 34) (slots + 528384)
        ((D.health disk.old).room < slots + 528384) result }
    ensures calls { OnlyAdds WritesOrSyncs (D.calls disk.old) (D.calls disk.new) }
    ensures same_disk { IsSameDisk D.Disk disk.old disk.new }
{
    match disk.write(0, &first_page(slots)) {
        DiskAnswer::Done => {}
        DiskAnswer::Failed => return DiskAnswer::Failed,
    }
    match close_slots(disk, slots) {
        DiskAnswer::Done => {}
        DiskAnswer::Failed => return DiskAnswer::Failed,
    }
    match clear_area(disk, slots) {
        DiskAnswer::Done => {}
        DiskAnswer::Failed => return DiskAnswer::Failed,
    }
    match disk.sync() {
        DiskAnswer::Done => DiskAnswer::Done,
        DiskAnswer::Failed => DiskAnswer::Failed,
    }
}
