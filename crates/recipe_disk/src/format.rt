//! A new file: its first page, and its slots, all closed.

ghost use Rattle.std.specs.Prelude.{◌≡◌, ◌≤◌};
ghost use Rattle.spool_file.specs.Added.{WritesOrSyncs};
ghost use Rattle.recipe_disk.specs.Opening.{ClosesSlots, StandsEmpty, first_page as page_of};
ghost use Rattle.recipe_disk.specs.Reading.{HasMade};
ghost use Rattle.recipe_disk.specs.Slot.{slot_place as place_of};

use crate::front::MAGIC;
use crate::head::{CLOSED, slot_place};
use arrayvec::ArrayVec;
use disk_base::{Disk, DiskAnswer};

// What stands before the slots.
type Page = ArrayVec<u8, 4096>;

// The first page of a new file: its name, and how many slots there are.
#[tactic(auto, unfolding(crate::specs::Opening::first_page))]
fn first_page(slots: u32) -> Page
    ensures { result.items ≡ page_of slots }
{
    let mut page = Page::new();
    page.try_extend_from_slice(&MAGIC).unwrap();
    page.try_extend_from_slice(&slots.to_be_bytes()).unwrap();
    page.try_extend_from_slice(&[0; 4084]).unwrap();
    page
}

// Closes the gate of each slot.
fn close_slots<D: Disk>(disk: &mut D, slots: u32) -> DiskAnswer
    requires { place_of slots ≤ D.size_is disk.old }
    ensures told { ClosesSlots (D.told disk.old) (D.told disk.new) slots result }
    ensures made { HasMade WritesOrSyncs D.Disk disk.old disk.new result }
{
    for slot in 0..slots {
        match disk.write(slot_place(slot), &[CLOSED]) {
            DiskAnswer::Done => {}
            DiskAnswer::Failed => return DiskAnswer::Failed,
        }
    }
    DiskAnswer::Done
}

/// Writes the first page, closes the slots, and syncs.
pub fn write_empty<D: Disk>(disk: &mut D, slots: u32) -> DiskAnswer
    requires some { 2 ≤ slots }
    requires most { slots ≤ 4096 }
    requires size { place_of slots ≤ D.size_is disk.old }
    ensures told { StandsEmpty (D.told disk.new) slots result }
    ensures made { HasMade WritesOrSyncs D.Disk disk.old disk.new result }
{
    match disk.write(0, &first_page(slots)) {
        DiskAnswer::Done => {}
        DiskAnswer::Failed => return DiskAnswer::Failed,
    }
    match close_slots(disk, slots) {
        DiskAnswer::Done => {}
        DiskAnswer::Failed => return DiskAnswer::Failed,
    }
    match disk.sync() {
        DiskAnswer::Done => DiskAnswer::Done,
        DiskAnswer::Failed => DiskAnswer::Failed,
    }
}
