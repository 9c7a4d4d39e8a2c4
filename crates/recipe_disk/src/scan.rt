//! The tests of a file's slots, in their order: the fields of the open ones, their numbers, and how many names there
//! are.

ghost use Rattle.std.specs.Prelude.{◌≡◌, ◌+◌, ◌<◌, ◌≤◌, if◌then◌else◌};
ghost use Rattle.std.specs.FinMap.{len};
ghost use Rattle.spool_file.specs.Area.{first_at};
ghost use Rattle.recipe_disk.specs.File.{area_break, fields_at, number_at, recipes_break, slots_in};
ghost use Rattle.recipe_disk.specs.Hints.{AreHints, KnowsSlots, hint_in};
ghost use Rattle.recipe_disk.specs.Map.{is_new_name, recipes_below};
ghost use Rattle.recipe_disk.specs.Reading.{Finds, FrontFits, HasLooked, reading_answer};
ghost use Rattle.recipe_disk.specs.Slot.{head_in, slot_in, slot_place as place_of};

use crate::front::read_front;
use crate::head::{fields_break, name_of, read_head, slot_place};
use crate::hints::{Hint, Hints, hint_of, shut_hint};
use crate::reading::{DiskFailed, Reading, broken_at};
use crate::sought::{Sought, has_sought};
use disk_base::Disk;

// Where in a slot its number and its name stand.
const NUMBER: u64 = 1;

const NAME: u64 = 10;

// Tests the fields of a slot, if it is open, and answers its hint.
fn check_fields<D: Disk>(disk: &mut D, slot: u32) -> Reading<Hint>
    requires { place_of (slot + 1) ≤ D.size_is disk.old }
    ensures fields { Finds (D.told disk.old) (λ bytes. fields_at (slot_in bytes) slot)
        (λ bytes hint. hint ≡ hint_in (head_in bytes slot)) result }
    ensures looked { HasLooked D.Disk disk.old disk.new (reading_answer result) }
{
    let head = match read_head(disk, slot) {
        Ok(head) => head,
        Err(DiskFailed) => return Reading::Failed,
    };
    if !head.opened {
        return Reading::Whole(shut_hint());
    }
    match fields_break(&head) {
        Some(place) => broken_at(disk, slot_place(slot) + place),
        None => Reading::Whole(hint_of(&head)),
    }
}

// Tests the fields of all open slots, and takes down the hints of all.
fn check_all_fields<D: Disk>(disk: &mut D, hints: &mut Hints, slots: u32) -> Reading<()>
    requires within { place_of slots ≤ D.size_is disk.old }
    requires most { slots ≤ 4096 }
    ensures fields { Finds (D.told disk.old) (λ bytes. first_at (fields_at (slot_in bytes)) slots)
        (λ bytes value. AreHints (slot_in bytes) slots hints.new) result }
    ensures looked { HasLooked D.Disk disk.old disk.new (reading_answer result) }
{
    for slot in 0..slots {
        match check_fields(disk, slot) {
            Reading::Whole(hint) => hints[slot as usize] = hint,
            Reading::Broken(not_spool) => return Reading::Broken(not_spool),
            Reading::Failed => return Reading::Failed,
        }
    }
    Reading::Whole(())
}

// Tests the number of a slot, if it is open, against those of the slots before it, and answers whether its name is new.
fn check_number<D: Disk>(disk: &mut D, hints: &Hints, slot: u32) -> Reading<bool>
    requires within { place_of (slot + 1) ≤ D.size_is disk.old }
    requires most { slot < 4096 }
    requires known { KnowsSlots (D.told disk.old) (slot + 1) hints.now }
    ensures number { Finds (D.told disk.old) (λ bytes. number_at (slot_in bytes) slot)
        (λ bytes is_new. is_new ≡ is_new_name (slot_in bytes) slot) result }
    ensures looked { HasLooked D.Disk disk.old disk.new (reading_answer result) }
{
    let head = match read_head(disk, slot) {
        Ok(head) => head,
        Err(DiskFailed) => return Reading::Failed,
    };
    if !head.opened {
        return Reading::Whole(false);
    }
    match has_sought(disk, hints, slot, Sought::Number(head.number)) {
        Ok(used) => {
            if used {
                return broken_at(disk, slot_place(slot) + NUMBER);
            }
        }
        Err(DiskFailed) => return Reading::Failed,
    }
    match has_sought(disk, hints, slot, Sought::Name(name_of(&head))) {
        Ok(known) => Reading::Whole(!known),
        Err(DiskFailed) => Reading::Failed,
    }
}

// A count with one more, if there is one more.
fn count_with(names: u32, is_new: bool) -> u32
    requires { names < 4096 }
    ensures { result ≡ (if is_new then names + 1 else names) }
{
    if is_new { names + 1 } else { names }
}

// Tests the numbers of all open slots, and counts their names.
fn count_names<D: Disk>(disk: &mut D, hints: &Hints, slots: u32) -> Reading<u32>
    requires within { place_of slots ≤ D.size_is disk.old }
    requires most { slots ≤ 4096 }
    requires known { KnowsSlots (D.told disk.old) slots hints.now }
    ensures names { Finds (D.told disk.old) (λ bytes. first_at (number_at (slot_in bytes)) slots)
        (λ bytes names. names ≡ len (recipes_below (slot_in bytes) slots)) result }
    ensures looked { HasLooked D.Disk disk.old disk.new (reading_answer result) }
{
    let mut names = 0;
    for slot in 0..slots {
        match check_number(disk, hints, slot) {
            Reading::Whole(is_new) => names = count_with(names, is_new),
            Reading::Broken(not_spool) => return Reading::Broken(not_spool),
            Reading::Failed => return Reading::Failed,
        }
    }
    Reading::Whole(names)
}

// Tests the slots.
fn check_slots<D: Disk>(disk: &mut D, hints: &mut Hints, slots: u32) -> Reading<()>
    requires some { 2 ≤ slots }
    requires most { slots ≤ 4096 }
    requires within { place_of slots ≤ D.size_is disk.old }
    ensures area { Finds (D.told disk.old) (λ bytes. area_break (slot_in bytes) slots)
        (λ bytes value. AreHints (slot_in bytes) slots hints.new) result }
    ensures looked { HasLooked D.Disk disk.old disk.new (reading_answer result) }
{
    match check_all_fields(disk, hints, slots) {
        Reading::Whole(()) => {}
        Reading::Broken(not_spool) => return Reading::Broken(not_spool),
        Reading::Failed => return Reading::Failed,
    }
    match count_names(disk, hints, slots) {
        Reading::Whole(names) => {
            if names < slots {
                return Reading::Whole(());
            }
            broken_at(disk, slot_place(slots - 1) + NAME)
        }
        Reading::Broken(not_spool) => Reading::Broken(not_spool),
        Reading::Failed => Reading::Failed,
    }
}

/// Tests a whole file, answers how many slots it has, and takes down the hints of these.
pub fn read_file<D: Disk>(disk: &mut D, hints: &mut Hints) -> Reading<u32>
    ensures file { Finds (D.told disk.old) recipes_break
        (λ bytes slots. (slots ≡ slots_in bytes) × AreHints (slot_in bytes) slots hints.new) result }
    ensures fits { FrontFits (D.size_is disk.old) result }
    ensures looked { HasLooked D.Disk disk.old disk.new (reading_answer result) }
{
    let slots = match read_front(disk) {
        Reading::Whole(slots) => slots,
        Reading::Broken(not_spool) => return Reading::Broken(not_spool),
        Reading::Failed => return Reading::Failed,
    };
    match check_slots(disk, hints, slots) {
        Reading::Whole(()) => Reading::Whole(slots),
        Reading::Broken(not_spool) => Reading::Broken(not_spool),
        Reading::Failed => Reading::Failed,
    }
}
