//! What is looked for among the open slots of a file. Only slots are read whose hints tell that they may be such ones.

ghost use Rattle.std.specs.Prelude.{◌≡◌, ◌+◌, ◌≤◌, ◌&&◌, true, IfSome};
ghost use Rattle.recipe_disk.specs.Hints.{IsBelow, KnowsSlots, first_there, hint_in, is_there, may_be as may, sought_print as print_in};
ghost use Rattle.recipe_disk.specs.Map.{any_below};
ghost use Rattle.recipe_disk.specs.Reading.{HasLooked, SaysOf, is_sought as seeks, look_answer};
ghost use Rattle.recipe_disk.specs.Slot.{head_in, slot_place as place_of};

use crate::buckets::Bucket;
use crate::head::{Head, name_of, read_head};
use crate::hints::{Hint, Hints, fingerprint, hint_at};
use crate::reading::DiskFailed;
use disk_base::Disk;

/// What is looked for: a number, a name, or a name with a number above one.
#[derive(Clone, Copy, Debug)]
pub enum Sought<'a> {
    Number(u64),
    Name(&'a [u8]),
    Newer(&'a [u8], u64),
}

// Whether a head is open and such a one.
fn is_sought(sought: Sought<'_>, head: &Head) -> bool
    ensures { result ≡ head.now.opened && seeks sought.entry head.now }
{
    if !head.opened {
        return false;
    }
    match sought {
        Sought::Number(number) => head.number == number,
        Sought::Name(name) => name_of(head) == name,
        Sought::Newer(name, number) => name_of(head) == name && number < head.number,
    }
}

// The fingerprint of the name that is looked for, or 0 for a number.
fn sought_print(sought: Sought<'_>) -> u32
    ensures { result ≡ print_in sought.entry }
{
    match sought {
        Sought::Number(_) => 0,
        Sought::Name(name) => fingerprint(name),
        Sought::Newer(name, _) => fingerprint(name),
    }
}

// Whether a slot of this hint may be open and such a one.
fn may_be(sought: Sought<'_>, print: u32, hint: Hint) -> bool
    ensures { result ≡ hint.opened && may sought.entry print hint }
{
    if !hint.opened {
        return false;
    }
    match sought {
        Sought::Number(number) => hint.number == number,
        Sought::Name(_) => hint.print == print,
        Sought::Newer(_, number) => hint.print == print && number < hint.number,
    }
}

// Whether a slot is open and such a one.
fn is_sought_at<D: Disk>(
    disk: &mut D,
    slot: u32,
    hint: Hint,
    sought: Sought<'_>,
    print: u32,
) -> Result<bool, DiskFailed>
    requires within { place_of (slot + 1) ≤ D.size_is disk.old }
    requires print { print ≡ print_in sought }
    ensures found { SaysOf (D.told disk.old)
        (λ bytes found. hint ≡ hint_in (head_in bytes slot) → found ≡ is_there sought.entry bytes slot) result }
    ensures looked { HasLooked D.Disk disk.old disk.new (look_answer result) }
{
    if !may_be(sought, print, hint) {
        return Ok(false);
    }
    match read_head(disk, slot) {
        Ok(head) => Ok(is_sought(sought, &head)),
        Err(DiskFailed) => Err(DiskFailed),
    }
}

/// One of the slots of a bucket that is open and such a one.
pub fn one_sought<D: Disk>(
    disk: &mut D,
    hints: &Hints,
    slots: u32,
    bucket: &Bucket,
    sought: Sought<'_>,
) -> Result<Option<u32>, DiskFailed>
    requires within { place_of slots ≤ D.size_is disk.old }
    requires most { slots ≤ 4096 }
    requires known { KnowsSlots (D.told disk.old) slots hints.now }
    ensures found { SaysOf (D.told disk.old)
        (λ bytes found. IfSome found (λ k. is_there sought.entry bytes k ≡ true)) result }
    ensures below { IsBelow slots result }
    ensures looked { HasLooked D.Disk disk.old disk.new (look_answer result) }
{
    let print = sought_print(sought);
    for place in bucket {
        let slot = *place as u32;
        if slot < slots {
            let hint = hint_at(hints, slot);
            match is_sought_at(disk, slot, hint, sought, print) {
                Ok(found) => {
                    if found {
                        return Ok(Some(slot));
                    }
                }
                Err(DiskFailed) => return Err(DiskFailed),
            }
        }
    }
    Ok(None)
}

/// The first one of the first slots that is open and such a one.
pub fn first_sought<D: Disk>(
    disk: &mut D,
    hints: &Hints,
    slots: u32,
    sought: Sought<'_>,
) -> Result<Option<u32>, DiskFailed>
    requires within { place_of slots ≤ D.size_is disk.old }
    requires most { slots ≤ 4096 }
    requires known { KnowsSlots (D.told disk.old) slots hints.now }
    ensures found { SaysOf (D.told disk.old) (λ bytes found. found ≡ first_there sought.entry bytes slots) result }
    ensures below { IsBelow slots result }
    ensures looked { HasLooked D.Disk disk.old disk.new (look_answer result) }
{
    let print = sought_print(sought);
    for slot in 0..slots {
        let hint = hint_at(hints, slot);
        match is_sought_at(disk, slot, hint, sought, print) {
            Ok(found) => {
                if found {
                    return Ok(Some(slot));
                }
            }
            Err(DiskFailed) => return Err(DiskFailed),
        }
    }
    Ok(None)
}

/// Whether one of the first slots is open and such a one.
pub fn has_sought<D: Disk>(
    disk: &mut D,
    hints: &Hints,
    slots: u32,
    sought: Sought<'_>,
) -> Result<bool, DiskFailed>
    requires within { place_of slots ≤ D.size_is disk.old }
    requires most { slots ≤ 4096 }
    requires known { KnowsSlots (D.told disk.old) slots hints.now }
    ensures found { SaysOf (D.told disk.old)
        (λ bytes found. found ≡ any_below (λ k. (head_in bytes k).opened && seeks sought.entry (head_in bytes k)) slots)
        result }
    ensures looked { HasLooked D.Disk disk.old disk.new (look_answer result) }
{
    match first_sought(disk, hints, slots, sought) {
        Ok(found) => Ok(found.is_some()),
        Err(DiskFailed) => Err(DiskFailed),
    }
}
