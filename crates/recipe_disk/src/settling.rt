//! How a slot is changed: what stands behind its gate, and then the gate, each with a sync.

ghost use Rattle.std.specs.Prelude.{◌≡◌, ◌+◌, ℕ, ◌<◌, ◌≤◌, ◌^◌, true, ◌++◌, [], ◌∷◌, length, replicate, IfSome};
ghost use Rattle.spool_slots.specs.Changes.{HasSettled};
ghost use Rattle.recipe_disk.specs.Changes.{HasWritten, open_writes, parts_of as bytes_of, put_writes};
ghost use Rattle.recipe_disk.specs.Hints.{StillKnows, print_of};
ghost use Rattle.recipe_disk.specs.Slot.{slot_place as place_of};

use crate::head::{BODY_MOST, CLOSED, NAME_MOST, OPEN, slot_place};
use crate::hints::{Hint, Hints, fingerprint, shut_hint};
use arrayvec::ArrayVec;
use disk_base::{Disk, DiskAnswer, settle};

/// A recipe that is to be stored.
#[derive(Clone, Copy, Debug)]
pub struct NewRecipe<'a> {
    pub number: u64,
    pub name: &'a [u8],
    pub body: &'a [u8],
}

// What stands in a slot behind its gate.
type Parts = ArrayVec<u8, 65535>;

// Puts zeros behind parts.
fn push_zeros(parts: &mut Parts, count: usize)
    requires count { count ≤ 80 }
    requires room { length parts.old.items + count ≤ 65535 }
    ensures { parts.new.items ≡ parts.old.items ++ replicate count 0 }
{
    parts
        .try_extend_from_slice(&[0; NAME_MOST][..count])
        .unwrap();
}

// The bytes of a recipe behind its gate.
fn parts_of(recipe: &NewRecipe<'_>) -> Parts
    requires name { length recipe.now.name.now ≤ 80 }
    requires body { length recipe.now.body.now ≤ 65442 }
    ensures { result.items ≡ bytes_of recipe.now.number recipe.now.name.now recipe.now.body.now }
{
    let name_len = recipe.name.len();
    let mut parts = Parts::new();
    parts
        .try_extend_from_slice(&recipe.number.to_be_bytes())
        .unwrap();
    parts.push(name_len as u8);
    parts.try_extend_from_slice(recipe.name).unwrap();
    push_zeros(&mut parts, NAME_MOST - name_len);
    let body_len = recipe.body.len() as u32;
    parts
        .try_extend_from_slice(&body_len.to_be_bytes())
        .unwrap();
    parts.try_extend_from_slice(recipe.body).unwrap();
    parts
}

// The hint of an open slot with a recipe.
fn hint_for(recipe: &NewRecipe<'_>) -> Hint
    ensures number { recipe.now.number < 2 ^ 64 }
    ensures hint { result ≡ record { opened = true; print = print_of recipe.now.name.now; number = recipe.now.number } }
{
    Hint {
        opened: true,
        print: fingerprint(recipe.name),
        number: recipe.number,
    }
}

// Writes the gate of a slot, and syncs.
fn settle_gate<D: Disk>(disk: &mut D, slot: u32, gate: u8) -> DiskAnswer
    requires { place_of slot + 1 ≤ D.size_is disk.old }
    ensures { HasSettled D.Disk disk.old disk.new (place_of slot) (gate ∷ []) result }
{
    settle(disk, slot_place(slot), &[gate])
}

/// Closes the gate of a slot, and syncs.
pub fn close_slot<D: Disk>(disk: &mut D, hints: &mut Hints, slot: u32) -> DiskAnswer
    requires within { place_of (slot + 1) ≤ D.size_is disk.old }
    requires most { slot < 4096 }
    ensures known { (n : ℕ) → place_of n ≤ D.size_is disk.old
        → StillKnows (D.told disk.old) (D.told disk.new) n hints.old hints.new result }
    ensures settled { HasSettled D.Disk disk.old disk.new (place_of slot) (0 ∷ []) result }
{
    match settle_gate(disk, slot, CLOSED) {
        DiskAnswer::Failed => return DiskAnswer::Failed,
        DiskAnswer::Done => {}
    }
    hints[slot as usize] = shut_hint();
    DiskAnswer::Done
}

// Writes all of a slot but its gate, in one write, and syncs.
fn settle_parts<D: Disk>(disk: &mut D, slot: u32, recipe: &NewRecipe<'_>) -> DiskAnswer
    requires within { place_of (slot + 1) ≤ D.size_is disk.old }
    requires name { length recipe.now.name.now ≤ 80 }
    requires body { length recipe.now.body.now ≤ 65442 }
    ensures { HasSettled D.Disk disk.old disk.new (place_of slot + 1)
        (bytes_of recipe.now.number recipe.now.name.now recipe.now.body.now) result }
{
    settle(disk, slot_place(slot) + 1, &parts_of(recipe))
}

// Writes a recipe into a slot that isn't open, and opens it.
fn settle_recipe<D: Disk>(
    disk: &mut D,
    hints: &mut Hints,
    slot: u32,
    recipe: &NewRecipe<'_>,
) -> DiskAnswer
    requires within { place_of (slot + 1) ≤ D.size_is disk.old }
    requires name { length recipe.now.name.now ≤ 80 }
    requires body { length recipe.now.body.now ≤ 65442 }
    requires most { slot < 4096 }
    ensures known { (n : ℕ) → place_of n ≤ D.size_is disk.old
        → StillKnows (D.told disk.old) (D.told disk.new) n hints.old hints.new result }
    ensures written { HasWritten D.Disk disk.old disk.new
        (open_writes slot recipe.now.number recipe.now.name.now recipe.now.body.now) result }
{
    match settle_parts(disk, slot, recipe) {
        DiskAnswer::Failed => return DiskAnswer::Failed,
        DiskAnswer::Done => {}
    }
    match settle_gate(disk, slot, OPEN) {
        DiskAnswer::Failed => return DiskAnswer::Failed,
        DiskAnswer::Done => {}
    }
    hints[slot as usize] = hint_for(recipe);
    DiskAnswer::Done
}

/// Writes a recipe into a slot that isn't open, opens it, and closes the slot of the old recipe of that name, if there
/// is one.
pub fn replace<D: Disk>(
    disk: &mut D,
    hints: &mut Hints,
    slot: u32,
    old: Option<u32>,
    recipe: &NewRecipe<'_>,
) -> DiskAnswer
    requires within { place_of (slot + 1) ≤ D.size_is disk.old }
    requires old { IfSome old (λ slot. (slot < 4096) × (place_of (slot + 1) ≤ D.size_is disk.old)) }
    requires name { length recipe.now.name.now ≤ 80 }
    requires body { length recipe.now.body.now ≤ 65442 }
    requires most { slot < 4096 }
    ensures known { (n : ℕ) → place_of n ≤ D.size_is disk.old
        → StillKnows (D.told disk.old) (D.told disk.new) n hints.old hints.new result }
    ensures written { HasWritten D.Disk disk.old disk.new
        (put_writes slot old recipe.now.number recipe.now.name.now recipe.now.body.now) result }
{
    match settle_recipe(disk, hints, slot, recipe) {
        DiskAnswer::Failed => return DiskAnswer::Failed,
        DiskAnswer::Done => {}
    }
    match old {
        Some(old) => close_slot(disk, hints, old),
        None => DiskAnswer::Done,
    }
}
