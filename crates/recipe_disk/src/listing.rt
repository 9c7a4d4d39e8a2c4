//! What is read of the recipes themselves: a body, and all names.

ghost use Rattle.std.specs.Prelude.{◌≡◌, ◌+◌, ◌≤◌, All, OnOk};
ghost use Rattle.std.specs.List.Sorted.{IsPermutation, IsSorted};
ghost use Rattle.gem_recipes.specs.Keeper.{AnswersNames};
ghost use Rattle.gem_recipes.specs.Recipes.{IsPpid, by_bytes};
ghost use Rattle.recipe_disk.specs.Changes.{IsKept, recipes_told};
ghost use Rattle.recipe_disk.specs.Listing.{GivesBody, ReadsBody, get_answer, names_answer, names_with};
ghost use Rattle.recipe_disk.specs.Reading.{HasLooked};
ghost use Rattle.recipe_disk.specs.Slot.{slot_place as place_of};

use crate::head::{BODY, BODY_MOST, Head, is_live, name_of, read_head, slot_place};
use crate::reading::DiskFailed;
use disk_base::{Disk, DiskAnswer};
use gem_recipes::{RecipeGet, RecipeNames};
use gl_base::{NoMemory, Row};
use std::alloc::Global;

// Reads so many bytes from a place on.
fn read_bytes<D: Disk>(disk: &mut D, alloc: Global, at: u64, len: usize) -> RecipeGet
    requires { at + len ≤ D.size_is disk.old }
    ensures body { GivesBody (D.told disk.old) at len result }
    ensures looked { HasLooked D.Disk disk.old disk.new (get_answer result) }
{
    let Ok(mut body) = vec![in alloc; 0; len] else {
        return RecipeGet::NoMemory;
    };
    match disk.read(at, body.as_mut_slice()) {
        DiskAnswer::Done => RecipeGet::Found(Row::from_vec(body)),
        DiskAnswer::Failed => RecipeGet::Failed,
    }
}

// Puts the name of a slot behind others, if it has a recipe.
fn put_name(alloc: Global, names: &mut Vec<Row<u8>>, head: &Head) -> Result<(), NoMemory>
    ensures names { OnOk result (names.new.items ≡ names_with head.now names.old.items) }
    ensures each { OnOk result (All IsPpid names.old.items → All IsPpid names.new.items) }
{
    if !is_live(head) {
        return Ok(());
    }
    let row = Row::of(alloc, name_of(head))?;
    names.push(row)?;
    Ok(())
}

// Puts names into the order of their bytes.
fn sort_names(names: &mut Vec<Row<u8>>)
    ensures same { IsPermutation names.old.items names.new.items }
    ensures order { IsSorted by_bytes names.new.items }
{
    names.sort_unstable_by(|name, other| name.as_slice().cmp(other.as_slice()));
}

/// The body of the recipe in a slot.
pub fn read_body<D: Disk>(disk: &mut D, alloc: Global, slot: u32) -> RecipeGet
    requires { place_of (slot + 1) ≤ D.size_is disk.old }
    ensures body { ReadsBody (D.told disk.old) slot result }
    ensures looked { HasLooked D.Disk disk.old disk.new (get_answer result) }
{
    match read_head(disk, slot) {
        Ok(head) => {
            let len = BODY_MOST.min(head.body_len as usize);
            read_bytes(disk, alloc, slot_place(slot) + BODY, len)
        }
        Err(DiskFailed) => RecipeGet::Failed,
    }
}

/// All names in the order of their bytes.
pub fn read_names<D: Disk>(disk: &mut D, alloc: Global, slots: u32) -> RecipeNames
    requires { IsKept D.Disk disk.old slots }
    ensures names { AnswersNames (recipes_told (D.told disk.old)) result }
    ensures looked { HasLooked D.Disk disk.old disk.new (names_answer result) }
{
    let mut names = Vec::new(alloc);
    for slot in 0..slots {
        let head = match read_head(disk, slot) {
            Ok(head) => head,
            Err(DiskFailed) => return RecipeNames::Failed,
        };
        match put_name(alloc, &mut names, &head) {
            Ok(()) => {}
            Err(NoMemory) => return RecipeNames::NoMemory,
        }
    }
    sort_names(&mut names);
    RecipeNames::Names(Row::from_vec(names))
}
