//! A store of recipes that tests make, and each of its calls behind an opening.

use disk_base::{CutChoice, Disk, MemDisk};
use gem_recipes::{RecipeDrop, RecipeGet, RecipeKeeper, RecipePut};
use recipe_disk::{RecipeDisk, RecipeOpening};
use std::alloc::Global;

// A new store of so many slots, on a disk that lists so many calls.
pub(crate) fn formatted_for(alloc: Global, slots: u32, calls: u32) -> Option<MemDisk> {
    let size = 4096 + 65_536 * slots as u64;
    let Ok(disk) = MemDisk::new(alloc, size, calls, 1_000_000) else {
        return None;
    };
    if slots < 2 {
        return None;
    }
    if slots > 4096 {
        return None;
    }
    match RecipeDisk::format(disk, slots) {
        Ok(store) => Some(store.into_disk()),
        Err(_) => None,
    }
}

// The same for some openings and calls.
pub(crate) fn formatted(alloc: Global, slots: u32) -> Option<MemDisk> {
    formatted_for(alloc, slots, 4000)
}

// The disk of a store that wasn't opened.
pub(crate) fn unopened(opening: RecipeOpening<MemDisk>) -> MemDisk {
    match opening {
        RecipeOpening::NotRecipes(disk, _) => disk,
        RecipeOpening::Failed(disk) => disk,
    }
}

// What a put comes to behind an opening, or None where that failed.
pub(crate) fn put(disk: MemDisk, name: &[u8; 2], body: &[u8]) -> (Option<RecipePut>, MemDisk) {
    match RecipeDisk::open(disk) {
        Ok(mut store) => {
            let answer = store.put(name, body);
            (Some(answer), store.into_disk())
        }
        Err(opening) => (None, unopened(opening)),
    }
}

// What a put without a body would come to.
pub(crate) fn room(disk: MemDisk, name: &[u8; 2]) -> (Option<RecipePut>, MemDisk) {
    match RecipeDisk::open(disk) {
        Ok(mut store) => {
            let answer = store.room(name);
            (Some(answer), store.into_disk())
        }
        Err(opening) => (None, unopened(opening)),
    }
}

// What a deletion comes to.
pub(crate) fn delete(disk: MemDisk, name: &[u8; 2]) -> (Option<RecipeDrop>, MemDisk) {
    match RecipeDisk::open(disk) {
        Ok(mut store) => {
            let answer = store.delete(name);
            (Some(answer), store.into_disk())
        }
        Err(opening) => (None, unopened(opening)),
    }
}

// What a look-up comes to.
pub(crate) fn get(alloc: Global, disk: MemDisk, name: &[u8; 2]) -> (Option<RecipeGet>, MemDisk) {
    match RecipeDisk::open(disk) {
        Ok(mut store) => {
            let answer = store.get(alloc, name);
            (Some(answer), store.into_disk())
        }
        Err(opening) => (None, unopened(opening)),
    }
}

// A store of so many slots with a recipe of each of these names, whose bodies are their names.
pub(crate) fn filled(alloc: Global, slots: u32, names: &[[u8; 2]]) -> Option<MemDisk> {
    let Some(mut disk) = formatted(alloc, slots) else {
        return None;
    };
    for name in names {
        let (answer, next) = put(disk, name, name);
        match answer {
            Some(RecipePut::Stored) => disk = next,
            _ => return None,
        }
    }
    Some(disk)
}

// Whether a look-up finds this body, or nothing for none.
pub(crate) fn has(
    alloc: Global,
    disk: MemDisk,
    name: &[u8; 2],
    body: Option<&[u8]>,
) -> (bool, MemDisk) {
    let (answer, disk) = get(alloc, disk, name);
    let is = match answer {
        Some(RecipeGet::Found(row)) => match body {
            Some(body) => row.as_slice() == body,
            None => false,
        },
        Some(RecipeGet::Unknown) => body.is_none(),
        _ => false,
    };
    (is, disk)
}

// Whether a crash leaves this body.
pub(crate) fn leaves(
    alloc: Global,
    disk: &MemDisk,
    choice: CutChoice,
    name: &[u8; 2],
    body: Option<&[u8]>,
) -> bool {
    let Ok(cut) = disk.cut(alloc, choice) else {
        return false;
    };
    has(alloc, cut, name, body).0
}

// How many of the first slots are open.
pub(crate) fn open_slots(disk: &mut MemDisk, slots: u32) -> u32 {
    let mut count = 0;
    let mut gate = [0];
    for slot in 0..slots.min(4096) {
        let at = 4096 + 65_536 * slot as u64;
        if at < disk.size() {
            let _ = disk.read(at, &mut gate);
            if gate[0] == 0x5A && count < 4096 {
                count += 1;
            }
        }
    }
    count
}
