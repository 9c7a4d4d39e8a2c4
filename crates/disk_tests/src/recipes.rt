//! `recipe_disk`: what is stored, found, deleted and listed, and what is refused.

use crate::recipe_store::{delete, filled, formatted, has, put, room};
use gem_recipes::{RecipeDrop, RecipeGet, RecipeKeeper, RecipeNames, RecipePut};
use recipe_disk::RecipeDisk;
use std::alloc::Global;
use std::test::Fail;

// What a put of a name comes to in a store of so many slots with these names.
fn put_answers(
    alloc: Global,
    slots: u32,
    names: &[[u8; 2]],
    name: &[u8; 2],
    body: &[u8],
) -> Option<RecipePut> {
    match filled(alloc, slots, names) {
        Some(disk) => put(disk, name, body).0,
        None => None,
    }
}

fn room_answers(alloc: Global, slots: u32, names: &[[u8; 2]], name: &[u8; 2]) -> Option<RecipePut> {
    match filled(alloc, slots, names) {
        Some(disk) => room(disk, name).0,
        None => None,
    }
}

// Whether the longest body is stored and found.
fn takes_longest(alloc: Global) -> bool {
    let Some(disk) = formatted(alloc, 2) else {
        return false;
    };
    let (answer, disk) = put(disk, b"Au", &[7; 65_442]);
    answer == Some(RecipePut::Stored) && has(alloc, disk, b"Au", Some(&[7; 65_442])).0
}

#[test]
fn what_has_no_space_is_refused(rt: HostRuntime) -> Result<(), Fail> {
    let alloc = rt.alloc();
    let full = [*b"Au"];
    assert!(rt; put_answers(alloc, 2, &full, b"Cu", &[1]) == Some(RecipePut::NoSpace));
    assert!(rt; put_answers(alloc, 2, &full, b"Au", &[1]) == Some(RecipePut::Stored));
    assert!(rt; put_answers(alloc, 3, &full, b"Cu", &[1]) == Some(RecipePut::Stored));
    assert!(rt; put_answers(alloc, 2, &full, b"Cu", &[0; 65_443]) == Some(RecipePut::TooLong));
    assert!(rt; room_answers(alloc, 2, &full, b"Cu") == Some(RecipePut::NoSpace));
    assert!(rt; room_answers(alloc, 2, &full, b"Au") == Some(RecipePut::Stored));
    assert!(rt; takes_longest(alloc));
    Ok(())
}

// Whether a recipe is stored, found, deleted, and found no more.
fn goes_round(alloc: Global) -> bool {
    let Some(disk) = filled(alloc, 3, &[*b"Au"]) else {
        return false;
    };
    let (found, disk) = has(alloc, disk, b"Au", Some(b"Au".as_slice()));
    let (other, disk) = has(alloc, disk, b"Cu", None);
    let (first, disk) = delete(disk, b"Au");
    let (second, disk) = delete(disk, b"Au");
    let (gone, _) = has(alloc, disk, b"Au", None);
    found
        && other
        && first == Some(RecipeDrop::Dropped)
        && second == Some(RecipeDrop::Unknown)
        && gone
}

// Whether the names come by their bytes.
fn lists_by_bytes(alloc: Global) -> bool {
    let Some(disk) = filled(alloc, 4, &[*b"Cu", *b"Au", *b"Ag"]) else {
        return false;
    };
    match RecipeDisk::open(disk) {
        Ok(mut store) => match store.names(alloc) {
            RecipeNames::Names(names) => match names.as_slice() {
                [a, b, c] => a.as_slice() == b"Ag".as_slice()
                    && b.as_slice() == b"Au".as_slice()
                    && c.as_slice() == b"Cu".as_slice(),
                _ => false,
            },
            RecipeNames::Failed | RecipeNames::NoMemory => false,
        },
        Err(_) => false,
    }
}

#[test]
fn recipes_are_kept_by_name(rt: HostRuntime) -> Result<(), Fail> {
    let alloc = rt.alloc();
    assert!(rt; goes_round(alloc));
    assert!(rt; lists_by_bytes(alloc));
    Ok(())
}

// Whether a recipe of this name is stored, found and deleted.
fn takes_name(alloc: Global, name: &[u8]) -> bool {
    if name.is_empty() || name.len() > 80 {
        return false;
    }
    let Some(disk) = formatted(alloc, 2) else {
        return false;
    };
    let Ok(mut store) = RecipeDisk::open(disk) else {
        return false;
    };
    match store.put(name, &[1]) {
        RecipePut::Stored => {}
        _ => return false,
    }
    match store.get(alloc, name) {
        RecipeGet::Found(_) => {}
        _ => return false,
    }
    store.delete(name) == RecipeDrop::Dropped
}

#[test]
fn names_have_one_byte_to_eighty(rt: HostRuntime) -> Result<(), Fail> {
    let alloc = rt.alloc();
    assert!(rt; takes_name(alloc, &[0]));
    assert!(rt; takes_name(alloc, &[0xFF; 80]));
    Ok(())
}
