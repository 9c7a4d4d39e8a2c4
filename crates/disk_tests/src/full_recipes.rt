//! `recipe_disk`: a store of the most slots, with as many recipes as it has room for.

ghost use Rattle.std.specs.Prelude.{◌≡◌, true};
ghost use Rattle.recipe_disk.specs.Opening.{IsReady};

use crate::recipe_store::formatted_for;
use disk_base::{Disk, MemDisk};
use gem_recipes::{RecipeGet, RecipeKeeper, RecipePut};
use recipe_disk::RecipeDisk;
use std::alloc::Global;
use std::test::Fail;

// The name of a recipe by its number.
fn name_of(number: u16) -> [u8; 2] {
    number.to_be_bytes()
}

// Whether a recipe is stored.
fn puts<D: Disk>(store: &mut RecipeDisk<D>, number: u16) -> bool
    requires { IsReady D.Disk store.old }
    ensures { result ≡ true → IsReady D.Disk store.new }
{
    match store.put(&name_of(number), &[1]) {
        RecipePut::Stored => true,
        RecipePut::TooLong | RecipePut::NoSpace | RecipePut::Failed => false,
    }
}

// Whether so many recipes are stored.
fn fills<D: Disk>(store: &mut RecipeDisk<D>, count: u16) -> bool
    requires { IsReady D.Disk store.old }
    ensures { result ≡ true → IsReady D.Disk store.new }
{
    for number in 0..count {
        if !puts(store, number) {
            return false;
        }
    }
    true
}

// A store of the most slots, with a recipe for each but one.
fn full_disk(alloc: Global) -> Option<MemDisk> {
    let Some(disk) = formatted_for(alloc, 4096, 100_000) else {
        return None;
    };
    let Ok(mut store) = RecipeDisk::open(disk) else {
        return None;
    };
    if fills(&mut store, 4095) {
        Some(store.into_disk())
    } else {
        None
    }
}

// The same with another body of one recipe, if it has no room for one of a new name.
fn with_new_body(disk: MemDisk) -> Option<MemDisk> {
    let Ok(mut store) = RecipeDisk::open(disk) else {
        return None;
    };
    match store.put(b"zz", &[2]) {
        RecipePut::NoSpace => {}
        _ => return None,
    }
    match store.room(b"zz") {
        RecipePut::NoSpace => {}
        _ => return None,
    }
    match store.put(&name_of(4094), &[2]) {
        RecipePut::Stored => Some(store.into_disk()),
        _ => None,
    }
}

// Whether that body is found.
fn has_new_body(alloc: Global, disk: MemDisk) -> bool {
    let Ok(mut store) = RecipeDisk::open(disk) else {
        return false;
    };
    match store.get(alloc, &name_of(4094)) {
        RecipeGet::Found(body) => body.as_slice() == [2].as_slice(),
        _ => false,
    }
}

// Whether a full store takes known names alone.
fn takes_known_names(alloc: Global) -> bool {
    let Some(disk) = full_disk(alloc) else {
        return false;
    };
    match with_new_body(disk) {
        Some(disk) => has_new_body(alloc, disk),
        None => false,
    }
}

#[test]
fn a_full_store_takes_known_names_alone(rt: HostRuntime) -> Result<(), Fail> {
    let alloc = rt.alloc();
    assert!(rt; takes_known_names(alloc));
    Ok(())
}
