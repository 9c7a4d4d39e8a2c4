//! `recipe_disk`: where a file breaks.

use crate::recipe_store::filled;
use disk_base::{Disk, MemDisk, settle};
use recipe_disk::{RecipeDisk, RecipeOpening};
use std::alloc::Global;
use std::test::Fail;

// Where a file breaks, if it does.
fn break_of(disk: MemDisk) -> Option<(u64, Option<u8>)> {
    match RecipeDisk::open(disk) {
        Ok(_) => None,
        Err(RecipeOpening::NotRecipes(_, at)) => Some((at.at, at.got)),
        Err(RecipeOpening::Failed(_)) => Some((0, None)),
    }
}

// Where a store of two slots with one recipe breaks once these bytes stand at a place.
fn broken(alloc: Global, at: u64, bytes: &[u8]) -> Option<(u64, Option<u8>)> {
    let Some(mut disk) = filled(alloc, 2, &[*b"Au"]) else {
        return None;
    };
    if at < 100_000 && bytes.len() < 100 && disk.size() > 100_100 {
        let _ = settle(&mut disk, at, bytes);
    }
    break_of(disk)
}

// A second slot with another name, number and body: all slots are open then.
fn second_slot(alloc: Global, number: u8, name: u8) -> Option<(u64, Option<u8>)> {
    let Some(mut disk) = filled(alloc, 2, &[*b"Au"]) else {
        return None;
    };
    let at = 4096 + 65_536;
    if disk.size() > at + 100 {
        let _ = settle(
            &mut disk,
            at,
            &[0x5A, 0, 0, 0, 0, 0, 0, 0, number, 2, b'A', name],
        );
    }
    break_of(disk)
}

#[test]
fn a_file_breaks_at_its_first_place(rt: HostRuntime) -> Result<(), Fail> {
    let alloc = rt.alloc();
    assert!(rt; broken(alloc, 0, b"G") == None);
    assert!(rt; broken(alloc, 2, b"S") == Some((2, Some(b'S'))));
    assert!(rt; broken(alloc, 8, &[0, 0, 0, 1]) == Some((8, Some(0))));
    assert!(rt; broken(alloc, 8, &[0, 0, 16, 1]) == Some((8, Some(0))));
    assert!(rt; broken(alloc, 8, &[0, 0, 0, 3]) == Some((4096 + 2 * 65_536, None)));
    assert!(rt; broken(alloc, 12, &[9, 9, 9]) == None);
    assert!(rt; broken(alloc, 4097, &[0x80]) == Some((4097, Some(0x80))));
    assert!(rt; broken(alloc, 4105, &[0]) == Some((4105, Some(0))));
    assert!(rt; broken(alloc, 4105, &[81]) == Some((4105, Some(81))));
    assert!(rt; broken(alloc, 4186, &[0, 0, 255, 163]) == Some((4186, Some(0))));
    assert!(rt; second_slot(alloc, 0, b'u') == Some((4096 + 65_536 + 1, Some(0))));
    assert!(rt; second_slot(alloc, 1, b'g') == Some((4096 + 65_536 + 10, Some(b'A'))));
    assert!(rt; second_slot(alloc, 1, b'u') == None);
    Ok(())
}

// The bytes of a store of two slots with one recipe.
fn file_bytes(alloc: Global) -> Option<Vec<u8>> {
    let Some(mut disk) = filled(alloc, 2, &[*b"Au"]) else {
        return None;
    };
    let Ok(mut bytes) = vec![in alloc; 0; disk.size() as usize] else {
        return None;
    };
    let _ = disk.read(0, bytes.as_mut_slice());
    Some(bytes)
}

// Whether so many bytes of a file break at their end.
fn breaks_at_end(alloc: Global, file: &[u8], size: usize) -> bool {
    if size > file.len() {
        return false;
    }
    let Ok(mut short) = MemDisk::new(alloc, size as u64, 100, 200_000) else {
        return false;
    };
    if short.size() >= size as u64 {
        let _ = settle(&mut short, 0, &file[..size]);
    }
    break_of(short) == Some((size as u64, None))
}

// Whether each of the shorter prefixes of a file breaks at its end.
fn short_prefixes_break(alloc: Global, file: &[u8]) -> bool {
    for size in 0..16_384 {
        if !breaks_at_end(alloc, file, size) {
            return false;
        }
    }
    true
}

// Whether some of the longer ones do.
fn long_prefixes_break(alloc: Global, file: &[u8]) -> bool {
    for turn in 17..133 {
        if !breaks_at_end(alloc, file, 1021 * turn) {
            return false;
        }
    }
    true
}

// Whether each of these prefixes of a store breaks at its end, and the whole store doesn't.
fn prefixes_break(alloc: Global) -> bool {
    let Some(file) = file_bytes(alloc) else {
        return false;
    };
    let file = file.as_slice();
    short_prefixes_break(alloc, file)
        && long_prefixes_break(alloc, file)
        && breaks_at_end(alloc, file, 135_167)
        && !breaks_at_end(alloc, file, 135_168)
}

#[test]
fn each_prefix_breaks_at_its_end(rt: HostRuntime) -> Result<(), Fail> {
    let alloc = rt.alloc();
    assert!(rt; prefixes_break(alloc));
    Ok(())
}
