//! `recipe_disk`: what each call leaves where the power goes or a call of the disk fails.

use crate::recipe_store::{delete, filled, has, leaves, open_slots, put, unopened};
use disk_base::{CutChoice, MemDisk};
use gem_recipes::{RecipeDrop, RecipePut};
use recipe_disk::{RecipeDisk, RecipeOpening};
use std::alloc::Global;
use std::test::Fail;

// What a crash may leave of what was written since the last sync: choices of all kinds.
static CHOICES: [CutChoice; 5] = [
    CutChoice::Old,
    CutChoice::New,
    CutChoice::Fill(0x5A),
    CutChoice::Fill(0),
    CutChoice::First(50),
];

// The bodies of Au, old and new.
const OLD: &[u8] = b"Au";

const NEW: &[u8] = &[33, 1, 3];

// How many calls an opening of two slots makes where one is open, with the look behind it: a sync, the front, the heads
// for their fields, for numbers and for stale ones, and the one of the name.
const BEFORE_PUT: u32 = 1 + 1 + 2 + 2 + 2 + 1;

// The same of three slots of which two are open.
const BEFORE_DROP: u32 = 1 + 1 + 3 + 3 + 3 + 1;

// Au with another body in a store of two slots, stopped at a call of the opening or the put.
fn replaced(alloc: Global, call: u32) -> Option<MemDisk> {
    let Some(mut disk) = filled(alloc, 2, &[*b"Au"]) else {
        return None;
    };
    disk.stop_at(call);
    Some(put(disk, b"Au", NEW).1)
}

// Whether a replacement that stops at a call behind the look leaves this body.
fn put_leaves(alloc: Global, call: u32, choice: CutChoice, body: &[u8]) -> bool {
    if call > 7 {
        return false;
    }
    match replaced(alloc, BEFORE_PUT + call) {
        Some(disk) => {
            disk.stopped() == (call < 7) && leaves(alloc, &disk, choice, b"Au", Some(body))
        }
        None => false,
    }
}

#[test]
fn parts_change_nothing(rt: HostRuntime) -> Result<(), Fail> {
    let alloc = rt.alloc();
    assert!(rt; put_leaves(alloc, 1, CutChoice::New, OLD));
    assert!(rt; put_leaves(alloc, 2, CutChoice::Fill(0x5A), OLD));
    Ok(())
}

#[test]
fn the_gate_decides(rt: HostRuntime) -> Result<(), Fail> {
    let alloc = rt.alloc();
    assert!(rt; put_leaves(alloc, 3, CutChoice::Old, OLD));
    assert!(rt; put_leaves(alloc, 3, CutChoice::New, NEW));
    assert!(rt; put_leaves(alloc, 4, CutChoice::Fill(0xA5), OLD));
    assert!(rt; put_leaves(alloc, 4, CutChoice::First(1), NEW));
    Ok(())
}

#[test]
fn a_replacement_makes_six_calls(rt: HostRuntime) -> Result<(), Fail> {
    let alloc = rt.alloc();
    assert!(rt; put_leaves(alloc, 5, CutChoice::Old, NEW));
    assert!(rt; put_leaves(alloc, 6, CutChoice::Fill(0x5A), NEW));
    assert!(rt; put_leaves(alloc, 7, CutChoice::Old, NEW));
    Ok(())
}

// A store with two open slots of Au, since its replacement stopped at the closing write.
fn doubled(alloc: Global) -> Option<MemDisk> {
    match replaced(alloc, BEFORE_PUT + 5) {
        Some(disk) => match disk.cut(alloc, CutChoice::Old) {
            Ok(cut) => Some(cut),
            Err(_) => None,
        },
        None => None,
    }
}

// How many slots are open before it is opened, and behind that.
fn open_behind(alloc: Global) -> (u32, u32) {
    let Some(mut disk) = doubled(alloc) else {
        return (0, 0);
    };
    let left = open_slots(&mut disk, 2);
    match RecipeDisk::open(disk) {
        Ok(store) => (left, open_slots(&mut store.into_disk(), 2)),
        Err(_) => (left, 0),
    }
}

#[test]
fn an_opening_leaves_one_slot_a_name(rt: HostRuntime) -> Result<(), Fail> {
    let alloc = rt.alloc();
    let (left, opened) = open_behind(alloc);
    assert_eq!(rt; left, 2);
    assert_eq!(rt; opened, 1);
    Ok(())
}

// Au in a store of three slots from which Cu is deleted, stopped at a call of the opening or the deletion.
fn deleted(alloc: Global, call: u32) -> Option<MemDisk> {
    let Some(mut disk) = filled(alloc, 3, &[*b"Au", *b"Cu"]) else {
        return None;
    };
    disk.stop_at(call);
    Some(delete(disk, b"Cu").1)
}

// Whether a deletion of Cu that stops at a call behind the look leaves this body of it, or none.
fn deletion_leaves(alloc: Global, call: u32, choice: CutChoice, body: Option<&[u8]>) -> bool {
    if call > 3 {
        return false;
    }
    match deleted(alloc, BEFORE_DROP + call) {
        Some(disk) => { disk.stopped() == (call < 3) && leaves(alloc, &disk, choice, b"Cu", body) }
        None => false,
    }
}

#[test]
fn a_deletion_is_done_with_its_gate(rt: HostRuntime) -> Result<(), Fail> {
    let alloc = rt.alloc();
    assert!(rt; deletion_leaves(alloc, 1, CutChoice::Old, Some(b"Cu".as_slice())));
    assert!(rt; deletion_leaves(alloc, 2, CutChoice::New, None));
    assert!(rt; deletion_leaves(alloc, 3, CutChoice::Old, None));
    Ok(())
}

// Whether a fault of one call of an opening or a put is told, and leaves the old body or the new one.
fn survives_fault(alloc: Global, call: u32) -> bool {
    let Some(mut disk) = filled(alloc, 2, &[*b"Au"]) else {
        return false;
    };
    disk.fail_at(call);
    let (answer, disk) = put(disk, b"Au", NEW);
    match answer {
        None | Some(RecipePut::Failed) => {}
        Some(_) => return false,
    }
    let (is_old, disk) = has(alloc, disk, b"Au", Some(OLD));
    let (is_new, _) = has(alloc, disk, b"Au", Some(NEW));
    is_old != is_new
}

// Whether a fault of one call of an opening over two slots of Au is told, and leaves the new body.
fn opening_survives_fault(alloc: Global, call: u32) -> bool {
    let Some(mut disk) = doubled(alloc) else {
        return false;
    };
    disk.fail_at(call);
    match RecipeDisk::open(disk) {
        Ok(_) => false,
        Err(RecipeOpening::NotRecipes(_, _)) => false,
        Err(RecipeOpening::Failed(disk)) => has(alloc, disk, b"Au", Some(NEW)).0,
    }
}

// Whether a fault of one call of an opening or of the deletion of Cu is told, and leaves Cu or not, and Au.
fn deletion_survives_fault(alloc: Global, call: u32) -> bool {
    let Some(mut disk) = filled(alloc, 3, &[*b"Au", *b"Cu"]) else {
        return false;
    };
    disk.fail_at(call);
    let (answer, disk) = delete(disk, b"Cu");
    match answer {
        None | Some(RecipeDrop::Failed) => {}
        Some(_) => return false,
    }
    let (there, disk) = has(alloc, disk, b"Cu", Some(b"Cu".as_slice()));
    let (gone, disk) = has(alloc, disk, b"Cu", None);
    there != gone && has(alloc, disk, b"Au", Some(OLD)).0
}

#[test]
fn each_call_may_fail(rt: HostRuntime) -> Result<(), Fail> {
    let alloc = rt.alloc();
    for call in 1..BEFORE_PUT + 7 {
        assert!(rt; survives_fault(alloc, call));
    }
    for call in 1..13 {
        assert!(rt; opening_survives_fault(alloc, call));
    }
    for call in 1..BEFORE_DROP + 3 {
        assert!(rt; deletion_survives_fault(alloc, call));
    }
    Ok(())
}

// Whether a disk with two slots stands for Au with one of these bodies, and has one open slot then.
fn has_one_of(alloc: Global, disk: MemDisk, first: &[u8], second: &[u8]) -> bool {
    let (is_first, disk) = has(alloc, disk, b"Au", Some(first));
    let (is_second, mut disk) = has(alloc, disk, b"Au", Some(second));
    (is_first || is_second) && open_slots(&mut disk, 2) == 1
}

// Whether a replacement that stops at a call, those of the opening counted, leaves the old body or the new one.
fn put_keeps(alloc: Global, call: u32, choice: CutChoice) -> bool {
    let Some(disk) = replaced(alloc, call) else {
        return false;
    };
    match disk.cut(alloc, choice) {
        Ok(cut) => has_one_of(alloc, cut, OLD, NEW),
        Err(_) => false,
    }
}

// Whether an opening over two slots of Au that stops at a call leaves the new body.
fn opening_keeps(alloc: Global, call: u32, choice: CutChoice) -> bool {
    let Some(mut disk) = doubled(alloc) else {
        return false;
    };
    disk.stop_at(call);
    let disk = match RecipeDisk::open(disk) {
        Ok(store) => store.into_disk(),
        Err(opening) => unopened(opening),
    };
    match disk.cut(alloc, choice) {
        Ok(cut) => has_one_of(alloc, cut, NEW, NEW),
        Err(_) => false,
    }
}

// Whether a deletion of Cu that stops at a call leaves Cu or not, and Au.
fn deletion_keeps(alloc: Global, call: u32, choice: CutChoice) -> bool {
    let Some(disk) = deleted(alloc, call) else {
        return false;
    };
    let Ok(cut) = disk.cut(alloc, choice) else {
        return false;
    };
    let (there, cut) = has(alloc, cut, b"Cu", Some(b"Cu".as_slice()));
    let (gone, cut) = has(alloc, cut, b"Cu", None);
    there != gone && has(alloc, cut, b"Au", Some(OLD)).0
}

// A stop at a read leaves nothing to choose.
#[test]
fn each_call_of_a_put_may_be_the_last(rt: HostRuntime) -> Result<(), Fail> {
    let alloc = rt.alloc();
    for call in 1..BEFORE_PUT + 1 {
        assert!(rt; put_keeps(alloc, call, CutChoice::Old));
    }
    for call in BEFORE_PUT + 1..BEFORE_PUT + 8 {
        for choice in &CHOICES {
            assert!(rt; put_keeps(alloc, call, *choice));
        }
    }
    Ok(())
}

#[test]
fn each_call_of_an_opening_may_be_the_last(rt: HostRuntime) -> Result<(), Fail> {
    let alloc = rt.alloc();
    for call in 1..10 {
        assert!(rt; opening_keeps(alloc, call, CutChoice::Old));
    }
    for call in 10..13 {
        for choice in &CHOICES {
            assert!(rt; opening_keeps(alloc, call, *choice));
        }
    }
    Ok(())
}

#[test]
fn each_call_of_a_deletion_may_be_the_last(rt: HostRuntime) -> Result<(), Fail> {
    let alloc = rt.alloc();
    for call in 1..BEFORE_DROP + 1 {
        assert!(rt; deletion_keeps(alloc, call, CutChoice::Old));
    }
    for call in BEFORE_DROP + 1..BEFORE_DROP + 4 {
        for choice in &CHOICES {
            assert!(rt; deletion_keeps(alloc, call, *choice));
        }
    }
    Ok(())
}

// How many calls the two openings of four slots make, three of them open and then two, with the looks and deletions.
const IN_TURN: u32 = 2 * (1 + 1 + 4 + 4 + 4 + 1 + 2);

// Ag, Au and Cu in a store from which Au and then Cu are deleted, stopped at a call of the openings or the deletions.
fn deleted_in_turn(alloc: Global, call: u32) -> Option<MemDisk> {
    let Some(mut disk) = filled(alloc, 4, &[*b"Ag", *b"Au", *b"Cu"]) else {
        return None;
    };
    disk.stop_at(call);
    let (_, disk) = delete(disk, b"Au");
    Some(delete(disk, b"Cu").1)
}

// Whether these deletions, if they stop at a call, leave Ag, and Au only beside Cu.
fn deletions_keep(alloc: Global, call: u32, choice: CutChoice) -> bool {
    let Some(disk) = deleted_in_turn(alloc, call) else {
        return false;
    };
    let Ok(cut) = disk.cut(alloc, choice) else {
        return false;
    };
    let (gone, cut) = has(alloc, cut, b"Au", None);
    let (there, cut) = has(alloc, cut, b"Cu", Some(b"Cu".as_slice()));
    disk.stopped() == (call <= IN_TURN)
        && (gone || there)
        && has(alloc, cut, b"Ag", Some(b"Ag".as_slice())).0
}

#[test]
fn deletions_are_done_in_turn(rt: HostRuntime) -> Result<(), Fail> {
    let alloc = rt.alloc();
    for call in 1..IN_TURN + 2 {
        for choice in &CHOICES {
            assert!(rt; deletions_keep(alloc, call, *choice));
        }
    }
    Ok(())
}
