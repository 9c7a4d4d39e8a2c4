ghost use Rattle.std.specs.Prelude.{◌≡◌, ◌≤◌, []};
ghost use Rattle.disk_base.specs.MemDisk.{disk_size};

use super::*;
use disk_base::{CutChoice, MemDisk};
use std::alloc::Global;
use std::test::Fail;

// The disk after this value was prepared and committed in the cell at place 2, as far as that went.
fn changed(disk: MemDisk, value: u64) -> MemDisk
    requires within { 19 ≤ disk_size disk }
    requires settled { disk.story.now.loose ≡ [] }
    ensures { disk_size result ≡ disk_size disk }
{
    match prepare(disk, 2, value) {
        Ok(prepared) => match prepared.commit() {
            Ok(disk) => disk,
            Err(disk) => disk,
        },
        Err(disk) => disk,
    }
}

// Whether a crash leaves this value.
fn leaves(alloc: Global, disk: &MemDisk, choice: CutChoice, wanted: u64) -> bool
    requires { 19 ≤ disk_size disk.now }
{
    match disk.cut(alloc, choice) {
        Ok(cut) => {
            let mut cut = cut;
            read_cell(&mut cut, 2) == CellAnswer::Value(wanted)
        }
        Err(_) => false,
    }
}

// The same of each choice: the settled bytes, those now, an even byte and an odd one, no byte and one byte.
fn leave(alloc: Global, disk: &MemDisk, wanted: [u64; 6]) -> bool
    requires { 19 ≤ disk_size disk.now }
{
    leaves(alloc, disk, CutChoice::Old, wanted[0])
        && leaves(alloc, disk, CutChoice::New, wanted[1])
        && leaves(alloc, disk, CutChoice::Fill(6), wanted[2])
        && leaves(alloc, disk, CutChoice::Fill(7), wanted[3])
        && leaves(alloc, disk, CutChoice::First(0), wanted[4])
        && leaves(alloc, disk, CutChoice::First(1), wanted[5])
}

// A change from 0 to 9, whose copy is copy 1, with these calls failing alone and from there on.
fn first_change(alloc: Global, fail: u32, stop: u32, wanted: [u64; 6]) -> bool {
    let Ok(mut disk) = MemDisk::new(alloc, 20, 5, 9) else {
        return false;
    };
    disk.fail_at(fail);
    disk.stop_at(stop);
    leave(alloc, &changed(disk, 9), wanted)
}

// The next one, from 9 to 4, whose copy is copy 0.
fn next_change(alloc: Global, fail: u32, stop: u32, wanted: [u64; 6]) -> bool {
    let Ok(disk) = MemDisk::new(alloc, 20, 5, 9) else {
        return false;
    };
    let Ok(mut disk) = changed(disk, 9).cut(alloc, CutChoice::Old) else {
        return false;
    };
    disk.fail_at(fail);
    disk.stop_at(stop);
    leave(alloc, &changed(disk, 4), wanted)
}

// A read, two calls for the copy, two for the gate.
fn every_first_change(alloc: Global) -> bool {
    first_change(alloc, 0, 0, [9; 6])
        && first_change(alloc, 1, 0, [0; 6])
        && first_change(alloc, 0, 1, [0; 6])
        && first_change(alloc, 2, 0, [0; 6])
        && first_change(alloc, 0, 2, [0; 6])
        && first_change(alloc, 3, 0, [0; 6])
        && first_change(alloc, 0, 3, [0; 6])
        && first_change(alloc, 4, 0, [0, 9, 0, 9, 0, 9])
        && first_change(alloc, 0, 4, [0, 9, 0, 9, 0, 9])
        && first_change(alloc, 5, 0, [0, 9, 0, 9, 0, 9])
        && first_change(alloc, 0, 5, [0, 9, 0, 9, 0, 9])
}

fn every_next_change(alloc: Global) -> bool {
    next_change(alloc, 0, 0, [4; 6])
        && next_change(alloc, 2, 0, [9; 6])
        && next_change(alloc, 0, 3, [9; 6])
        && next_change(alloc, 0, 4, [9, 4, 4, 9, 9, 4])
        && next_change(alloc, 5, 0, [9, 4, 4, 9, 9, 4])
}

#[test]
fn a_crash_leaves_the_old_value_or_the_new_one(rt: HostRuntime) -> Result<(), Fail> {
    assert!(rt; every_first_change(rt.alloc()));
    assert!(rt; every_next_change(rt.alloc()));
    Ok(())
}
