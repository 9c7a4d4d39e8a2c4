//! `disk_base`: what a disk in memory does call by call, and what a crash leaves of it.

use disk_base::{CutChoice, Disk, DiskAnswer, MemDisk, NoMemory, settle};
use std::alloc::Global;
use std::test::Fail;

const ROOM: &str = "room";

// A disk of eight bytes, the first four settled, with three bytes over its middle that aren't.
fn written(alloc: Global) -> Result<MemDisk, NoMemory> {
    let mut disk = MemDisk::new(alloc, 8, 5, 12)?;
    let _ = settle(&mut disk, 0, &[1, 2, 3, 4]);
    let _ = disk.write(2, &[9, 8, 7]);
    Ok(disk)
}

// Whether the bytes of a disk are these.
fn holds<D: Disk + Drop>(mut disk: D, wanted: [u8; 8]) -> bool {
    let mut bytes = [0; 8];
    disk.size() == 8 && disk.read(0, &mut bytes) == DiskAnswer::Done && bytes == wanted
}

// Whether a crash leaves these bytes, on a disk with as much room as there was at first.
fn leaves(alloc: Global, disk: &MemDisk, choice: CutChoice, wanted: [u8; 8]) -> bool {
    match disk.cut(alloc, choice) {
        Ok(cut) => {
            cut.has_room(5, 12) && !cut.has_room(6, 0) && !cut.has_room(0, 13) && holds(cut, wanted)
        }
        Err(NoMemory) => false,
    }
}

#[test]
fn a_crash_leaves_what_was_chosen(rt: HostRuntime) -> Result<(), Fail> {
    let alloc = rt.alloc();
    let mut disk = written(alloc).map_err(|_| ROOM)?;
    assert!(rt; leaves(alloc, &disk, CutChoice::Old, [1, 2, 3, 4, 0, 0, 0, 0]));
    assert!(rt; leaves(alloc, &disk, CutChoice::New, [1, 2, 9, 8, 7, 0, 0, 0]));
    assert!(rt; leaves(alloc, &disk, CutChoice::Fill(6), [1, 2, 6, 6, 6, 0, 0, 0]));
    assert!(rt; leaves(alloc, &disk, CutChoice::First(2), [1, 2, 9, 8, 0, 0, 0, 0]));
    assert!(rt; holds(&mut disk, [1, 2, 9, 8, 7, 0, 0, 0]));
    Ok(())
}

// Whether the calls of a new disk give these answers: an attaching, two writes, a sync, and a write behind them.
fn answers(alloc: Global, fail: u32, stop: u32, wanted: [DiskAnswer; 5], stopped: bool) -> bool {
    let Ok(mut disk) = MemDisk::new(alloc, 8, 4, 3) else {
        return false;
    };
    disk.fail_at(fail);
    disk.stop_at(stop);
    let answers = [
        disk.attach("spool", 8),
        disk.write(0, &[1]),
        disk.write(1, &[2, 3]),
        disk.sync(),
        disk.write(3, &[4]),
    ];
    answers == wanted && disk.stopped() == stopped
}

#[test]
fn calls_fail_where_they_are_to(rt: HostRuntime) -> Result<(), Fail> {
    use DiskAnswer::{Done, Failed};
    let alloc = rt.alloc();
    assert!(rt; answers(alloc, 0, 0, [Done, Done, Done, Done, Failed], false));
    assert!(rt; answers(alloc, 2, 0, [Done, Failed, Done, Done, Failed], false));
    assert!(rt; answers(alloc, 0, 3, [Done, Done, Failed, Failed, Failed], true));
    Ok(())
}

// Whether a disk that is to stop at a write for which its list has no room fails there and stops at the sync behind it,
// the next call that it lists.
fn stops_where_it_lists(alloc: Global) -> bool {
    let Ok(mut disk) = MemDisk::new(alloc, 8, 4, 1) else {
        return false;
    };
    disk.stop_at(1);
    let refused = disk.write(0, &[1, 2]) == DiskAnswer::Failed && !disk.stopped();
    refused
        && disk.sync() == DiskAnswer::Failed
        && disk.stopped()
        && disk.sync() == DiskAnswer::Failed
}

#[test]
fn a_call_that_is_not_listed_stops_no_disk(rt: HostRuntime) -> Result<(), Fail> {
    assert!(rt; stops_where_it_lists(rt.alloc()));
    Ok(())
}

// Whether a disk that has room to spare for a stop refuses a write for which its list has no room, and makes and lists
// one at which it is to stop.
fn stops_without_room(alloc: Global) -> bool {
    let Ok(mut disk) = MemDisk::with_spare(alloc, 8, 1, 1, (1, 2)) else {
        return false;
    };
    let refused = disk.write(0, &[1, 2]) == DiskAnswer::Failed && !disk.stopped();
    let none = disk.last_answer() == DiskAnswer::Done;
    disk.stop_at(1);
    let failed = disk.write(0, &[3, 4]) == DiskAnswer::Failed && disk.stopped();
    refused && none && failed && disk.last_answer() == DiskAnswer::Failed
}

#[test]
fn a_stop_needs_no_room_but_what_there_is_to_spare(rt: HostRuntime) -> Result<(), Fail> {
    assert!(rt; stops_without_room(rt.alloc()));
    Ok(())
}

// Whether an attaching that asks for too much fails, and takes the one place in the list.
fn lists_what_failed(alloc: Global) -> bool {
    let Ok(mut disk) = MemDisk::new(alloc, 8, 1, 0) else {
        return false;
    };
    disk.attach("spool", 9) == DiskAnswer::Failed && disk.sync() == DiskAnswer::Failed
}

#[test]
fn an_attaching_past_the_size_is_listed(rt: HostRuntime) -> Result<(), Fail> {
    assert!(rt; lists_what_failed(rt.alloc()));
    Ok(())
}

// Whether a disk with room for three calls and four bytes, of which a sync and a write of three bytes were made, has
// room for so much more.
fn has_left(alloc: Global, calls: u32, bytes: u64) -> bool {
    let Ok(mut disk) = MemDisk::new(alloc, 8, 3, 4) else {
        return false;
    };
    let _ = settle(&mut disk, 0, &[1, 2, 3]);
    disk.has_room(calls, bytes)
}

#[test]
fn a_disk_tells_its_room(rt: HostRuntime) -> Result<(), Fail> {
    let alloc = rt.alloc();
    assert!(rt; has_left(alloc, 1, 1));
    assert!(rt; !has_left(alloc, 2, 1));
    assert!(rt; !has_left(alloc, 1, 2));
    assert!(rt; has_left(alloc, 0, 0));
    Ok(())
}
