//! `spool_slots` over files of version 2: messages of several slots, what a put, a drop and an upgrade leave where they
//! stop, and where such a file breaks.

ghost use Rattle.std.specs.Prelude.{◌≤◌, length};

use disk_base::{CutChoice, Disk, DiskAnswer, MemDisk, settle};
use spool_file::{NotSpool, SLOT_SIZE, area_end, slot_place};
use spool_slots::{OldestAnswer, Raw, Recovering, Spool, Staging, Stored};
use std::alloc::Global;
use std::test::Fail;

// Bodies of three slots, of two, and of one and of two slots each by one byte.
pub(crate) static LONG: [u8; 9000] = [7; 9000];

pub(crate) static PAIR: [u8; 5000] = [8; 5000];

static WHOLE: [u8; 4081] = [9; 4081];

static MORE: [u8; 4082] = [9; 4082];

// A new spool of so many slots.
pub(crate) fn formatted(alloc: Global, slots: u32) -> Option<Spool<MemDisk>> {
    let Ok(disk) = MemDisk::new(alloc, area_end(slots), 1000, 1048576) else {
        return None;
    };
    match Raw::new(disk).format(slots) {
        Ok(spool) => Some(spool),
        Err(_) => None,
    }
}

// The same of a file without an area, which is copied faster at each cut.
pub(crate) fn without_area(alloc: Global, slots: u32) -> Option<Spool<MemDisk>> {
    let mut disk = MemDisk::new(alloc, slot_place(slots), 1000, 1048576).ok()?;
    if disk.size() < 4096 {
        return None;
    }
    let _ = settle(&mut disk, 0, &FRONT);
    let _ = settle(&mut disk, 8, &slots.to_be_bytes());
    Raw::new(disk).recover().ok()
}

// Puts an S6F11, and hands the disk back where that wasn't done.
pub(crate) fn put(spool: Spool<MemDisk>, body: &[u8]) -> Result<Spool<MemDisk>, MemDisk> {
    let message = Stored {
        stream: 6,
        function: 11,
        body,
    };
    match spool.stage(&message) {
        Ok(staged) => match staged.seal() {
            Ok(spool) => Ok(spool),
            Err(spent) => Err(spent.into_disk()),
        },
        Err(Staging::Failed(spent)) => Err(spent.into_disk()),
        Err(Staging::Full(spool)) => Err(spool.retire().into_disk()),
        Err(Staging::TooLong(spool)) => Err(spool.retire().into_disk()),
        Err(Staging::NumbersSpent(spool)) => Err(spool.retire().into_disk()),
    }
}

// Whether a recovery finds so many messages, from this number to that before the next one.
fn holds(raw: Raw<MemDisk>, len: u32, first: u64, next: u64) -> bool {
    match raw.recover() {
        Ok(spool) => spool.len() == len && spool.first() == first && spool.next() == next,
        Err(_) => false,
    }
}

// The same of what a crash leaves.
fn leaves(
    alloc: Global,
    disk: &MemDisk,
    choice: CutChoice,
    len: u32,
    first: u64,
    next: u64,
) -> bool {
    match disk.cut(alloc, choice) {
        Ok(cut) => holds(Raw::new(cut), len, first, next),
        Err(_) => false,
    }
}

// A spool of three slots with two messages of one slot each.
fn with_two(alloc: Global) -> Option<Spool<MemDisk>> {
    let Some(spool) = formatted(alloc, 3) else {
        return None;
    };
    let Ok(spool) = put(spool, &[1, 0]) else {
        return None;
    };
    match put(spool, &[1, 0]) {
        Ok(spool) => Some(spool),
        Err(_) => None,
    }
}

// Whether a body is refused for want of slots.
fn is_full(spool: Spool<MemDisk>, body: &[u8]) -> bool {
    let message = Stored {
        stream: 6,
        function: 11,
        body,
    };
    matches!(spool.stage(&message), Err(Staging::Full(_)))
}

// Whether it is refused as too long.
fn is_too_long(spool: Spool<MemDisk>, body: &[u8]) -> bool {
    let message = Stored {
        stream: 6,
        function: 11,
        body,
    };
    matches!(spool.stage(&message), Err(Staging::TooLong(_)))
}

// Whether a message of two slots goes into the last slot and the first one.
fn goes_round(alloc: Global) -> bool {
    let Some(spool) = with_two(alloc) else {
        return false;
    };
    let Ok(spool) = spool.drop_oldest() else {
        return false;
    };
    let Ok(mut spool) = put(spool, &PAIR) else {
        return false;
    };
    let mut slot = [0; SLOT_SIZE];
    let OldestAnswer::Found(head) = spool.message_at(2, &mut slot) else {
        return false;
    };
    if head.len != 5000 || slot[15] != 8 {
        return false;
    }
    if spool.part(&head, 1, &mut slot) != DiskAnswer::Done || slot[933] != 8 || slot[15] != 8 {
        return false;
    }
    if spool.message_at(3, &mut slot) != OldestAnswer::Empty || slot[0] == 0x5A {
        return false;
    }
    spool.used() == 3 && holds(spool.retire().into_raw(), 2, 1, 4)
}

#[test]
fn a_message_goes_round_where_slots_are_left(rt: HostRuntime) -> Result<(), Fail> {
    let alloc = rt.alloc();
    assert!(rt; first_is_narrow(alloc));
    assert!(rt; with_two(alloc).is_some_and(|spool| is_full(spool, &PAIR)));
    assert!(rt; goes_round(alloc));
    assert!(rt; formatted(alloc, 3).is_some_and(|spool| !is_too_long(spool, &LONG)));
    assert!(rt; formatted(alloc, 1).is_some_and(|spool| is_too_long(spool, &MORE)));
    assert!(rt; formatted(alloc, 1).is_some_and(|spool| !is_too_long(spool, &WHOLE)));
    Ok(())
}

// A disk with a file of version 1 that has two messages, in three slots.
fn first_version(alloc: Global) -> Option<MemDisk> {
    let Some(spool) = with_two(alloc) else {
        return None;
    };
    let mut disk = spool.retire().into_disk();
    let _ = settle(&mut disk, 46, &[0]);
    let _ = settle(&mut disk, 7, &[0x31]);
    Some(disk)
}

// Whether an upgrade that stops at a call leaves this version, and the same list.
fn upgrade_leaves(alloc: Global, call: u32, choice: CutChoice, version: u8) -> bool {
    let Some(disk) = first_version(alloc) else {
        return false;
    };
    let Ok(mut spool) = Raw::new(disk).recover() else {
        return false;
    };
    if spool.version() != 1 {
        return false;
    }
    spool.arm(call);
    let disk = match spool.upgrade() {
        Ok(spool) => spool.retire().into_disk(),
        Err(spent) => spent.into_disk(),
    };
    let Ok(cut) = disk.cut(alloc, choice) else {
        return false;
    };
    match Raw::new(cut).recover() {
        Ok(spool) => spool.version() == version && spool.len() == 2 && spool.next() == 2,
        Err(_) => false,
    }
}

#[test]
fn an_upgrade_leaves_either_version(rt: HostRuntime) -> Result<(), Fail> {
    let alloc = rt.alloc();
    assert!(rt; upgrade_leaves(alloc, 1, CutChoice::Fill(0x7F), 2));
    assert!(rt; upgrade_leaves(alloc, 1, CutChoice::Fill(0x10), 1));
    assert!(rt; upgrade_leaves(alloc, 2, CutChoice::Old, 1));
    assert!(rt; upgrade_leaves(alloc, 2, CutChoice::New, 2));
    assert!(rt; upgrade_leaves(alloc, 3, CutChoice::Fill(0), 2));
    assert!(rt; upgrade_leaves(alloc, 4, CutChoice::Old, 2));
    assert!(rt; upgrade_leaves(alloc, 5, CutChoice::Old, 2));
    Ok(())
}

// Whether a body of more than a slot is too long for version 1.
fn first_is_narrow(alloc: Global) -> bool {
    let Some(disk) = first_version(alloc) else {
        return false;
    };
    match Raw::new(disk).recover() {
        Ok(spool) => is_too_long(spool, &MORE),
        Err(_) => false,
    }
}

// What a new file of three slots begins with.
const FRONT: [u8; 47] = [
    0x47, 0x4C, 0x53, 0x50, 0x4F, 0x4F, 0x4C, 0x32, 0, 0, 0, 3, 0, 0, 0, 0, 0, 0, 0, 0, 0, 0, 0, 0,
    0, 0, 0, 0, 0, 0, 0, 0, 0, 0, 0, 0, 0, 0, 0, 0, 0, 0, 0, 0, 0, 0, 1,
];

fn begins_so(alloc: Global) -> bool {
    let Some(spool) = formatted(alloc, 3) else {
        return false;
    };
    let mut disk = spool.retire().into_disk();
    let mut front = [0; 47];
    disk.read(0, &mut front) == DiskAnswer::Done && front == FRONT
}

// The head of an S6F11 of this number with a body of so many bytes.
fn head_of(number: u8, high: u8, low: u8) -> [u8; 15] {
    [0x5A, 0, 0, 0, 0, 0, 0, 0, number, 0x86, 11, 0, 0, high, low]
}

// Whether a file of eight slots with these two heads breaks here.
fn breaks(alloc: Global, first: [u8; 15], second: [u8; 15], at: u64, got: Option<u8>) -> bool {
    let Some(spool) = formatted(alloc, 8) else {
        return false;
    };
    let mut disk = spool.retire().into_disk();
    if disk.size() < 36864 {
        return false;
    }
    let _ = settle(&mut disk, 4096 * (first[8] as u64 % 8 + 1), &first);
    let _ = settle(&mut disk, 4096 * (second[8] as u64 % 8 + 1), &second);
    match Raw::new(disk).recover() {
        Err(Recovering::NotSpool(_, not_spool)) => not_spool == NotSpool { at, got },
        _ => false,
    }
}

#[test]
fn a_file_of_version_2_breaks_at_its_first_wrong_byte(rt: HostRuntime) -> Result<(), Fail> {
    let alloc = rt.alloc();
    assert!(rt; begins_so(alloc));
    assert!(rt; breaks(alloc, head_of(0, 0, 2), head_of(2, 0, 2), 12289, Some(0)));
    assert!(rt;
        breaks(
            alloc,
            head_of(0, 0x7F, 0xFF),
            head_of(1, 0, 2),
            4107,
            Some(0)
        )
    );
    assert!(rt;
        breaks(
            alloc,
            head_of(0, 0x6D, 0),
            head_of(7, 0x0F, 0xF2),
            32779,
            Some(0)
        )
    );
    Ok(())
}
