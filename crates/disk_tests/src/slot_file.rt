//! `spool_slots`: what a put, a drop and a reserve leave where they stop, what is refused, and where a file breaks.

ghost use Rattle.std.specs.Prelude.{◌≤◌, length};

use crate::long_messages::{formatted, without_area};
use disk_base::{CutChoice, Disk, MemDisk, settle};
use spool_file::NotSpool;
use spool_slots::{Dropping, Raw, Recovering, Reserving, Spool, Staging, Stored};
use std::alloc::Global;
use std::test::Fail;

// Puts an S6F11, and hands the disk back where that wasn't done.
pub(crate) fn put(spool: Spool<MemDisk>) -> Result<Spool<MemDisk>, MemDisk> {
    let message = Stored {
        stream: 6,
        function: 11,
        body: &[1, 0],
    };
    match spool.stage(&message) {
        Ok(staged) => match staged.seal() {
            Ok(spool) => Ok(spool),
            Err(spent) => Err(spent.into_disk()),
        },
        Err(Staging::Failed(spent)) => Err(spent.into_disk()),
        Err(Staging::Full(spool)) => Err(spool.retire().into_disk()),
        Err(Staging::TooLong(spool)) => Err(spool.retire().into_disk()),
        Err(Staging::NumbersSpent(spool)) => Err(spool.retire().into_disk()),
    }
}

// Whether a crash leaves so many messages, from this number on, and this mark.
fn leaves(
    alloc: Global,
    disk: &MemDisk,
    choice: CutChoice,
    len: u32,
    first: u64,
    mark: u64,
) -> bool {
    let Ok(cut) = disk.cut(alloc, choice) else {
        return false;
    };
    match Raw::new(cut).recover() {
        Ok(spool) => spool.len() == len
            && spool.first() == first
            && spool.mark() == mark
            && spool.slots() == 3,
        Err(_) => false,
    }
}

// Whether a second put that stops at a call leaves so many messages.
fn put_leaves(alloc: Global, call: u32, choice: CutChoice, len: u32) -> bool {
    let Some(spool) = formatted(alloc, 3) else {
        return false;
    };
    let Ok(mut spool) = put(spool) else {
        return false;
    };
    spool.arm(call);
    match put(spool) {
        Ok(spool) => leaves(alloc, &spool.retire().into_disk(), choice, len, 0, 0),
        Err(disk) => leaves(alloc, &disk, choice, len, 0, 0),
    }
}

#[test]
fn a_put_is_done_with_its_gate(rt: HostRuntime) -> Result<(), Fail> {
    let alloc = rt.alloc();
    assert!(rt; put_leaves(alloc, 1, CutChoice::New, 1));
    assert!(rt; put_leaves(alloc, 2, CutChoice::New, 1));
    assert!(rt; put_leaves(alloc, 3, CutChoice::Fill(0x5A), 1));
    assert!(rt; put_leaves(alloc, 4, CutChoice::Old, 1));
    assert!(rt; put_leaves(alloc, 4, CutChoice::New, 2));
    assert!(rt; put_leaves(alloc, 5, CutChoice::Fill(0xA5), 1));
    assert!(rt; put_leaves(alloc, 5, CutChoice::First(1), 2));
    assert!(rt; put_leaves(alloc, 6, CutChoice::Old, 2));
    Ok(())
}

// Whether a drop of the only message that stops at a call leaves so many messages.
fn drop_leaves(alloc: Global, call: u32, choice: CutChoice, len: u32) -> bool {
    let Some(spool) = formatted(alloc, 3) else {
        return false;
    };
    let Ok(mut spool) = put(spool) else {
        return false;
    };
    spool.arm(call);
    match spool.drop_oldest() {
        Ok(spool) => leaves(alloc, &spool.retire().into_disk(), choice, len, 0, 0),
        Err(Dropping::Failed(spent)) => leaves(alloc, &spent.into_disk(), choice, len, 0, 0),
        Err(Dropping::Empty(_)) => false,
    }
}

#[test]
fn a_drop_is_done_with_its_gate(rt: HostRuntime) -> Result<(), Fail> {
    let alloc = rt.alloc();
    assert!(rt; drop_leaves(alloc, 1, CutChoice::Old, 1));
    assert!(rt; drop_leaves(alloc, 2, CutChoice::Fill(0x5A), 1));
    assert!(rt; drop_leaves(alloc, 2, CutChoice::Fill(0), 0));
    assert!(rt; drop_leaves(alloc, 3, CutChoice::Old, 1));
    assert!(rt; drop_leaves(alloc, 4, CutChoice::Old, 0));
    Ok(())
}

// Whether a reserve that stops at a call leaves this mark.
fn reserve_leaves(alloc: Global, call: u32, choice: CutChoice, mark: u64) -> bool {
    let Some(mut spool) = formatted(alloc, 3) else {
        return false;
    };
    spool.arm(call);
    match spool.reserve() {
        Ok((spool, number)) => number == 0
            && leaves(alloc, &spool.retire().into_disk(), choice, 0, 0, mark),
        Err(Reserving::Failed(spent)) => leaves(alloc, &spent.into_disk(), choice, 0, 0, mark),
        Err(Reserving::NumbersSpent(_)) => false,
    }
}

#[test]
fn a_reserve_is_done_with_its_gate(rt: HostRuntime) -> Result<(), Fail> {
    let alloc = rt.alloc();
    assert!(rt; reserve_leaves(alloc, 3, CutChoice::New, 0));
    assert!(rt; reserve_leaves(alloc, 4, CutChoice::New, 4096));
    assert!(rt; reserve_leaves(alloc, 5, CutChoice::Fill(2), 0));
    assert!(rt; reserve_leaves(alloc, 6, CutChoice::Old, 4096));
    Ok(())
}

// Whether a body of so many bytes is refused, and why: (full, too long, numbers spent).
pub(crate) fn refuses(spool: Spool<MemDisk>, body: &[u8]) -> (bool, bool, bool) {
    let message = Stored {
        stream: 6,
        function: 11,
        body,
    };
    match spool.stage(&message) {
        Ok(_) => (false, false, false),
        Err(Staging::Full(_)) => (true, false, false),
        Err(Staging::TooLong(_)) => (false, true, false),
        Err(Staging::NumbersSpent(_)) => (false, false, true),
        Err(Staging::Failed(_)) => (true, true, true),
    }
}

// A spool of three slots after so many puts.
pub(crate) fn filled(alloc: Global, puts: u32) -> Option<Spool<MemDisk>> {
    let Some(mut spool) = without_area(alloc, 3) else {
        return None;
    };
    for _ in 0..puts {
        match put(spool) {
            Ok(more) => spool = more,
            Err(_) => return None,
        }
    }
    Some(spool)
}

// Whether this many puts leave a spool that refuses a body so.
fn refuses_behind(alloc: Global, puts: u32, body: &[u8], why: (bool, bool, bool)) -> bool {
    match filled(alloc, puts) {
        Some(spool) => refuses(spool, body) == why,
        None => false,
    }
}

// Whether the slot of the oldest message is the first one's again once it is dropped and another put.
fn goes_round(alloc: Global) -> bool {
    let Some(spool) = filled(alloc, 3) else {
        return false;
    };
    let Ok(spool) = spool.drop_oldest() else {
        return false;
    };
    match put(spool) {
        Ok(spool) => leaves(alloc, &spool.retire().into_disk(), CutChoice::Old, 3, 1, 0),
        Err(_) => false,
    }
}

// Whether an empty spool says so.
fn is_empty(alloc: Global) -> bool {
    match formatted(alloc, 3) {
        Some(spool) => matches!(spool.drop_oldest(), Err(Dropping::Empty(_))),
        None => false,
    }
}

#[test]
fn what_has_no_room_is_refused(rt: HostRuntime) -> Result<(), Fail> {
    let alloc = rt.alloc();
    assert!(rt; refuses_behind(alloc, 3, &[1, 0], (true, false, false)));
    assert!(rt; refuses_behind(alloc, 3, &[0; 12244], (false, true, false)));
    assert!(rt; refuses_behind(alloc, 2, &[0; 4081], (false, false, false)));
    assert!(rt; goes_round(alloc));
    assert!(rt; is_empty(alloc));
    Ok(())
}

// The spool of a new file of three slots with some bytes at a place.
pub(crate) fn with_bytes(alloc: Global, at: u64, bytes: &[u8]) -> Option<Spool<MemDisk>>
    requires { length bytes.now ≤ 100 }
{
    let Some(spool) = formatted(alloc, 3) else {
        return None;
    };
    let mut disk = spool.retire().into_disk();
    let end = at.saturating_add(bytes.len() as u64);
    if end > disk.size() {
        return None;
    }
    let _ = settle(&mut disk, at, bytes);
    match Raw::new(disk).recover() {
        Ok(spool) => Some(spool),
        Err(_) => None,
    }
}

// An open slot with the last number, as it stands in the second slot of three.
const LAST: [u8; 17] = [
    0x5A, 0x7F, 0xFF, 0xFF, 0xFF, 0xFF, 0xFF, 0xFF, 0xFF, 0x86, 11, 0, 0, 0, 2, 1, 0,
];

// The last mark but one.
const MARK: [u8; 8] = [0, 0, 0, 0, 0xFF, 0xFF, 0xF0, 0];

fn no_number_is_left(alloc: Global) -> bool {
    match with_bytes(alloc, 8192, &LAST) {
        Some(spool) => spool.len() == 1 && refuses(spool, &[1, 0]) == (false, false, true),
        None => false,
    }
}

fn no_mark_is_left(alloc: Global) -> bool {
    let Some(spool) = with_bytes(alloc, 12, &MARK) else {
        return false;
    };
    match spool.reserve() {
        Ok((spool, number)) => number == 0xFFFF_F000
            && spool.mark() == 1 << 32
            && matches!(spool.reserve(), Err(Reserving::NumbersSpent(_))),
        Err(_) => false,
    }
}

#[test]
fn numbers_are_spent_at_their_ends(rt: HostRuntime) -> Result<(), Fail> {
    let alloc = rt.alloc();
    assert!(rt; no_number_is_left(alloc));
    assert!(rt; no_mark_is_left(alloc));
    Ok(())
}

// Whether a new file without slots of this size breaks here.
fn breaks(alloc: Global, size: u64, front: &[u8], at: u64, got: Option<u8>) -> bool
    requires { length front.now ≤ size }
{
    let Ok(mut disk) = MemDisk::new(alloc, size, 100, 100) else {
        return false;
    };
    let _ = settle(&mut disk, 0, front);
    match Raw::new(disk).recover() {
        Err(Recovering::NotSpool(_, not_spool)) => not_spool == NotSpool { at, got },
        _ => false,
    }
}

// What a file of three slots begins with.
const FRONT: [u8; 12] = [0x47, 0x4C, 0x53, 0x50, 0x4F, 0x4F, 0x4C, 0x31, 0, 0, 0, 3];

// The front, as far as a file of this size has it.
fn front_within(size: usize) -> &'static [u8]
    ensures { length result.now ≤ size }
{
    if size < FRONT.len() {
        &FRONT[..size]
    } else {
        &FRONT
    }
}

// Whether a file of three slots that ends too early breaks at its end: each size within the front, and each 61st then.
fn fronts_break(alloc: Global) -> bool {
    for size in 0..16384_u64 {
        let is_tried = size < 40 || size % 61 == 0;
        if is_tried && !breaks(alloc, size, front_within(size as usize), size, None) {
            return false;
        }
    }
    breaks(alloc, 16383, &FRONT, 16383, None)
}

#[test]
fn a_file_breaks_at_its_first_wrong_byte(rt: HostRuntime) -> Result<(), Fail> {
    let alloc = rt.alloc();
    assert!(rt; breaks(alloc, 100, &[], 0, Some(0)));
    assert!(rt; fronts_break(alloc));
    Ok(())
}
