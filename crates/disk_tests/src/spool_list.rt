//! `gem_spool`: each call of the spool as a change of its list, and that a purge leaves all or nothing where it stops.

use crate::long_messages::without_area;
use disk_base::{CutChoice, Disk, MemDisk, settle};
use gem_spool::{GemSpool, PutAnswer, Room};
use spool_slots::{OldestAnswer, Raw, Spool, Stored};
use std::alloc::Global;

// What is asked of a spool: a put of a short body, and of one that takes one slot of three, two, all, and more than
// these; and the rest.
#[derive(Clone, Copy, Debug, PartialEq, Eq)]
enum Work {
    Put,
    PutLongest,
    PutPair,
    PutWhole,
    PutTooLong,
    Confirm(u64),
    Purge,
    Reserve,
}

#[derive(Clone, Copy, Debug, PartialEq, Eq)]
enum Came {
    Put(PutAnswer),
    Confirmed(bool),
    Purged,
    Reserved(Option<u32>),
}

// A work, what it comes to, and the oldest number and how many messages there are behind it.
type Row = (Work, Came, u64, u32);

// Of a new file of three slots.
static ROWS: [Row; 8] = [
    (Work::Put, Came::Put(PutAnswer::Stored(0)), 0, 1),
    (Work::PutLongest, Came::Put(PutAnswer::Stored(1)), 0, 2),
    (Work::PutTooLong, Came::Put(PutAnswer::TooLong), 0, 2),
    (Work::Put, Came::Put(PutAnswer::Stored(2)), 0, 3),
    (Work::Put, Came::Put(PutAnswer::Full), 0, 3),
    (Work::PutTooLong, Came::Put(PutAnswer::TooLong), 0, 3),
    (Work::Confirm(1), Came::Confirmed(false), 0, 3),
    (Work::Confirm(0), Came::Confirmed(true), 1, 2),
];

static FIRST: [Row; 1] = [(Work::Put, Came::Put(PutAnswer::Stored(0)), 0, 1)];

// And from there on.
static LATER: [Row; 7] = [
    (Work::Put, Came::Put(PutAnswer::Stored(3)), 1, 3),
    (Work::Reserve, Came::Reserved(Some(0)), 1, 3),
    (Work::Reserve, Came::Reserved(Some(4096)), 1, 3),
    (Work::Purge, Came::Purged, 4, 0),
    (Work::Confirm(4), Came::Confirmed(false), 4, 0),
    (Work::Purge, Came::Purged, 4, 0),
    (Work::Put, Came::Put(PutAnswer::Stored(4)), 4, 1),
];

// Of a new file, too: a message of two slots has no room beside two of one slot, and then goes into the last slot and
// the first one.
static WRAPPING: [Row; 6] = [
    (Work::Put, Came::Put(PutAnswer::Stored(0)), 0, 1),
    (Work::Put, Came::Put(PutAnswer::Stored(1)), 0, 2),
    (Work::PutPair, Came::Put(PutAnswer::Full), 0, 2),
    (Work::Confirm(0), Came::Confirmed(true), 1, 1),
    (Work::PutPair, Came::Put(PutAnswer::Stored(2)), 1, 2),
    (Work::Put, Came::Put(PutAnswer::Full), 1, 2),
];

// One of all slots, which takes three numbers.
static WHOLE: [Row; 5] = [
    (Work::PutTooLong, Came::Put(PutAnswer::TooLong), 0, 0),
    (Work::PutWhole, Came::Put(PutAnswer::Stored(0)), 0, 1),
    (Work::Put, Came::Put(PutAnswer::Full), 0, 1),
    (Work::Confirm(0), Came::Confirmed(true), 3, 0),
    (Work::Put, Came::Put(PutAnswer::Stored(3)), 3, 1),
];

// A new spool of three slots.
pub(crate) fn formatted(alloc: Global) -> Option<GemSpool<MemDisk>> {
    Some(GemSpool::new(without_area(alloc, 3)?))
}

// Puts an S6F11.
fn put(spool: GemSpool<MemDisk>, body: &[u8]) -> Option<(GemSpool<MemDisk>, Came)> {
    let message = Stored {
        stream: 6,
        function: 11,
        body,
    };
    match spool.put(&message) {
        Ok((spool, answer)) => Some((spool, Came::Put(answer))),
        Err(_) => None,
    }
}

fn confirm(spool: GemSpool<MemDisk>, number: u64) -> Option<(GemSpool<MemDisk>, Came)> {
    match spool.confirm(number) {
        Ok((spool, is_gone)) => Some((spool, Came::Confirmed(is_gone))),
        Err(_) => None,
    }
}

fn purge(spool: GemSpool<MemDisk>) -> Option<(GemSpool<MemDisk>, Came)> {
    match spool.purge() {
        Ok(spool) => Some((spool, Came::Purged)),
        Err(_) => None,
    }
}

fn reserve(spool: GemSpool<MemDisk>) -> Option<(GemSpool<MemDisk>, Came)> {
    match spool.reserve() {
        Ok((spool, base)) => Some((spool, Came::Reserved(base))),
        Err(_) => None,
    }
}

// Carries a work out. None where the disk failed.
fn carry(spool: GemSpool<MemDisk>, work: Work) -> Option<(GemSpool<MemDisk>, Came)> {
    match work {
        Work::Put => put(spool, &[1, 0]),
        Work::PutLongest => put(spool, &[0; 4081]),
        Work::PutPair => put(spool, &[0; 5000]),
        Work::PutWhole => put(spool, &[0; 12243]),
        Work::PutTooLong => put(spool, &[0; 12244]),
        Work::Confirm(number) => confirm(spool, number),
        Work::Purge => purge(spool),
        Work::Reserve => reserve(spool),
    }
}

// The spool behind these rows. None where one of them came to something else.
fn behind(spool: GemSpool<MemDisk>, rows: &[Row]) -> Option<GemSpool<MemDisk>> {
    let mut spool = spool;
    for row in rows {
        match carry(spool, row.0) {
            Some((more, came)) => {
                if came != row.1 || more.first() != row.2 || more.len() != row.3 {
                    return None;
                }
                spool = more;
            }
            None => return None,
        }
    }
    Some(spool)
}

// The spool behind the first rows: numbers 1 and 2.
pub(crate) fn with_two(alloc: Global) -> Option<GemSpool<MemDisk>> {
    match formatted(alloc) {
        Some(spool) => behind(spool, &ROWS),
        None => None,
    }
}

// A spool of one slot, which holds number 0.
pub(crate) fn with_one(alloc: Global) -> Option<GemSpool<MemDisk>> {
    behind(GemSpool::new(without_area(alloc, 1)?), &FIRST)
}

fn goes_on(alloc: Global) -> bool {
    match with_two(alloc) {
        Some(spool) => behind(spool, &LATER).is_some(),
        None => false,
    }
}

// Whether a new spool goes through these rows.
fn goes_so(alloc: Global, rows: &[Row]) -> bool {
    match formatted(alloc) {
        Some(spool) => behind(spool, rows).is_some(),
        None => false,
    }
}

// Whether the oldest of two is number 1 with its body, and the spool becomes active by word alone.
fn shows_the_oldest(alloc: Global) -> bool {
    let Some(mut spool) = with_two(alloc) else {
        return false;
    };
    let was = spool.active();
    spool.set_active(true);
    let mut slot = [1; 4096];
    match spool.oldest(&mut slot) {
        OldestAnswer::Found(head) => head.number == 1
            && head.len == 4081
            && slot[15] == 0
            && !was
            && spool.active()
            && spool.next() == 3,
        _ => false,
    }
}

#[test]
fn each_work_changes_the_list(rt: HostRuntime) {
    let alloc = rt.alloc();
    assert!(rt; goes_on(alloc));
    assert!(rt; goes_so(alloc, &WRAPPING));
    assert!(rt; goes_so(alloc, &WHOLE));
    assert!(rt; shows_the_oldest(alloc));
}

// An open slot with one of the last three numbers, each in its slot of three.
const LAST: [u8; 15] = [
    0x5A, 0x7F, 0xFF, 0xFF, 0xFF, 0xFF, 0xFF, 0xFF, 0xFF, 0x86, 11, 0, 0, 0, 0,
];

const LAST_BUT_ONE: [u8; 15] = [
    0x5A, 0x7F, 0xFF, 0xFF, 0xFF, 0xFF, 0xFF, 0xFF, 0xFE, 0x86, 11, 0, 0, 0, 0,
];

const LAST_BUT_TWO: [u8; 15] = [
    0x5A, 0x7F, 0xFF, 0xFF, 0xFF, 0xFF, 0xFF, 0xFF, 0xFD, 0x86, 11, 0, 0, 0, 0,
];

// The last mark but one.
const MARK: [u8; 8] = [0, 0, 0, 0, 0xFF, 0xFF, 0xF0, 0];

// A full spool with no number left, and one mark.
fn at_the_end(alloc: Global) -> Option<GemSpool<MemDisk>> {
    let Some(spool) = formatted(alloc) else {
        return None;
    };
    let mut disk = spool.retire().into_disk();
    if disk.size() < 16384 {
        return None;
    }
    let _ = settle(&mut disk, 12, &MARK);
    let _ = settle(&mut disk, 4096, &LAST_BUT_ONE);
    let _ = settle(&mut disk, 8192, &LAST);
    let _ = settle(&mut disk, 12288, &LAST_BUT_TWO);
    match Raw::new(disk).recover() {
        Ok(spool) => Some(GemSpool::new(spool)),
        Err(_) => None,
    }
}

static ENDS: [Row; 5] = [
    (
        Work::Put,
        Came::Put(PutAnswer::NumbersSpent),
        0x7FFF_FFFF_FFFF_FFFD,
        3,
    ),
    (
        Work::PutTooLong,
        Came::Put(PutAnswer::TooLong),
        0x7FFF_FFFF_FFFF_FFFD,
        3,
    ),
    (
        Work::Reserve,
        Came::Reserved(Some(0xFFFF_F000)),
        0x7FFF_FFFF_FFFF_FFFD,
        3,
    ),
    (
        Work::Reserve,
        Came::Reserved(None),
        0x7FFF_FFFF_FFFF_FFFD,
        3,
    ),
    (Work::Purge, Came::Purged, 0x8000_0000_0000_0000, 0),
];

fn ends_so(alloc: Global) -> bool {
    match at_the_end(alloc) {
        Some(spool) => spool.active() && behind(spool, &ENDS).is_some(),
        None => false,
    }
}

// Whether there is this room for bodies of 4,081 bytes, and none ever for more than three slots hold.
fn has_room(spool: Option<GemSpool<MemDisk>>, room: Room) -> bool {
    match spool {
        Some(spool) => spool.room(4081) == room && spool.room(12244) == Room::TooLong,
        None => false,
    }
}

// One with numbers 1, 2 and 3.
pub(crate) fn filled(alloc: Global) -> Option<GemSpool<MemDisk>> {
    match with_two(alloc) {
        Some(spool) => match carry(spool, Work::Put) {
            Some((spool, _)) => Some(spool),
            None => None,
        },
        None => None,
    }
}

#[test]
fn room_and_put_end_alike(rt: HostRuntime) {
    let alloc = rt.alloc();
    assert!(rt; has_room(formatted(alloc), Room::Fits));
    assert!(rt; has_room(filled(alloc), Room::Full));
    assert!(rt; has_room(at_the_end(alloc), Room::NumbersSpent));
    assert!(rt; ends_so(alloc));
}

// Whether a crash leaves so many messages, from this number on.
pub(crate) fn leaves(
    alloc: Global,
    disk: &MemDisk,
    choice: CutChoice,
    len: u32,
    first: u64,
) -> bool {
    let Ok(cut) = disk.cut(alloc, choice) else {
        return false;
    };
    match Raw::new(cut).recover() {
        Ok(spool) => spool.len() == len && spool.first() == first,
        Err(_) => false,
    }
}

// Whether a purge of two that stops at a call leaves so many, from this number on.
fn purge_leaves(alloc: Global, call: u32, choice: CutChoice, len: u32, first: u64) -> bool {
    let Some(mut spool) = with_two(alloc) else {
        return false;
    };
    spool.arm(call);
    match spool.purge() {
        Ok(spool) => leaves(alloc, &spool.retire().into_disk(), choice, len, first),
        Err(spent) => leaves(alloc, &spent.into_disk(), choice, len, first),
    }
}

#[test]
fn a_purge_takes_all_or_none(rt: HostRuntime) {
    let alloc = rt.alloc();
    assert!(rt; purge_leaves(alloc, 3, CutChoice::New, 2, 1));
    assert!(rt; purge_leaves(alloc, 4, CutChoice::Fill(0x5A), 2, 1));
    assert!(rt; purge_leaves(alloc, 4, CutChoice::New, 0, 3));
    assert!(rt; purge_leaves(alloc, 5, CutChoice::Old, 2, 1));
    assert!(rt; purge_leaves(alloc, 5, CutChoice::Fill(0xA5), 0, 3));
    assert!(rt; purge_leaves(alloc, 6, CutChoice::Old, 0, 3));
}
