//! `spool_slots`: the floor of a spool file, below which no message stands. It rises to the next number at once, and
//! the slots below it stay open until a put comes to them.

use crate::long_messages::formatted;
use crate::slot_file::{filled, put, refuses, with_bytes};
use disk_base::{CutChoice, Disk, DiskAnswer, MemDisk, settle};
use spool_file::NotSpool;
use spool_slots::{Raw, Recovering, Spool};
use std::alloc::Global;
use std::test::Fail;

// Three slots with 0, 1 and 2, and then with none of them.
fn cleared(alloc: Global) -> Option<Spool<MemDisk>> {
    filled(alloc, 3)?.clear().ok()
}

// What a crash leaves.
fn cut(alloc: Global, disk: &MemDisk, choice: CutChoice) -> Option<Spool<MemDisk>> {
    match disk.cut(alloc, choice) {
        Ok(cut) => Raw::new(cut).recover().ok(),
        Err(_) => None,
    }
}

// Whether it is so many messages, from this number on.
fn holds(spool: &Spool<MemDisk>, len: u32, first: u64) -> bool {
    spool.len() == len && spool.first() == first && spool.slots() == 3 && spool.mark() == 0
}

// A call at which something stops, what becomes of the disk then, and how many messages that leaves, from which number
// on.
type Stop = (u32, CutChoice, u32, u64);

// A look at the gate of the floor's cell, the other copy, a sync; and the gate, whose lowest bit says which copy
// counts.
static CLEARING: [Stop; 12] = [
    (1, CutChoice::New, 3, 0),
    (2, CutChoice::New, 3, 0),
    (3, CutChoice::Fill(1), 3, 0),
    (4, CutChoice::Old, 3, 0),
    (4, CutChoice::Fill(0x5A), 3, 0),
    (4, CutChoice::New, 0, 3),
    (4, CutChoice::Fill(0xA5), 0, 3),
    (5, CutChoice::First(0), 3, 0),
    (5, CutChoice::Fill(0x5A), 3, 0),
    (5, CutChoice::First(1), 0, 3),
    (5, CutChoice::Fill(0xA5), 0, 3),
    (6, CutChoice::Old, 0, 3),
];

// Whether three messages are left so.
fn clears_so(alloc: Global, stop: &Stop) -> bool {
    let Some(mut spool) = filled(alloc, 3) else {
        return false;
    };
    spool.arm(stop.0);
    let spent = match spool.clear() {
        Ok(spool) => spool.retire(),
        Err(spent) => spent,
    };
    match cut(alloc, &spent.into_disk(), stop.1) {
        Some(spool) => holds(&spool, stop.2, stop.3),
        None => false,
    }
}

fn all_clear_so(alloc: Global) -> bool {
    for stop in &CLEARING {
        if !clears_so(alloc, stop) {
            return false;
        }
    }
    true
}

// The second copy and the gate, behind a clear.
fn has_moved(alloc: Global) -> bool {
    let Some(spool) = cleared(alloc) else {
        return false;
    };
    let mut disk = spool.retire().into_disk();
    let mut cell = [9; 9];
    if disk.size() < 46 {
        return false;
    }
    disk.read(37, &mut cell) == DiskAnswer::Done && cell == [0, 0, 0, 0, 0, 0, 0, 3, 1]
}

#[test]
fn all_messages_leave_at_once(rt: HostRuntime) -> Result<(), Fail> {
    let alloc = rt.alloc();
    assert!(rt; all_clear_so(alloc));
    assert!(rt; has_moved(alloc));
    Ok(())
}

// A put behind a clear: the same, and how many calls the next put makes then.
type PutStop = (Stop, u32);

// It looks at the gate of slot 0, which is open, and closes it with a sync.
static SHUTTING: [PutStop; 11] = [
    ((1, CutChoice::Old, 0, 3), 7),
    ((1, CutChoice::New, 0, 3), 7),
    ((2, CutChoice::Old, 0, 3), 7),
    ((2, CutChoice::New, 0, 3), 5),
    ((2, CutChoice::Fill(0x5A), 0, 3), 7),
    ((2, CutChoice::Fill(0xA5), 0, 3), 5),
    ((3, CutChoice::First(0), 0, 3), 7),
    ((3, CutChoice::First(1), 0, 3), 5),
    ((3, CutChoice::New, 0, 3), 5),
    ((3, CutChoice::Fill(0x5A), 0, 3), 7),
    ((3, CutChoice::Fill(0), 0, 3), 5),
];

// Then it writes the message, and the gate. Number 4 is put into slot 1, which is open still.
static PUTTING: [PutStop; 7] = [
    ((4, CutChoice::Fill(0x5A), 0, 3), 5),
    ((5, CutChoice::New, 0, 3), 5),
    ((6, CutChoice::Old, 0, 3), 5),
    ((6, CutChoice::New, 1, 3), 7),
    ((7, CutChoice::Fill(0xA5), 0, 3), 5),
    ((7, CutChoice::Fill(0x5A), 1, 3), 7),
    ((8, CutChoice::Old, 1, 3), 7),
];

// How many calls were made since the disk was to stop at the thousandth.
fn with_calls(spool: Spool<MemDisk>) -> (Spool<MemDisk>, u32) {
    let calls = 1000_u32.saturating_sub(spool.stops_in());
    (spool, calls)
}

// A put, and how many calls it makes. None where it fails.
fn counted(mut spool: Spool<MemDisk>) -> Option<(Spool<MemDisk>, u32)> {
    spool.arm(1000);
    match put(spool) {
        Ok(spool) => Some(with_calls(spool)),
        Err(_) => None,
    }
}

// Whether a put that stops leaves the spool so.
fn puts_so(alloc: Global, stop: &PutStop) -> bool {
    let Some(mut spool) = cleared(alloc) else {
        return false;
    };
    spool.arm(stop.0.0);
    let disk = match put(spool) {
        Ok(spool) => spool.retire().into_disk(),
        Err(disk) => disk,
    };
    let Some(spool) = cut(alloc, &disk, stop.0.1) else {
        return false;
    };
    if !holds(&spool, stop.0.2, stop.0.3) {
        return false;
    }
    match counted(spool) {
        Some((spool, calls)) => {
            calls == stop.1 && spool.len() > stop.0.2 && spool.first() == stop.0.3
        }
        None => false,
    }
}

fn all_put_so(alloc: Global, stops: &[PutStop]) -> bool {
    for stop in stops {
        if !puts_so(alloc, stop) {
            return false;
        }
    }
    true
}

#[test]
fn an_open_slot_is_closed_before_a_put(rt: HostRuntime) -> Result<(), Fail> {
    let alloc = rt.alloc();
    assert!(rt; all_put_so(alloc, &SHUTTING));
    assert!(rt; all_put_so(alloc, &PUTTING));
    Ok(())
}

// What a file is found to be.
#[derive(Clone, Copy, Debug, PartialEq, Eq)]
enum Found {
    // So many messages, from this number on.
    List(u32, u64),
    Broken(NotSpool),
    Nothing,
}

// What is found behind a write of some bytes, and a sync.
fn found_behind(spool: Spool<MemDisk>, at: u64, bytes: &[u8]) -> Found {
    let mut disk = spool.retire().into_disk();
    if disk.size() < 16384 || at > 16000 || bytes.len() > 100 {
        return Found::Nothing;
    }
    let _ = settle(&mut disk, at, bytes);
    match Raw::new(disk).recover() {
        Ok(spool) => Found::List(spool.len(), spool.first()),
        Err(Recovering::NotSpool(_, not_spool)) => Found::Broken(not_spool),
        Err(Recovering::Failed(_)) => Found::Nothing,
    }
}

type Change = (u64, &'static [u8], Found);

// Of a file with 0, 1 and 2: numbers below the floor stand no more. Only the copy counts that the gate names, and the
// byte behind the gate isn't read. The floor may be 2^63, and no more.
static RISES: [Change; 8] = [
    (36, &[2], Found::List(1, 2)),
    (36, &[3], Found::List(0, 3)),
    (44, &[2], Found::List(3, 0)),
    (44, &[2, 0xA5], Found::List(1, 2)),
    (46, &[0xFF], Found::List(3, 0)),
    (29, &[0x80, 0, 0, 0, 0, 0, 0, 0], Found::List(0, 1 << 63)),
    (
        29,
        &[0x80, 0, 0, 0, 0, 0, 0, 1],
        Found::Broken(NotSpool {
            at: 29,
            got: Some(0x80),
        }),
    ),
    (
        37,
        &[0x80, 0, 0, 0, 0, 0, 0, 1, 1],
        Found::Broken(NotSpool {
            at: 37,
            got: Some(0x80),
        }),
    ),
];

// Of one whose floor is 3: what an open slot holds counts for nothing below that, and is tested from there on.
static STALE: [Change; 4] = [
    (
        4105,
        &[0xFF, 0xFE, 0xFF, 0xFF, 0xFF, 0xFF],
        Found::List(0, 3),
    ),
    (8200, &[2], Found::List(0, 3)),
    (4104, &[3], Found::List(1, 3)),
    (
        4104,
        &[4],
        Found::Broken(NotSpool {
            at: 4097,
            got: Some(0),
        }),
    ),
];

fn all_found(alloc: Global, is_cleared: bool, changes: &[Change]) -> bool {
    for change in changes {
        let spool = if is_cleared {
            cleared(alloc)
        } else {
            filled(alloc, 3)
        };
        match spool {
            Some(spool) => {
                if found_behind(spool, change.0, change.1) != change.2 {
                    return false;
                }
            }
            None => return false,
        }
    }
    true
}

// Whether no number is left where the floor is 2^63.
fn leaves_no_number(alloc: Global) -> bool {
    match with_bytes(alloc, 29, &[0x80]) {
        Some(spool) => {
            spool.first() == 1 << 63 && refuses(spool, &[1, 0]) == (false, false, true)
        }
        None => false,
    }
}

#[test]
fn nothing_stands_below_the_floor(rt: HostRuntime) -> Result<(), Fail> {
    let alloc = rt.alloc();
    assert!(rt; all_found(alloc, false, &RISES));
    assert!(rt; all_found(alloc, true, &STALE));
    assert!(rt; leaves_no_number(alloc));
    Ok(())
}

#[derive(Clone, Copy)]
enum Work {
    Put,
    Drop,
    Clear,
    Reserve,
}

fn carried(spool: Spool<MemDisk>, work: Work) -> Option<Spool<MemDisk>> {
    match work {
        Work::Put => put(spool).ok(),
        Work::Drop => spool.drop_oldest().ok(),
        Work::Clear => spool.clear().ok(),
        Work::Reserve => match spool.reserve() {
            Ok((spool, _)) => Some(spool),
            Err(_) => None,
        },
    }
}

// A work, how many calls it makes, and how many messages stand then, from which number on.
type Counted = (Work, u32, u32, u64);

// In one slot: a drop reads the length and closes the gate that the next put looks at, and a clear leaves it open.
static COUNTED: [Counted; 10] = [
    (Work::Put, 5, 1, 0),
    (Work::Drop, 3, 0, 1),
    (Work::Put, 5, 1, 1),
    (Work::Clear, 5, 0, 2),
    (Work::Clear, 0, 0, 2),
    (Work::Put, 7, 1, 2),
    (Work::Reserve, 5, 1, 2),
    (Work::Drop, 3, 0, 3),
    (Work::Put, 5, 1, 3),
    (Work::Clear, 5, 0, 4),
];

// The spool behind a work, where that goes so.
fn behind(mut spool: Spool<MemDisk>, row: &Counted) -> Option<Spool<MemDisk>> {
    spool.arm(1000);
    match carried(spool, row.0) {
        Some(spool) => {
            let (spool, calls) = with_calls(spool);
            if calls == row.1 && spool.len() == row.2 && spool.first() == row.3 {
                Some(spool)
            } else {
                None
            }
        }
        None => None,
    }
}

fn all_counted(alloc: Global) -> bool {
    let Some(mut spool) = formatted(alloc, 1) else {
        return false;
    };
    for row in &COUNTED {
        match behind(spool, row) {
            Some(more) => spool = more,
            None => return false,
        }
    }
    true
}

// Whether a recovery makes so many calls: a sync, a read of the front, and three of each slot.
fn recovers_by(alloc: Global, calls: u32) -> bool {
    let Some(spool) = cleared(alloc) else {
        return false;
    };
    let mut disk = spool.retire().into_disk();
    disk.stop_at(1000);
    match Raw::new(disk).recover() {
        Ok(spool) => with_calls(spool).1 == calls,
        Err(_) => false,
    }
}

#[test]
fn works_make_so_many_calls(rt: HostRuntime) -> Result<(), Fail> {
    let alloc = rt.alloc();
    assert!(rt; all_counted(alloc));
    assert!(rt; recovers_by(alloc, 11));
    Ok(())
}
