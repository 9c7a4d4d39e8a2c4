//! `gem_spool`: works carried out in a row, what a stop among them leaves, and the oldest message as it is read.

ghost use Rattle.std.specs.Prelude.{◌≡◌, ◌<◌, ◌≤◌, ◌++◌, List, Some, IsTrue};
ghost use Rattle.disk_base.specs.Story.{Story};
ghost use Rattle.gem_spool.specs.Standing.{count_of};
ghost use Rattle.gem_spool.specs.Works.{oldest_width};
ghost use Rattle.spool_file.specs.File.{file_in};
ghost use Rattle.spool_file.specs.Slot.{Message};
ghost use Rattle.spool_slots.specs.Changes.{IsFirstSize};

use crate::spool_list::{formatted, leaves, with_one, with_two};
use disk_base::{CutChoice, Disk, MemDisk};
use gem_spool::{GemSpool, Room, Undone, Unread, Work};
use gl_base::Row;
use std::alloc::Global;
use std::test::Fail;

// A call of the disk at which it stops, and the work that fails then; and how many messages a crash leaves, from which
// number on, where what isn't synced is lost, and where it is kept.
type Stop = (u32, usize, (u32, u64), (u32, u64));

// Of two messages, 1 and 2, in three slots: a put and a drop,
static STOPS: [Stop; 8] = [
    (1, 0, (2, 1), (2, 1)),
    (2, 0, (2, 1), (2, 1)),
    (3, 0, (2, 1), (2, 1)),
    (4, 0, (2, 1), (3, 1)),
    (5, 0, (2, 1), (3, 1)),
    (6, 1, (3, 1), (3, 1)),
    (7, 1, (3, 1), (2, 2)),
    (8, 1, (3, 1), (2, 2)),
];

// and then a purge of two, and a put into the slot that the drop has closed.
static LATER: [Stop; 10] = [
    (9, 2, (2, 2), (2, 2)),
    (10, 2, (2, 2), (2, 2)),
    (11, 2, (2, 2), (2, 2)),
    (12, 2, (2, 2), (0, 4)),
    (13, 2, (2, 2), (0, 4)),
    (14, 3, (0, 4), (0, 4)),
    (15, 3, (0, 4), (0, 4)),
    (16, 3, (0, 4), (0, 4)),
    (17, 3, (0, 4), (1, 4)),
    (18, 3, (0, 4), (1, 4)),
];

// In one slot that holds a message: a drop and a put, and then a purge and a put. The first put looks at a gate that
// the drop has closed, and the second at one that the purge has left open.
static OVERWRITING: [Stop; 8] = [
    (1, 0, (1, 0), (1, 0)),
    (2, 0, (1, 0), (0, 0)),
    (3, 0, (1, 0), (0, 0)),
    (4, 1, (0, 0), (0, 0)),
    (5, 1, (0, 0), (0, 0)),
    (6, 1, (0, 0), (0, 0)),
    (7, 1, (0, 0), (1, 1)),
    (8, 1, (0, 0), (1, 1)),
];

static PURGED: [Stop; 12] = [
    (9, 2, (1, 1), (1, 1)),
    (10, 2, (1, 1), (1, 1)),
    (11, 2, (1, 1), (1, 1)),
    (12, 2, (1, 1), (0, 2)),
    (13, 2, (1, 1), (0, 2)),
    (14, 3, (0, 2), (0, 2)),
    (15, 3, (0, 2), (0, 2)),
    (16, 3, (0, 2), (0, 2)),
    (17, 3, (0, 2), (0, 2)),
    (18, 3, (0, 2), (0, 2)),
    (19, 3, (0, 2), (1, 2)),
    (20, 3, (0, 2), (1, 2)),
];

// Whether there are so many messages, and each takes one slot.
fn has_single<D: Disk>(spool: &GemSpool<D>, len: u32) -> bool
    ensures len { IsTrue result → spool.now.spool.len ≡ len }
    ensures used { IsTrue result → (count_of spool.now.spool).used ≡ len }
    ensures room { IsTrue result → (count_of spool.now.spool).used ≤ spool.now.spool.slots }
    ensures size { IsTrue result → 0 < len → IsFirstSize D.Disk spool.now.spool 1 }
    ensures oldest { IsTrue result → 0 < len → (s : Story) → D.told spool.now.spool.disk ≡ Some s
        → (more : List Message) → 1 ≡ oldest_width ((file_in s.now.bytes).list ++ more) }
{
    let used = spool.count().used;
    spool.len() == len && used == len
}

// Carries them out. None where there aren't two messages and room for one more, or no memory.
fn carried(
    alloc: Global,
    spool: GemSpool<MemDisk>,
) -> Option<Result<GemSpool<MemDisk>, Undone<MemDisk>>> {
    let (Ok(body), Ok(last)) = (Row::of(alloc, &[1, 0]), Row::of(alloc, &[33, 0])) else {
        return None;
    };
    if !has_single(&spool, 2) || spool.next() > 100 {
        return None;
    }
    let Room::Fits = spool.room(2) else {
        return None;
    };
    let works = [
        Work::Put {
            stream: 6,
            function: 11,
            body,
        },
        Work::DropOldest { slots: 1 },
        Work::Purge,
        Work::Put {
            stream: 5,
            function: 1,
            body: last,
        },
    ];
    Some(spool.carry_out(&works))
}

// Overwrites in one slot, purges and puts, likewise.
fn overwritten(
    alloc: Global,
    spool: GemSpool<MemDisk>,
) -> Option<Result<GemSpool<MemDisk>, Undone<MemDisk>>> {
    let (Ok(body), Ok(last)) = (Row::of(alloc, &[1, 0]), Row::of(alloc, &[33, 0])) else {
        return None;
    };
    if !has_single(&spool, 1) || spool.next() > 100 {
        return None;
    }
    let works = [
        Work::DropOldest { slots: 1 },
        Work::Put {
            stream: 6,
            function: 11,
            body,
        },
        Work::Purge,
        Work::Put {
            stream: 5,
            function: 1,
            body: last,
        },
    ];
    Some(spool.carry_out(&works))
}

// What the works come to, those in one slot or the others, where the disk stops at a call.
fn ended(
    alloc: Global,
    call: u32,
    in_one: bool,
) -> Option<Result<GemSpool<MemDisk>, Undone<MemDisk>>> {
    if in_one {
        let mut spool = with_one(alloc)?;
        spool.arm(call);
        return overwritten(alloc, spool);
    }
    let mut spool = with_two(alloc)?;
    spool.arm(call);
    carried(alloc, spool)
}

// Whether a crash after a stop leaves so many, from this number on.
fn stops_so(alloc: Global, in_one: bool, stop: &Stop, choice: CutChoice, left: (u32, u64)) -> bool {
    match ended(alloc, stop.0, in_one) {
        Some(Err(undone)) => {
            undone.at == stop.1 && leaves(alloc, &undone.spent.into_disk(), choice, left.0, left.1)
        }
        _ => false,
    }
}

fn stop_so(alloc: Global, in_one: bool, stops: &[Stop]) -> bool {
    for stop in stops {
        if !stops_so(alloc, in_one, stop, CutChoice::Old, stop.2) {
            return false;
        }
        if !stops_so(alloc, in_one, stop, CutChoice::New, stop.3) {
            return false;
        }
    }
    true
}

#[test]
fn a_stop_leaves_the_works_before_it(rt: HostRuntime) -> Result<(), Fail> {
    let alloc = rt.alloc();
    assert!(rt; stop_so(alloc, false, &STOPS));
    assert!(rt; stop_so(alloc, false, &LATER));
    Ok(())
}

#[test]
fn one_gate_serves_many_works(rt: HostRuntime) -> Result<(), Fail> {
    let alloc = rt.alloc();
    assert!(rt; stop_so(alloc, true, &OVERWRITING));
    assert!(rt; stop_so(alloc, true, &PURGED));
    Ok(())
}

// Whether the oldest of so many messages, each of one slot, is of this stream and function, with this body.
fn reads(
    alloc: Global,
    spool: &mut GemSpool<MemDisk>,
    len: u32,
    name: (u8, u8),
    body: &[u8],
) -> bool {
    if !has_single(spool, len) {
        return false;
    }
    match spool.oldest_message(alloc, 1) {
        Ok(kept) => { (kept.stream, kept.function) == name && kept.body.as_slice() == body }
        Err(_) => false,
    }
}

// Whether it isn't read, for this reason.
fn reads_none(alloc: Global, spool: &mut GemSpool<MemDisk>, len: u32, why: Unread) -> bool {
    if !has_single(spool, len) {
        return false;
    }
    match spool.oldest_message(alloc, 1) {
        Ok(_) => false,
        Err(said) => said == why,
    }
}

// Whether all are done where the disk goes on, so that the last message alone stands.
fn all_done(alloc: Global) -> bool {
    match ended(alloc, 0, false) {
        Some(Ok(mut spool)) => {
            reads(alloc, &mut spool, 1, (5, 1), &[33, 0])
                && spool.next() == 5
                && leaves(alloc, &spool.retire().into_disk(), CutChoice::Old, 1, 4)
        }
        _ => false,
    }
}

// Whether the oldest of two is read, and not where the disk stops.
fn reads_the_first(alloc: Global) -> bool {
    let Some(mut spool) = with_two(alloc) else {
        return false;
    };
    if !reads(alloc, &mut spool, 2, (6, 11), &[0; 4081]) {
        return false;
    }
    spool.arm(1);
    reads_none(alloc, &mut spool, 2, Unread::Failed)
}

fn reads_none_of_a_new_one(alloc: Global) -> bool {
    match formatted(alloc) {
        Some(mut spool) => reads_none(alloc, &mut spool, 0, Unread::Empty),
        None => false,
    }
}

#[test]
fn the_oldest_is_read_as_it_was_put(rt: HostRuntime) -> Result<(), Fail> {
    let alloc = rt.alloc();
    assert!(rt; all_done(alloc));
    assert!(rt; reads_the_first(alloc));
    assert!(rt; reads_none_of_a_new_one(alloc));
    Ok(())
}
