//! `spool_slots`: each call that a work makes of the disk fails alone, or is the last one, and one of two lists is
//! left.

use crate::slot_file::filled;
use disk_base::{CutChoice, MemDisk};
use spool_slots::{Dropping, Raw, Reserving, Spent, Spool, Staging, Stored};
use std::alloc::Global;
use std::test::Fail;

// Of a file of three slots. All but the last begin with messages 0 and 1; the last puts a message behind a clear of
// three, into a slot that is open still.
#[derive(Clone, Copy, Debug, PartialEq, Eq)]
enum Work {
    Put,
    Drop,
    Reserve,
    Clear,
    PutBehindClear,
}

// How many messages stand, from which number on, and the mark.
type List = (u32, u64, u64);

// What becomes of a call: it fails alone; or the disk stops at it, and this is left of what isn't synced.
#[derive(Clone, Copy, Debug, PartialEq, Eq)]
enum Call {
    Fails,
    Stops(CutChoice),
}

static CALLS: [Call; 7] = [
    Call::Fails,
    Call::Stops(CutChoice::Old),
    Call::Stops(CutChoice::New),
    Call::Stops(CutChoice::Fill(0x5A)),
    Call::Stops(CutChoice::Fill(0xA5)),
    Call::Stops(CutChoice::First(0)),
    Call::Stops(CutChoice::First(1)),
];

// A work, the lists before and behind it, and which of them is left, `b` or `d` as it isn't and is done: a word for
// each row of `CALLS`, with a letter for each call of the work, and one for the call behind it.
type Row = (Work, List, List, [&'static [u8]; 7]);

// A write that fails has its bytes on the disk. Only a gate's write and the sync behind it leave something to choose:
// 5A says that a slot is open, and the lowest bit which copy of a cell counts.
static ROWS: [Row; 5] = [
    (
        Work::Put,
        (2, 0, 0),
        (3, 0, 0),
        [
            b"bbbddd", b"bbbbbd", b"bbbddd", b"bbbddd", b"bbbbbd", b"bbbbbd", b"bbbddd",
        ],
    ),
    (
        Work::Drop,
        (2, 0, 0),
        (1, 1, 0),
        [
            b"bddd", b"bbbd", b"bddd", b"bbbd", b"bddd", b"bbbd", b"bddd",
        ],
    ),
    (
        Work::Reserve,
        (2, 0, 0),
        (2, 0, 4096),
        [
            b"bbbddd", b"bbbbbd", b"bbbddd", b"bbbbbd", b"bbbddd", b"bbbbbd", b"bbbddd",
        ],
    ),
    (
        Work::Clear,
        (2, 0, 0),
        (0, 2, 0),
        [
            b"bbbddd", b"bbbbbd", b"bbbddd", b"bbbbbd", b"bbbddd", b"bbbbbd", b"bbbddd",
        ],
    ),
    (
        Work::PutBehindClear,
        (0, 3, 0),
        (1, 3, 0),
        [
            b"bbbbbddd",
            b"bbbbbbbd",
            b"bbbbbddd",
            b"bbbbbddd",
            b"bbbbbbbd",
            b"bbbbbbbd",
            b"bbbbbddd",
        ],
    ),
];

// The calls of a recovery: a sync, a read of the front, and three of each slot.
const RECOVERY: u32 = 11;

fn file_before(alloc: Global, work: Work) -> Option<Spool<MemDisk>> {
    if work == Work::PutBehindClear {
        filled(alloc, 3)?.clear().ok()
    } else {
        filled(alloc, 2)
    }
}

fn put(spool: Spool<MemDisk>) -> (bool, Spent<MemDisk>) {
    let message = Stored {
        stream: 6,
        function: 11,
        body: &[1, 0],
    };
    match spool.stage(&message) {
        Ok(staged) => match staged.seal() {
            Ok(spool) => (true, spool.retire()),
            Err(spent) => (false, spent),
        },
        Err(Staging::Failed(spent)) => (false, spent),
        Err(Staging::Full(spool)) => (true, spool.retire()),
        Err(Staging::TooLong(spool)) => (true, spool.retire()),
        Err(Staging::NumbersSpent(spool)) => (true, spool.retire()),
    }
}

// Carries a work out, and tells whether the disk did all of it.
fn carried(spool: Spool<MemDisk>, work: Work) -> (bool, Spent<MemDisk>) {
    match work {
        Work::Put | Work::PutBehindClear => put(spool),
        Work::Drop => match spool.drop_oldest() {
            Ok(spool) => (true, spool.retire()),
            Err(Dropping::Empty(spool)) => (true, spool.retire()),
            Err(Dropping::Failed(spent)) => (false, spent),
        },
        Work::Reserve => match spool.reserve() {
            Ok((spool, _)) => (true, spool.retire()),
            Err(Reserving::NumbersSpent(spool)) => (true, spool.retire()),
            Err(Reserving::Failed(spent)) => (false, spent),
        },
        Work::Clear => match spool.clear() {
            Ok(spool) => (true, spool.retire()),
            Err(spent) => (false, spent),
        },
    }
}

fn list_of(recovered: Option<Spool<MemDisk>>) -> Option<List> {
    let spool = recovered?;
    Some((spool.len(), spool.first(), spool.mark()))
}

// The list that is left where this becomes of a call of a work, and whether the disk did all of it.
fn left(alloc: Global, work: Work, at: u32, call: Call) -> Option<(bool, List)> {
    let mut spool = file_before(alloc, work)?;
    match call {
        Call::Fails => {
            let mut disk = spool.retire().into_disk();
            disk.fail_at(at.saturating_add(RECOVERY));
            let (done, spent) = carried(Raw::new(disk).recover().ok()?, work);
            let mut disk = spent.into_disk();
            disk.fail_at(0);
            Some((done, list_of(Raw::new(disk).recover().ok())?))
        }
        Call::Stops(choice) => {
            spool.arm(at);
            let (done, spent) = carried(spool, work);
            let cut = spent.into_disk().cut(alloc, choice).ok()?;
            Some((done, list_of(Raw::new(cut).recover().ok())?))
        }
    }
}

// The first call of a row that leaves something else than its letter says, counted from 1; or 0.
fn first_wrong(alloc: Global, row: &Row, call: Call, word: &[u8]) -> u32 {
    let mut at: u32 = 0;
    for letter in word {
        at = at.saturating_add(1);
        let is_past = at as usize == word.len();
        let list = if *letter == b'd' { row.2 } else { row.1 };
        if left(alloc, row.0, at, call) != Some((is_past, list)) {
            return at;
        }
    }
    0
}

#[test]
fn each_call_fails_alone_or_is_the_last(rt: HostRuntime) -> Result<(), Fail> {
    let alloc = rt.alloc();
    for row in &ROWS {
        for (call, word) in CALLS.iter().zip(&row.3) {
            let wrong = first_wrong(alloc, row, *call, word);
            assert!(rt; wrong == 0, "{:?} {call:?} {wrong}", row.0);
        }
    }
    Ok(())
}
