//! `setup_store`: the setup on the spool's disk, as it is taken up and kept anew, and what each loss on the way leaves.

ghost use Rattle.std.specs.Prelude.{◌≤◌, length};

use crate::long_messages::formatted;
use crate::slot_file::with_bytes;
use disk_base::{CutChoice, Disk, MemDisk, settle};
use gl_base::Row;
use setup_store::{Keeping, Loading, NotSpool, keep, load};
use spool_slots::{Raw, Spool};
use std::alloc::Global;
use std::test::Fail;

// S5F3, S2F37, and nothing.
static ALARM: [u8; 8] = [5, 3, 0, 0, 0, 2, 1, 0];

static EVENTS: [u8; 6] = [2, 37, 0, 0, 0, 0];

static NONE: [u8; 0] = [];

// A list of one S2F43 with a body of so many bytes.
fn rule_of(alloc: Global, body: u32) -> Option<Row<u8>> {
    let zeros = vec![in alloc; 0; body as usize].ok()?;
    let mut list = Row::new(alloc);
    list.extend(&[2, 43]).ok()?;
    list.extend(&body.to_be_bytes()).ok()?;
    list.extend(zeros.as_slice()).ok()?;
    Some(list)
}

// What is kept behind a list, and the spool.
fn kept(alloc: Global, mut spool: Spool<MemDisk>, list: &[u8]) -> Option<Spool<MemDisk>> {
    match load(alloc, &mut spool) {
        Ok(_) => keep(spool, list).ok(),
        Err(_) => None,
    }
}

// Whether these bytes are kept.
fn holds(alloc: Global, spool: &mut Spool<MemDisk>, list: &[u8]) -> bool {
    match load(alloc, spool) {
        Ok(found) => found.as_slice() == list,
        Err(_) => false,
    }
}

// Whether lists stay that are kept one behind the other, and a power cut behind each.
fn stay(alloc: Global, lists: &[&[u8]]) -> bool {
    let Some(mut spool) = formatted(alloc, 2) else {
        return false;
    };
    if !holds(alloc, &mut spool, &NONE) {
        return false;
    }
    for list in lists {
        let Some(after) = kept(alloc, spool, list) else {
            return false;
        };
        let Ok(disk) = after.retire().into_disk().cut(alloc, CutChoice::Old) else {
            return false;
        };
        let Ok(again) = Raw::new(disk).recover() else {
            return false;
        };
        spool = again;
        if !holds(alloc, &mut spool, list) {
            return false;
        }
    }
    true
}

#[test]
fn lists_are_kept_one_behind_the_other(rt: HostRuntime) -> Result<(), Fail> {
    let alloc = rt.alloc();
    assert!(rt; stay(alloc, &[&ALARM, &EVENTS, &ALARM, &NONE, &NONE, &EVENTS]));
    Ok(())
}

// Whether a list of one entry with such a body has room, and then is there.
fn has_room_for(alloc: Global, body: u32) -> Option<bool> {
    let list = rule_of(alloc, body)?;
    let mut spool = formatted(alloc, 1)?;
    match load(alloc, &mut spool) {
        Ok(_) => {}
        Err(_) => return None,
    }
    match keep(spool, list.as_slice()) {
        Ok(mut spool) => Some(holds(alloc, &mut spool, list.as_slice())),
        Err(Keeping::NoRoom(_)) => Some(false),
        Err(_) => None,
    }
}

#[test]
fn a_list_has_room_up_to_its_copy(rt: HostRuntime) -> Result<(), Fail> {
    let alloc = rt.alloc();
    assert_eq!(rt; has_room_for(alloc, 262_138), Some(true));
    assert_eq!(rt; has_room_for(alloc, 262_139), Some(false));
    Ok(())
}

// The disk where a keep stopped at a call, behind a list that was kept before.
fn stopped(alloc: Global, before: &[u8], list: &[u8], call: u32) -> Option<MemDisk> {
    let mut spool = formatted(alloc, 2)?;
    if !before.is_empty() {
        spool = kept(alloc, spool, before)?;
    }
    match load(alloc, &mut spool) {
        Ok(_) => {}
        Err(_) => return None,
    }
    spool.arm(call);
    match keep(spool, list) {
        Ok(spool) => Some(spool.retire().into_disk()),
        Err(Keeping::Failed(spent)) => Some(spent.into_disk()),
        Err(_) => None,
    }
}

// What becomes of what isn't synced, and which list is left then: a letter for each call at which the disk stops, `a`
// for the list before, and one for the call behind the last.
type Word = (CutChoice, &'static [u8]);

// A look at the cell, the list, a sync; a look at its gate, the other copy, a sync; and the gate, whose lowest bit says
// which copy counts.
static FIRST: [Word; 6] = [
    (CutChoice::Old, b"aaaaaaaab"),
    (CutChoice::New, b"aaaaaabbb"),
    (CutChoice::Fill(0x5A), b"aaaaaaaab"),
    (CutChoice::Fill(0xA5), b"aaaaaabbb"),
    (CutChoice::First(0), b"aaaaaaaab"),
    (CutChoice::First(1), b"aaaaaabbb"),
];

static SECOND: [Word; 6] = [
    (CutChoice::Old, b"aaaaaaaab"),
    (CutChoice::New, b"aaaaaabbb"),
    (CutChoice::Fill(0x5A), b"aaaaaabbb"),
    (CutChoice::Fill(0xA5), b"aaaaaaaab"),
    (CutChoice::First(0), b"aaaaaaaab"),
    (CutChoice::First(1), b"aaaaaabbb"),
];

// The same without the list, which is empty.
static EMPTIED: [Word; 4] = [
    (CutChoice::Old, b"aaaaaab"),
    (CutChoice::New, b"aaaabbb"),
    (CutChoice::Fill(0x5A), b"aaaabbb"),
    (CutChoice::Fill(0xA5), b"aaaaaab"),
];

// Whether a list is kept in what a crash leaves of a disk.
fn leaves(alloc: Global, disk: &MemDisk, choice: CutChoice, list: &[u8]) -> bool {
    let Ok(cut) = disk.cut(alloc, choice) else {
        return false;
    };
    match Raw::new(cut).recover() {
        Ok(mut spool) => holds(alloc, &mut spool, list),
        Err(_) => false,
    }
}

// The first call that leaves something else than its letter says, counted from 1; or 0.
fn first_wrong(alloc: Global, before: &[u8], list: &[u8], word: &Word) -> u32 {
    let mut call: u32 = 0;
    for letter in word.1 {
        call = call.saturating_add(1);
        let left = if *letter == b'a' { before } else { list };
        let is_so = match stopped(alloc, before, list, call) {
            Some(disk) => leaves(alloc, &disk, word.0, left),
            None => false,
        };
        if !is_so {
            return call;
        }
    }
    0
}

#[test]
fn each_call_of_a_keep_leaves_its_list(rt: HostRuntime) -> Result<(), Fail> {
    let alloc = rt.alloc();
    for word in &FIRST {
        let wrong = first_wrong(alloc, &NONE, &ALARM, word);
        assert!(rt; wrong == 0, "{:?} {wrong}", word.0);
    }
    for word in &SECOND {
        let wrong = first_wrong(alloc, &ALARM, &EVENTS, word);
        assert!(rt; wrong == 0, "{:?} {wrong}", word.0);
    }
    for word in &EMPTIED {
        let wrong = first_wrong(alloc, &ALARM, &NONE, word);
        assert!(rt; wrong == 0, "{:?} {wrong}", word.0);
    }
    Ok(())
}

// Where the setup of a file with some bytes at a place breaks.
fn breaks(alloc: Global, at: u64, bytes: &[u8]) -> Option<NotSpool>
    requires { length bytes.now ≤ 100 }
{
    match load(alloc, &mut with_bytes(alloc, at, bytes)?) {
        Err(Loading::NotSetup(found)) => Some(found),
        _ => None,
    }
}

// The cell names a third copy, in its first copy and in its second one; a list that is longer than its copy; and two
// bytes of the area, which are none.
static THIRD: [u8; 4] = [9, 0, 0, 2];

static OTHER: [u8; 17] = [0, 0, 0, 0, 0, 0, 0, 0, 1, 0, 0, 0, 0, 0, 0, 0, 1];

static LONG: [u8; 8] = [0, 0, 0, 0, 0, 4, 0, 1];

static TWO: [u8; 8] = [0, 0, 0, 0, 0, 0, 0, 2];

// Where an entry's end is missing: the cell names two bytes, of which the area has these.
fn ends_within(alloc: Global) -> Option<NotSpool> {
    let mut disk = with_bytes(alloc, 47, &TWO)?.retire().into_disk();
    if disk.size() < 16386 {
        return None;
    }
    let _ = settle(&mut disk, 16384, &[2, 37]);
    match load(alloc, &mut Raw::new(disk).recover().ok()?) {
        Err(Loading::NotSetup(found)) => Some(found),
        _ => None,
    }
}

#[test]
fn a_bad_setup_breaks_at_its_place(rt: HostRuntime) -> Result<(), Fail> {
    let alloc = rt.alloc();
    let at_cell = |at, got| Some(NotSpool { at, got: Some(got) });
    assert_eq!(rt; breaks(alloc, 47, &THIRD), at_cell(47, 9));
    assert_eq!(rt; breaks(alloc, 47, &OTHER), at_cell(55, 1));
    assert_eq!(rt; breaks(alloc, 47, &LONG), at_cell(47, 0));
    assert_eq!(rt; breaks(alloc, 47, &TWO), at_cell(16384, 0));
    assert_eq!(rt;
        ends_within(alloc),
        Some(NotSpool {
            at: 16386,
            got: None
        })
    );
    Ok(())
}
