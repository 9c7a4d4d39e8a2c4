//! `spool_slots` and `gem_spool`: what each call of a put of several slots leaves where the disk stops at it, whatever
//! becomes of what isn't synced; also of one that finds stale gates, and of one that takes the place of two messages.

use crate::long_messages::{LONG, PAIR, put, without_area};
use crate::spool_list::{filled, leaves};
use disk_base::{CutChoice, MemDisk};
use gem_spool::{GemSpool, PutAnswer};
use spool_slots::{Spool, Stored};
use std::alloc::Global;
use std::test::Fail;

// What a list is: how many messages, from which number on.
type List = (u32, u64);

// What becomes of what isn't synced, and which list is left then: a letter for each call at which the disk stops, `a`
// for the first list, and one for the call behind the last.
type Word = (CutChoice, &'static [u8]);

// Of sixteen slots, a body of three: three looks, three parts, a sync, and the gate with its sync.
static NINE: [Word; 7] = [
    (CutChoice::Old, b"aaaaaaaaab"),
    (CutChoice::New, b"aaaaaaabbb"),
    (CutChoice::Fill(0x5A), b"aaaaaaabbb"),
    (CutChoice::Fill(0xA5), b"aaaaaaaaab"),
    (CutChoice::First(0), b"aaaaaaaaab"),
    (CutChoice::First(1), b"aaaaaaabbb"),
    (CutChoice::First(2), b"aaaaaaabbb"),
];

static PUT: [List; 2] = [(0, 0), (1, 0)];

// Of four slots, where four messages were cleared, the same: between looks and parts come three 00s and a sync.
static THIRTEEN: [Word; 7] = [
    (CutChoice::Old, b"aaaaaaaaaaaaab"),
    (CutChoice::New, b"aaaaaaaaaaabbb"),
    (CutChoice::Fill(0x5A), b"aaaaaaaaaaabbb"),
    (CutChoice::Fill(0xA5), b"aaaaaaaaaaaaab"),
    (CutChoice::First(0), b"aaaaaaaaaaaaab"),
    (CutChoice::First(1), b"aaaaaaaaaaabbb"),
    (CutChoice::First(2), b"aaaaaaaaaaabbb"),
];

static STALE: [List; 2] = [(0, 4), (1, 4)];

// Of three slots with three messages, a body of two: two of them leave, by three calls each, and then it is put, by
// seven.
static OVERWRITING: [Word; 7] = [
    (CutChoice::Old, b"aaabbbcccccccd"),
    (CutChoice::New, b"abbbcccccccddd"),
    (CutChoice::Fill(0x5A), b"aaabbbcccccddd"),
    (CutChoice::Fill(0xA5), b"abbbcccccccccd"),
    (CutChoice::First(0), b"aaabbbcccccccd"),
    (CutChoice::First(1), b"abbbcccccccddd"),
    (CutChoice::First(2), b"abbbcccccccddd"),
];

static OVERWRITTEN: [List; 4] = [(3, 1), (2, 2), (1, 3), (2, 3)];

#[derive(Clone, Copy, Debug, PartialEq, Eq)]
enum Work {
    Put,
    PutOverStale,
    Overwrite,
}

// A spool of four slots in which four messages were cleared, whose gates are open still.
fn cleared(alloc: Global) -> Option<Spool<MemDisk>> {
    let mut spool = without_area(alloc, 4)?;
    for _ in 0..4 {
        match put(spool, &[1, 0]) {
            Ok(more) => spool = more,
            Err(_) => return None,
        }
    }
    spool.clear().ok()
}

// Puts a body of three slots, and hands the disk back.
fn put_long(mut spool: Spool<MemDisk>, call: u32) -> MemDisk {
    spool.arm(call);
    match put(spool, &LONG) {
        Ok(spool) => spool.retire().into_disk(),
        Err(disk) => disk,
    }
}

// Takes the two oldest messages off, and puts a body of two slots.
fn overwrite(spool: GemSpool<MemDisk>) -> Result<(GemSpool<MemDisk>, bool), MemDisk> {
    let message = Stored {
        stream: 6,
        function: 11,
        body: &PAIR,
    };
    let (spool, first_left) = spool.confirm(1).map_err(|spent| spent.into_disk())?;
    let (spool, second_left) = spool.confirm(2).map_err(|spent| spent.into_disk())?;
    match spool.put(&message) {
        Ok((spool, answer)) => Ok((
            spool,
            first_left && second_left && answer == PutAnswer::Stored(4),
        )),
        Err(spent) => Err(spent.into_disk()),
    }
}

// The disk behind a work that stops at a call. None where it comes to something else.
fn stopped(alloc: Global, work: Work, call: u32) -> Option<MemDisk> {
    match work {
        Work::Put => Some(put_long(without_area(alloc, 16)?, call)),
        Work::PutOverStale => Some(put_long(cleared(alloc)?, call)),
        Work::Overwrite => {
            let mut spool = filled(alloc)?;
            spool.arm(call);
            match overwrite(spool) {
                Ok((spool, true)) => Some(spool.retire().into_disk()),
                Ok(_) => None,
                Err(disk) => Some(disk),
            }
        }
    }
}

// The first call that leaves something else than its letter says, counted from 1; or 0.
fn first_wrong(alloc: Global, work: Work, word: &Word, lists: &[List]) -> u32 {
    let mut call: u32 = 0;
    for letter in word.1 {
        call = call.saturating_add(1);
        let place = usize::from(letter.saturating_sub(b'a'));
        let is_so = match (lists.get(place), stopped(alloc, work, call)) {
            (Some(list), Some(disk)) => leaves(alloc, &disk, word.0, list.0, list.1),
            _ => false,
        };
        if !is_so {
            return call;
        }
    }
    0
}

#[test]
fn each_call_of_a_long_put_leaves_its_list(rt: HostRuntime) -> Result<(), Fail> {
    let alloc = rt.alloc();
    for word in &NINE {
        let wrong = first_wrong(alloc, Work::Put, word, &PUT);
        assert!(rt; wrong == 0, "{:?} {wrong}", word.0);
    }
    for word in &THIRTEEN {
        let wrong = first_wrong(alloc, Work::PutOverStale, word, &STALE);
        assert!(rt; wrong == 0, "{:?} {wrong}", word.0);
    }
    Ok(())
}

#[test]
fn each_call_of_an_overwriting_put_leaves_its_list(rt: HostRuntime) -> Result<(), Fail> {
    let alloc = rt.alloc();
    for word in &OVERWRITING {
        let wrong = first_wrong(alloc, Work::Overwrite, word, &OVERWRITTEN);
        assert!(rt; wrong == 0, "{:?} {wrong}", word.0);
    }
    Ok(())
}
