//! The slots on the disk: where they are, which hold a message, and whether the fields and numbers of these are a
//! list's.

ghost use Rattle.std.specs.Prelude.{◌≡◌, ℕ, ◌+◌, ◌*◌, ◌<◌, ◌≤◌, ◌^◌, ◌%◌, true, List, Option, Some, None, IfSome, drop};
ghost use Rattle.std.specs.List.{slice_get};
ghost use Rattle.disk_base.specs.SameDisk.{IsSameDisk};
ghost use Rattle.disk_base.specs.Story.{Story, bytes_at};
ghost use Rattle.spool_file.specs.Area.{first_at};
ghost use Rattle.spool_file.specs.Breaks.{ahead_break, area_break, fields_break};
ghost use Rattle.spool_file.specs.Logs.{MakesAll};
ghost use Rattle.spool_file.specs.Reading.{AreaFits, AreaIs, HasRoom, IsFrame, ScanFits, ScanIs, ScansOn, StartIs};
ghost use Rattle.spool_file.specs.Reading.{TestIs, counted_in, least_with as least_of, most_slots, reading_answer};
ghost use Rattle.spool_file.specs.Reading.{slot_from};
ghost use Rattle.spool_file.specs.Reads.{HasRead, slots_looks, start_look, start_looks};
ghost use Rattle.spool_file.specs.Sizes.{slots_for as slots_of};
ghost use Rattle.spool_file.specs.Slot.{head_of, in_slot, slot_break, slot_in, slot_place as place_of, stands_on};

use crate::chain::check_chain;
use crate::reading::{NotSpool, Reading};
use crate::sizes::slots_for;
use crate::slot::{Frame, LEN, NUMBER, OPEN, SLOT_SIZE, head, head_break, slot_of};
use disk_base::{Disk, DiskAnswer};

/// The slots that stand so far: how many there are, their least number or else the floor, their greatest one or else
/// 0, and how many slots their messages take.
#[derive(Clone, Copy, Debug)]
pub struct Scan {
    pub count: u32,
    pub least: u64,
    pub greatest: u64,
    pub used: u32,
}

/// Where a slot begins; by the number of slots, how many bytes a file takes.
pub fn slot_place(slot: u32) -> u64
    ensures { result ≡ place_of slot }
{
    SLOT_SIZE as u64 * (slot as u64 + 1)
}

/// Reads the first fifteen bytes of a slot.
pub fn read_start<D: Disk>(disk: &mut D, slot: u32, start: &mut [u8; 15]) -> DiskAnswer
    requires { place_of (slot + 1) ≤ D.size_is disk.old }
    ensures start { StartIs (D.told disk.old) slot start.new result }
    ensures told { D.told disk.new ≡ D.told disk.old }
    ensures size { D.size_is disk.new ≡ D.size_is disk.old }
    ensures look { MakesAll (D.health disk.old) (D.health disk.new) (D.calls disk.old) (D.calls disk.new)
        (start_look slot) result }
    ensures same_disk { IsSameDisk D.Disk disk.old disk.new }
{
    disk.read(slot_place(slot), start)
}

// The least number with one more.
fn least_with(scan: Scan, number: u64) -> u64
    ensures { result ≡ least_of scan.count scan.least number }
{
    if scan.count == 0 {
        return number;
    }
    if number < scan.least {
        return number;
    }
    scan.least
}

/// Whether a slot that starts so stands.
pub fn stands(floor: u64, start: &[u8; 15]) -> bool
    ensures { result ≡ stands_on floor (slot_from start.now) }
{
    if start[0] != OPEN {
        return false;
    }
    floor <= head(start).number
}

// Counts a slot if it stands.
fn counted(floor: u64, scan: Scan, start: &[u8; 15]) -> Scan
    requires count { scan.count < 65535 }
    requires used { scan.used ≤ 257 * 65535 }
    requires size { stands_on floor (slot_from start.now) ≡ true → slots_of (head_of (drop 1 start.now)).len ≤ 257 }
    ensures { result ≡ counted_in floor scan (slot_from start.now) }
{
    if !stands(floor, start) {
        return scan;
    }
    let head = head(start);
    Scan {
        count: scan.count + 1,
        least: least_with(scan, head.number),
        greatest: scan.greatest.max(head.number),
        used: scan.used + slots_for(head.len),
    }
}

// Where a slot that starts so breaks.
fn start_break(frame: Frame, slot: u32, start: &[u8; 15]) -> Option<usize>
    requires { 0 < frame.slots }
    ensures place { result ≡ slot_break frame slot (slot_from start.now) }
    ensures bound { IfSome result (λ place. place < 15) }
    ensures size { result ≡ None → stands_on frame.floor (slot_from start.now) ≡ true →
        slots_of (head_of (drop 1 start.now)).len ≤ most_slots frame.version }
    ensures number { result ≡ None → stands_on frame.floor (slot_from start.now) ≡ true →
        (head_of (drop 1 start.now)).number ≤ 2 ^ 63 }
{
    if !stands(frame.floor, start) {
        return None;
    }
    head_break(frame, slot, head(start))
}

/// A break with the byte at its place, in the start of a slot.
pub fn break_in(slot: u32, place: usize, start: &[u8; 15]) -> NotSpool
    requires { place < 15 }
    ensures at { result.at ≡ place_of slot + place }
    ensures got { (bytes : List ℕ) → start.now ≡ bytes_at bytes (place_of slot) 15 →
        result.got ≡ slice_get bytes (place_of slot + place) }
{
    NotSpool {
        at: slot_place(slot) + place as u64,
        got: Some(start[place]),
    }
}

// Tests the fields of a slot, and counts it if it stands.
fn scan_slot<D: Disk>(disk: &mut D, frame: Frame, slot: u32, scan: Scan) -> Reading<Scan>
    requires size { place_of (slot + 1) ≤ D.size_is disk.old }
    requires slot { slot < frame.slots }
    requires frame { IsFrame frame }
    requires room { HasRoom frame.version slot scan }
    ensures scan { ScansOn frame slot scan (D.told disk.old) result }
    ensures fits { ScanFits frame.version (slot + 1) result }
    ensures told { D.told disk.new ≡ D.told disk.old }
    ensures size { D.size_is disk.new ≡ D.size_is disk.old }
    ensures look { MakesAll (D.health disk.old) (D.health disk.new) (D.calls disk.old) (D.calls disk.new)
        (start_look slot) (reading_answer result) }
    ensures same_disk { IsSameDisk D.Disk disk.old disk.new }
{
    let mut start = [0; 15];
    match read_start(disk, slot, &mut start) {
        DiskAnswer::Failed => return Reading::Failed,
        DiskAnswer::Done => {}
    }
    match start_break(frame, slot, &start) {
        Some(place) => Reading::Broken(break_in(slot, place, &start)),
        None => Reading::Whole(counted(frame.floor, scan, &start)),
    }
}

/// Tests the fields of the slots, and counts those that stand.
pub fn scan_slots<D: Disk>(disk: &mut D, frame: Frame) -> Reading<Scan>
    requires size { place_of frame.slots ≤ D.size_is disk.old }
    requires frame { IsFrame frame }
    ensures scan { ScanIs frame (D.told disk.old) result }
    ensures fits { ScanFits frame.version frame.slots result }
    ensures told { D.told disk.new ≡ D.told disk.old }
    ensures size { D.size_is disk.new ≡ D.size_is disk.old }
    ensures reads { HasRead (D.health disk.old) (D.health disk.new) (D.calls disk.old) (D.calls disk.new) frame.slots
        (reading_answer result) }
    ensures exact { (s : Story) → D.told disk.old ≡ Some s → fields_break frame (slot_in s.now.bytes) ≡ None →
        MakesAll (D.health disk.old) (D.health disk.new) (D.calls disk.old) (D.calls disk.new)
        (start_looks frame.slots) (reading_answer result) }
    ensures same_disk { IsSameDisk D.Disk disk.old disk.new }
{
    let mut scan = Scan {
        count: 0,
        least: frame.floor,
        greatest: 0,
        used: 0,
    };
    for slot in 0..frame.slots {
        match scan_slot(disk, frame, slot, scan) {
            Reading::Whole(next) => scan = next,
            Reading::Broken(not_spool) => return Reading::Broken(not_spool),
            Reading::Failed => return Reading::Failed,
        }
    }
    Reading::Whole(scan)
}

// Where a slot that starts so has a number at or behind an end.
fn start_ahead(floor: u64, end: u64, start: &[u8; 15]) -> Option<usize>
    ensures place { result ≡ ahead_break floor end (slot_from start.now) }
    ensures bound { IfSome result (λ place. place < 15) }
{
    if !stands(floor, start) {
        return None;
    }
    if head(start).number < end {
        return None;
    }
    Some(NUMBER)
}

// Tests the number of a slot if it stands.
fn check_slot<D: Disk>(disk: &mut D, floor: u64, slot: u32, end: u64) -> Reading<()>
    requires size { place_of (slot + 1) ≤ D.size_is disk.old }
    ensures end { TestIs (λ slots. in_slot slot (ahead_break floor end (slots slot))) (D.told disk.old) result }
    ensures told { D.told disk.new ≡ D.told disk.old }
    ensures size { D.size_is disk.new ≡ D.size_is disk.old }
    ensures look { MakesAll (D.health disk.old) (D.health disk.new) (D.calls disk.old) (D.calls disk.new)
        (start_look slot) (reading_answer result) }
    ensures same_disk { IsSameDisk D.Disk disk.old disk.new }
{
    let mut start = [0; 15];
    match read_start(disk, slot, &mut start) {
        DiskAnswer::Failed => return Reading::Failed,
        DiskAnswer::Done => {}
    }
    match start_ahead(floor, end, &start) {
        Some(place) => Reading::Broken(break_in(slot, place, &start)),
        None => Reading::Whole(()),
    }
}

// Tests the numbers of the slots that stand.
fn check_slots<D: Disk>(disk: &mut D, floor: u64, slots: u32, end: u64) -> Reading<()>
    requires size { place_of slots ≤ D.size_is disk.old }
    requires slots { slots ≤ 65535 }
    ensures end { TestIs (λ slot. first_at (λ k. in_slot k (ahead_break floor end (slot k))) slots)
        (D.told disk.old) result }
    ensures told { D.told disk.new ≡ D.told disk.old }
    ensures size { D.size_is disk.new ≡ D.size_is disk.old }
    ensures reads { HasRead (D.health disk.old) (D.health disk.new) (D.calls disk.old) (D.calls disk.new) slots
        (reading_answer result) }
    ensures same_disk { IsSameDisk D.Disk disk.old disk.new }
{
    for slot in 0..slots {
        match check_slot(disk, floor, slot, end) {
            Reading::Whole(()) => {}
            Reading::Broken(not_spool) => return Reading::Broken(not_spool),
            Reading::Failed => return Reading::Failed,
        }
    }
    Reading::Whole(())
}

/// Tests the slots of a file of version 1, and counts those that stand. They are read once where the numbers of these
/// have no gap.
pub fn read_even<D: Disk>(disk: &mut D, frame: Frame) -> Reading<Scan>
    requires size { place_of frame.slots ≤ D.size_is disk.old }
    requires frame { IsFrame frame }
    requires version { frame.version ≡ 1 }
    ensures area { AreaIs frame (D.told disk.old) result }
    ensures fits { AreaFits frame result }
    ensures told { D.told disk.new ≡ D.told disk.old }
    ensures size { D.size_is disk.new ≡ D.size_is disk.old }
    ensures reads { HasRead (D.health disk.old) (D.health disk.new) (D.calls disk.old) (D.calls disk.new)
        (2 * frame.slots) (reading_answer result) }
    ensures exact { (s : Story) → D.told disk.old ≡ Some s → area_break frame (slot_in s.now.bytes) ≡ None →
        MakesAll (D.health disk.old) (D.health disk.new) (D.calls disk.old) (D.calls disk.new)
        (start_looks frame.slots) (reading_answer result) }
    ensures same_disk { IsSameDisk D.Disk disk.old disk.new }
{
    match scan_slots(disk, frame) {
        Reading::Whole(scan) => {
            if scan.count == 0 {
                return Reading::Whole(scan);
            }
            let end = scan.least + scan.count as u64;
            if scan.greatest < end {
                return Reading::Whole(scan);
            }
            match check_slots(disk, frame.floor, frame.slots, end) {
                Reading::Whole(()) => Reading::Whole(scan),
                Reading::Broken(not_spool) => Reading::Broken(not_spool),
                Reading::Failed => Reading::Failed,
            }
        }
        Reading::Broken(not_spool) => Reading::Broken(not_spool),
        Reading::Failed => Reading::Failed,
    }
}

// Of slots whose messages take more slots than there are, the length of the last one: a byte that no good length has.
fn sum_break(slots: u32, scan: Scan) -> NotSpool
    requires { 0 < slots }
    ensures at { result.at ≡ place_of (scan.greatest % slots) + 11 }
    ensures got { result.got ≡ Some 0 }
{
    NotSpool {
        at: slot_place(slot_of(scan.greatest, slots)) + LEN as u64,
        got: Some(0),
    }
}

/// Tests the slots of a file of version 2, and counts those that stand: first their fields, then whether each message
/// follows another, in a second pass over all of them, and last how many slots they take.
pub fn read_chain<D: Disk>(disk: &mut D, frame: Frame) -> Reading<Scan>
    requires size { place_of frame.slots ≤ D.size_is disk.old }
    requires frame { IsFrame frame }
    requires version { frame.version ≡ 2 }
    ensures area { AreaIs frame (D.told disk.old) result }
    ensures fits { AreaFits frame result }
    ensures told { D.told disk.new ≡ D.told disk.old }
    ensures size { D.size_is disk.new ≡ D.size_is disk.old }
    ensures reads { HasRead (D.health disk.old) (D.health disk.new) (D.calls disk.old) (D.calls disk.new)
        (3 * frame.slots) (reading_answer result) }
    ensures exact { (s : Story) → D.told disk.old ≡ Some s → area_break frame (slot_in s.now.bytes) ≡ None →
        MakesAll (D.health disk.old) (D.health disk.new) (D.calls disk.old) (D.calls disk.new)
        (slots_looks 2 frame.slots) (reading_answer result) }
    ensures same_disk { IsSameDisk D.Disk disk.old disk.new }
{
    match scan_slots(disk, frame) {
        Reading::Whole(scan) => match check_chain(disk, frame, scan.least) {
            Reading::Whole(()) => {
                if scan.used > frame.slots {
                    return Reading::Broken(sum_break(frame.slots, scan));
                }
                Reading::Whole(scan)
            }
            Reading::Broken(not_spool) => Reading::Broken(not_spool),
            Reading::Failed => Reading::Failed,
        },
        Reading::Broken(not_spool) => Reading::Broken(not_spool),
        Reading::Failed => Reading::Failed,
    }
}

/// Tests the slots by the version of their file, and counts those that stand.
pub fn read_slots<D: Disk>(disk: &mut D, frame: Frame) -> Reading<Scan>
    requires size { place_of frame.slots ≤ D.size_is disk.old }
    requires frame { IsFrame frame }
    ensures area { AreaIs frame (D.told disk.old) result }
    ensures fits { AreaFits frame result }
    ensures told { D.told disk.new ≡ D.told disk.old }
    ensures size { D.size_is disk.new ≡ D.size_is disk.old }
    ensures reads { HasRead (D.health disk.old) (D.health disk.new) (D.calls disk.old) (D.calls disk.new)
        (3 * frame.slots) (reading_answer result) }
    ensures exact { (s : Story) → D.told disk.old ≡ Some s → area_break frame (slot_in s.now.bytes) ≡ None →
        MakesAll (D.health disk.old) (D.health disk.new) (D.calls disk.old) (D.calls disk.new)
        (slots_looks frame.version frame.slots) (reading_answer result) }
    ensures same_disk { IsSameDisk D.Disk disk.old disk.new }
{
    if frame.version == 1 {
        read_even(disk, frame)
    } else {
        read_chain(disk, frame)
    }
}
