//! Whether each message of a file of version 2 follows another: a second pass over the slots, with a window over the
//! last ones. In the order of the slots no message takes more than the window has.

ghost use Rattle.std.specs.Prelude.{◌≡◌, ◌+◌, ◌<◌, ◌≤◌, ◌%◌, Some, None, IfSome, set};
ghost use Rattle.disk_base.specs.SameDisk.{IsSameDisk};
ghost use Rattle.disk_base.specs.Story.{Story};
ghost use Rattle.spool_file.specs.Area.{first_of};
ghost use Rattle.spool_file.specs.Breaks.{chain_break, fields_break, list_below};
ghost use Rattle.spool_file.specs.Chain.{LeadIs, is_led as is_led_in, lead_of, lone_by};
ghost use Rattle.spool_file.specs.Logs.{MakesAll};
ghost use Rattle.spool_file.specs.Reading.{IsFrame, TestIs, reading_answer, slot_from};
ghost use Rattle.spool_file.specs.Reads.{HasRead, look_back as back_of, looks_at, slot_behind as behind, start_look};
ghost use Rattle.spool_file.specs.Slot.{slot_in, slot_place as place_of};

use crate::reading::Reading;
use crate::sizes::slots_for;
use crate::slot::{Frame, NUMBER, head};
use crate::slots::{break_in, read_start, stands};
use disk_base::{Disk, DiskAnswer};

// The most slots of a message, and so the most by which the slot can lie behind that its message follows.
const WINDOW: usize = 257;

// The numbers behind the messages of the last slots, in turn: of one that doesn't stand, a number that no message has.
type Window = [u64; WINDOW];

// The number behind the message of a slot that starts so.
fn lead(floor: u64, start: &[u8; 15]) -> u64
    ensures { result ≡ lead_of floor (slot_from start.now) }
{
    if !stands(floor, start) {
        return u64::MAX;
    }
    let head = head(start);
    head.number.saturating_add(slots_for(head.len) as u64)
}

// Whether one of the last messages leads to a number.
fn is_led(window: &Window, number: u64) -> bool
    ensures { result ≡ is_led_in window.now number }
{
    window.iter().any(|lead| *lead == number)
}

// Where a slot that starts so follows none of the last ones.
fn start_lone(floor: u64, least: u64, window: &Window, start: &[u8; 15]) -> Option<usize>
    ensures place { result ≡ lone_by floor least window.now (slot_from start.now) }
    ensures bound { IfSome result (λ place. place < 15) }
{
    if !stands(floor, start) {
        return None;
    }
    let number = head(start).number;
    if number == least {
        return None;
    }
    if is_led(window, number) {
        return None;
    }
    Some(NUMBER)
}

// The slot that is read at a place of the pass.
fn slot_behind(slots: u32, place: u32) -> u32
    requires slots { slots ≤ 65535 }
    requires some { 1 ≤ slots }
    requires place { place < slots + back_of slots }
    ensures slot { result ≡ behind slots place }
    ensures bound { result < slots }
{
    (place + (slots - slots.min(WINDOW as u32))) % slots
}

// Reads a slot for what it says of the message behind it, and tests it where it is its turn.
fn check_lead<D: Disk>(
    disk: &mut D,
    floor: u64,
    least: u64,
    slot: u32,
    tested: bool,
    window: &Window,
) -> Reading<u64>
    requires size { place_of (slot + 1) ≤ D.size_is disk.old }
    ensures lead { LeadIs floor least slot tested window.now (D.told disk.old) result }
    ensures told { D.told disk.new ≡ D.told disk.old }
    ensures size { D.size_is disk.new ≡ D.size_is disk.old }
    ensures look { MakesAll (D.health disk.old) (D.health disk.new) (D.calls disk.old) (D.calls disk.new)
        (start_look slot) (reading_answer result) }
    ensures same_disk { IsSameDisk D.Disk disk.old disk.new }
{
    let mut start = [0; 15];
    match read_start(disk, slot, &mut start) {
        DiskAnswer::Failed => return Reading::Failed,
        DiskAnswer::Done => {}
    }
    if !tested {
        return Reading::Whole(lead(floor, &start));
    }
    match start_lone(floor, least, window, &start) {
        Some(place) => Reading::Broken(break_in(slot, place, &start)),
        None => Reading::Whole(lead(floor, &start)),
    }
}

// Notes what the slot at a place says of the message behind it.
fn note_lead(window: &mut Window, place: u32, lead: u64)
    ensures { window.new ≡ set window.old (place % 257) lead }
{
    window[place as usize % WINDOW] = lead;
}

/// Tests whether each message follows another, or has the least number.
pub fn check_chain<D: Disk>(disk: &mut D, frame: Frame, least: u64) -> Reading<()>
    requires size { place_of frame.slots ≤ D.size_is disk.old }
    requires frame { IsFrame frame }
    requires told { (s : Story) → D.told disk.old ≡ Some s →
        (fields_break frame (slot_in s.now.bytes) ≡ None)
        × (least ≡ first_of frame.floor (list_below frame (slot_in s.now.bytes) frame.slots)) }
    ensures chain { TestIs (chain_break frame) (D.told disk.old) result }
    ensures told { D.told disk.new ≡ D.told disk.old }
    ensures size { D.size_is disk.new ≡ D.size_is disk.old }
    ensures reads { HasRead (D.health disk.old) (D.health disk.new) (D.calls disk.old) (D.calls disk.new)
        (frame.slots + back_of frame.slots) (reading_answer result) }
    ensures exact { (s : Story) → D.told disk.old ≡ Some s → chain_break frame (slot_in s.now.bytes) ≡ None →
        MakesAll (D.health disk.old) (D.health disk.new) (D.calls disk.old) (D.calls disk.new)
        (looks_at (behind frame.slots) (frame.slots + back_of frame.slots)) (reading_answer result) }
    ensures same_disk { IsSameDisk D.Disk disk.old disk.new }
{
    let back = frame.slots.min(WINDOW as u32);
    let mut window = [u64::MAX; WINDOW];
    for place in 0..frame.slots + back {
        let slot = slot_behind(frame.slots, place);
        match check_lead(disk, frame.floor, least, slot, place >= back, &window) {
            Reading::Whole(lead) => note_lead(&mut window, place, lead),
            Reading::Broken(not_spool) => return Reading::Broken(not_spool),
            Reading::Failed => return Reading::Failed,
        }
    }
    Reading::Whole(())
}
