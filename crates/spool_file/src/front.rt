//! What stands in front of the slots, tested byte by byte: the name, the number of slots, the mark and the floor.

ghost use Rattle.std.specs.Prelude.{◌≡◌, ◌⊎◌, ℕ, ◌+◌, ◌<◌, ◌≤◌, List, Option, Some, IfSome, length, min};
ghost use Rattle.std.specs.List.{slice_get};
ghost use Rattle.disk_base.specs.SameDisk.{IsSameDisk};
ghost use Rattle.disk_base.specs.Story.{bytes_at};
ghost use Rattle.gate_cell.specs.Cell.{cell_in};
ghost use Rattle.spool_file.specs.Front.{cell_break as wrong_cell, front_in, magic_break as wrong_magic, unlike_at};
ghost use Rattle.spool_file.specs.Front.{version_of as version_in};
ghost use Rattle.spool_file.specs.Logs.{MakesAll};
ghost use Rattle.spool_file.specs.Reading.{FrontFits, FrontIs, FrontSays, reading_answer};
ghost use Rattle.spool_file.specs.Reads.{front_look};

use crate::reading::{NotSpool, Reading};
use crate::slot::Frame;
use crate::slots::slot_place;
use disk_base::{Disk, DiskAnswer};
use gate_cell::{counting_place, value_of};

/// The name at the start of a file of version 1. In one of version 2 its last byte says nothing.
pub const MAGIC: [u8; 8] = [0x47, 0x4C, 0x53, 0x50, 0x4F, 0x4F, 0x4C, 0x31];

const NAME: [u8; 7] = [0x47, 0x4C, 0x53, 0x50, 0x4F, 0x4F, 0x4C];

/// Where the gate of the version is: an odd one says version 2.
pub const VERSION_GATE: u64 = 46;

// How many bytes are tested in front of the slots.
const FRONT: usize = 47;

/// The most slots of a file.
pub const SLOTS_MOST: u32 = 65_535;

/// Where the cell of the mark begins.
pub const MARK_CELL: u64 = 12;

/// The highest mark.
pub const MARK_MOST: u64 = 1 << 32;

/// Where the cell of the floor begins.
pub const FLOOR_CELL: u64 = 29;

/// The highest floor, which leaves no number for a message.
pub const FLOOR_MOST: u64 = 1 << 63;

/// What stands in front of the slots.
#[derive(Clone, Copy, Debug)]
pub struct Front {
    pub frame: Frame,
    pub mark: u64,
}

// The place of the first byte that isn't as wanted, or isn't there.
fn unlike(wanted: &[u8], bytes: &[u8]) -> Option<usize>
    requires { length bytes.now ≤ 47 }
    ensures place { result ≡ unlike_at 0 wanted.now bytes.now }
    ensures bound { IfSome result (λ place. place < length wanted.now) }
{
    let (mut wanted, mut bytes, mut place) = (wanted, bytes, 0);
    while let [want, more @ ..] = wanted {
        let [byte, rest @ ..] = bytes else {
            return Some(place);
        };
        if want != byte {
            return Some(place);
        }
        wanted = more;
        bytes = rest;
        place += 1;
    }
    None
}

// The bytes of the cell that begins at a place.
fn cell_at(front: &[u8], at: u64) -> &[u8]
    requires { at + 17 ≤ length front.now }
    ensures bytes { result.now ≡ bytes_at front.now at 17 }
    ensures len { length result.now ≡ 17 }
{
    let at = at as usize;
    &front[at..at + 17]
}

// Where such a cell has a value above the most that it may have.
fn cell_break(front: &[u8], at: u64, most: u64) -> Option<usize>
    requires within { at + 17 ≤ length front.now }
    requires place { at ≤ 29 }
    ensures place { result ≡ wrong_cell at most (cell_in front.now at) }
    ensures bound { IfSome result (λ place. place < 47) }
{
    let cell = cell_at(front, at);
    if value_of(cell) > most {
        return Some((at + counting_place(cell)) as usize);
    }
    None
}

// The version that the front's bytes say: 1 where its gate is even, and 2 where the gate is odd or isn't there.
fn version_of(front: &[u8]) -> u8
    ensures version { result ≡ version_in front.now }
    ensures range { (result ≡ 1) ⊎ (result ≡ 2) }
{
    match front.get(46) {
        None => 2,
        Some(gate) => { if *gate % 2 == 1 { 2 } else { 1 } }
    }
}

// The first byte of the name of such files that isn't as it is to be, by their version.
#[tactic(auto, unfolding(crate::specs::Front::magic_break))]
fn magic_break(front: &[u8]) -> Option<usize>
    requires { length front.now ≤ 47 }
    ensures place { result ≡ wrong_magic front.now }
    ensures bound { IfSome result (λ place. place < 47) }
{
    if version_of(front) == 1 {
        unlike(&MAGIC, front)
    } else {
        unlike(&NAME, front)
    }
}

fn byte_at(bytes: &[u8], at: usize) -> Option<u8>
    ensures { result ≡ slice_get bytes.now at }
{
    bytes.get(at).copied()
}

// A break with the byte at its place, in the front.
fn break_at(front: &[u8], at: usize) -> NotSpool
    requires { at < 47 }
    ensures at { result.at ≡ at }
    ensures got { (bytes : List ℕ) → front.now ≡ front_in bytes → result.got ≡ slice_get bytes at }
{
    NotSpool {
        at: at as u64,
        got: byte_at(front, at),
    }
}

// A break at the end of a file.
fn end_break(size: u64) -> NotSpool
    ensures at { result.at ≡ size }
    ensures got { (bytes : List ℕ) → length bytes ≡ size → result.got ≡ slice_get bytes size }
{
    NotSpool {
        at: size,
        got: None,
    }
}

// What the front's bytes say.
#[tactic(auto, unfolding(crate::specs::Front::front_break))]
fn front_of(front: &[u8], size: u64) -> Reading<Front>
    requires { length front.now ≡ min 47 size }
    ensures front { FrontSays front.now size result }
    ensures fits { FrontFits size result }
{
    match magic_break(front) {
        Some(at) => return Reading::Broken(break_at(front, at)),
        None => {}
    }
    if size < 12 {
        return Reading::Broken(end_break(size));
    }
    let slots = u32::from_be_bytes([front[8], front[9], front[10], front[11]]);
    if slots == 0 {
        return Reading::Broken(break_at(front, 8));
    }
    if slots > SLOTS_MOST {
        return Reading::Broken(break_at(front, 8));
    }
    if size < slot_place(slots) {
        return Reading::Broken(end_break(size));
    }
    match cell_break(front, MARK_CELL, MARK_MOST) {
        Some(at) => return Reading::Broken(break_at(front, at)),
        None => {}
    }
    match cell_break(front, FLOOR_CELL, FLOOR_MOST) {
        Some(at) => return Reading::Broken(break_at(front, at)),
        None => {}
    }
    Reading::Whole(Front {
        frame: Frame {
            version: version_of(front),
            slots,
            floor: value_of(cell_at(front, FLOOR_CELL)),
        },
        mark: value_of(cell_at(front, MARK_CELL)),
    })
}

// Reads the front, which has so many bytes.
fn read_into<D: Disk>(disk: &mut D, size: u64, front: &mut [u8]) -> Reading<Front>
    requires size { size ≡ D.size_is disk.old }
    requires long { length front.old ≡ min 47 size }
    ensures front { FrontIs (D.told disk.old) result }
    ensures fits { FrontFits (D.size_is disk.old) result }
    ensures told { D.told disk.new ≡ D.told disk.old }
    ensures size { D.size_is disk.new ≡ D.size_is disk.old }
    ensures look { MakesAll (D.health disk.old) (D.health disk.new) (D.calls disk.old) (D.calls disk.new)
        (front_look size) (reading_answer result) }
    ensures same_disk { IsSameDisk D.Disk disk.old disk.new }
{
    match disk.read(0, front) {
        DiskAnswer::Failed => return Reading::Failed,
        DiskAnswer::Done => {}
    }
    front_of(front, size)
}

/// Reads the front.
pub fn read_front<D: Disk>(disk: &mut D) -> Reading<Front>
    ensures front { FrontIs (D.told disk.old) result }
    ensures fits { FrontFits (D.size_is disk.old) result }
    ensures told { D.told disk.new ≡ D.told disk.old }
    ensures size { D.size_is disk.new ≡ D.size_is disk.old }
    ensures look { MakesAll (D.health disk.old) (D.health disk.new) (D.calls disk.old) (D.calls disk.new)
        (front_look (D.size_is disk.old)) (reading_answer result) }
    ensures same_disk { IsSameDisk D.Disk disk.old disk.new }
{
    let size = disk.size();
    let mut bytes = [0; FRONT];
    let known = size.min(FRONT as u64) as usize;
    read_into(disk, size, &mut bytes[..known])
}
