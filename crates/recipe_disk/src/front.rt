//! What stands in front of the slots, tested byte by byte: the name of such files, and how many slots there are.

ghost use Rattle.std.specs.Prelude.{◌≡◌, ℕ, ◌+◌, ◌<◌, ◌≤◌, List, Option, Some, IfSome, length, min};
ghost use Rattle.std.specs.List.{slice_get};
ghost use Rattle.spool_file.specs.Front.{unlike_at};
ghost use Rattle.recipe_disk.specs.File.{front_break, front_in, magic_break as wrong_magic, slots_in};
ghost use Rattle.recipe_disk.specs.Reading.{Finds, FrontFits, FrontSays, HasLooked, reading_answer};

use crate::head::slot_place;
use crate::reading::Reading;
use disk_base::{Disk, DiskAnswer};
use spool_file::NotSpool;

/// The name at the start of such files.
pub const MAGIC: [u8; 8] = [0x47, 0x4C, 0x52, 0x45, 0x43, 0x49, 0x50, 0x31];

// The fewest slots and the most.
const SLOTS_LEAST: u32 = 2;

const SLOTS_MOST: u32 = 4096;

// The place of the first byte that isn't as wanted, or isn't there.
fn unlike(wanted: &[u8], bytes: &[u8]) -> Option<usize>
    requires { length bytes.now ≤ 12 }
    ensures place { result ≡ unlike_at 0 wanted.now bytes.now }
    ensures bound { IfSome result (λ place. place < length wanted.now) }
{
    let (mut wanted, mut bytes, mut place) = (wanted, bytes, 0);
    while let [want, more @ ..] = wanted {
        let [byte, rest @ ..] = bytes else {
            return Some(place);
        };
        if want != byte {
            return Some(place);
        }
        wanted = more;
        bytes = rest;
        place += 1;
    }
    None
}

// The first byte of the name of such files that isn't as it is to be.
#[tactic(auto, unfolding(crate::specs::File::magic_break))]
fn magic_break(front: &[u8]) -> Option<usize>
    requires { length front.now ≤ 12 }
    ensures place { result ≡ wrong_magic front.now }
    ensures bound { IfSome result (λ place. place < 12) }
{
    unlike(&MAGIC, front)
}

fn byte_at(bytes: &[u8], at: usize) -> Option<u8>
    ensures { result ≡ slice_get bytes.now at }
{
    bytes.get(at).copied()
}

// A break with the byte at its place, in the front.
fn break_at(front: &[u8], at: usize) -> NotSpool
    requires { at < 12 }
    ensures at { result.at ≡ at }
    ensures got { (bytes : List ℕ) → front.now ≡ front_in bytes → result.got ≡ slice_get bytes at }
{
    NotSpool {
        at: at as u64,
        got: byte_at(front, at),
    }
}

// A break at the end of a file.
fn end_break(size: u64) -> NotSpool
    ensures at { result.at ≡ size }
    ensures got { (bytes : List ℕ) → length bytes ≡ size → result.got ≡ slice_get bytes size }
{
    NotSpool {
        at: size,
        got: None,
    }
}

// How many slots a front names, of a file of this size.
#[tactic(auto, unfolding(crate::specs::File::front_break))]
fn slots_of(front: &[u8], size: u64) -> Reading<u32>
    requires { length front.now ≡ min 12 size }
    ensures front { FrontSays front.now size result }
    ensures fits { FrontFits size result }
{
    match magic_break(front) {
        Some(at) => return Reading::Broken(break_at(front, at)),
        None => {}
    }
    if size < 12 {
        return Reading::Broken(end_break(size));
    }
    let slots = u32::from_be_bytes([front[8], front[9], front[10], front[11]]);
    if slots < SLOTS_LEAST {
        return Reading::Broken(break_at(front, 8));
    }
    if slots > SLOTS_MOST {
        return Reading::Broken(break_at(front, 8));
    }
    if size < slot_place(slots) {
        return Reading::Broken(end_break(size));
    }
    Reading::Whole(slots)
}

// Reads the front, which has so many bytes.
fn read_into<D: Disk>(disk: &mut D, size: u64, front: &mut [u8]) -> Reading<u32>
    requires size { size ≡ D.size_is disk.old }
    requires long { length front.old ≡ min 12 size }
    ensures slots { Finds (D.told disk.old) (λ bytes. front_break (front_in bytes) (length bytes))
        (λ bytes slots. slots ≡ slots_in bytes) result }
    ensures fits { FrontFits (D.size_is disk.old) result }
    ensures looked { HasLooked D.Disk disk.old disk.new (reading_answer result) }
{
    match disk.read(0, front) {
        DiskAnswer::Failed => return Reading::Failed,
        DiskAnswer::Done => {}
    }
    slots_of(front, size)
}

/// Reads how many slots there are.
pub fn read_front<D: Disk>(disk: &mut D) -> Reading<u32>
    ensures slots { Finds (D.told disk.old) (λ bytes. front_break (front_in bytes) (length bytes))
        (λ bytes slots. slots ≡ slots_in bytes) result }
    ensures fits { FrontFits (D.size_is disk.old) result }
    ensures looked { HasLooked D.Disk disk.old disk.new (reading_answer result) }
{
    let size = disk.size();
    let mut bytes = [0; 12];
    let known = size.min(12) as usize;
    read_into(disk, size, &mut bytes[..known])
}
