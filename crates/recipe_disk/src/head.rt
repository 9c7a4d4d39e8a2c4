//! The layout of one slot: its head, and where its fields break.

ghost use Rattle.std.specs.Prelude.{◌≡◌, ◌+◌, ◌<◌, ◌≤◌, ◌^◌, None, IfSome, drop, length, slice_index};
ghost use Rattle.recipe_disk.specs.Reading.{HasLooked, SaysOf, look_answer};
ghost use Rattle.recipe_disk.specs.Slot.{fields_break as break_in, head_in, head_of as head_in_bytes, name_in, slot_place as place_of};
ghost use Rattle.recipe_disk.specs.Survey.{is_live as lives};

use crate::reading::DiskFailed;
use disk_base::{Disk, DiskAnswer};

/// The most bytes of a name.
pub const NAME_MOST: usize = 80;
/// The most bytes of a body.
pub const BODY_MOST: usize = 65_442;
/// Behind all numbers.
pub const NUMBERS: u64 = 1 << 63;
/// The gate of an open slot.
pub const OPEN: u8 = 0x5A;
/// A gate that is closed.
pub const CLOSED: u8 = 0;
/// Where the body stands in a slot.
pub const BODY: u64 = 94;

// Places in a slot.
const NUMBER: u64 = 1;

const NAME_LEN: u64 = 9;

const BODY_LEN: u64 = 90;

// How many bytes a head has, and a slot.
const HEAD_SIZE: usize = 94;

const SLOT_SIZE: u64 = 65_536;
// What stands in front of the slots.
const PAGE_SIZE: u64 = 4096;

/// What a slot says in front of its body.
#[derive(Clone, Copy, Debug)]
pub struct Head {
    /// Whether its gate is that of an open slot.
    pub opened: bool,
    pub number: u64,
    pub name_len: u8,
    /// The bytes of the name are the first ones of these.
    pub name: [u8; 80],
    pub body_len: u32,
}

/// Where a slot begins; by the number of slots, how many bytes a file takes.
pub fn slot_place(slot: u32) -> u64
    ensures { result ≡ place_of slot }
{
    PAGE_SIZE + SLOT_SIZE * slot as u64
}

// What the first bytes of a slot say.
fn head_of(start: &[u8; 94]) -> Head
    ensures { result ≡ head_in_bytes (slice_index start.now 0) (drop 1 start.now) }
{
    let mut name = [0; 80];
    name.copy_from_slice(&start[10..90]);
    Head {
        opened: start[0] == OPEN,
        number: u64::from_be_bytes([
            start[1], start[2], start[3], start[4], start[5], start[6], start[7], start[8],
        ]),
        name_len: start[9],
        name,
        body_len: u32::from_be_bytes([start[90], start[91], start[92], start[93]]),
    }
}

/// Reads the head of a slot.
pub fn read_head<D: Disk>(disk: &mut D, slot: u32) -> Result<Head, DiskFailed>
    requires { place_of (slot + 1) ≤ D.size_is disk.old }
    ensures head { SaysOf (D.told disk.old) (λ bytes head. head ≡ head_in bytes slot) result }
    ensures looked { HasLooked D.Disk disk.old disk.new (look_answer result) }
{
    let mut start = [0; HEAD_SIZE];
    match disk.read(slot_place(slot), &mut start) {
        DiskAnswer::Done => Ok(head_of(&start)),
        DiskAnswer::Failed => Err(DiskFailed),
    }
}

/// The name in a head.
pub fn name_of(head: &Head) -> &[u8]
    ensures name { result.now ≡ name_in head.now }
    ensures long { head.now.name_len ≤ 80 → length result.now ≡ head.now.name_len }
{
    &head.name[..NAME_MOST.min(head.name_len as usize)]
}

/// Where the fields of an open slot break, as a place in the slot.
pub fn fields_break(head: &Head) -> Option<u64>
    ensures place { result ≡ break_in head.now }
    ensures bound { IfSome result (λ place. place < 94) }
    ensures number { result ≡ None → head.now.number < 2 ^ 63 }
{
    if head.number >= NUMBERS {
        return Some(NUMBER);
    }
    if head.name_len == 0 {
        return Some(NAME_LEN);
    }
    if head.name_len as usize > NAME_MOST {
        return Some(NAME_LEN);
    }
    if head.body_len as usize > BODY_MOST {
        return Some(BODY_LEN);
    }
    None
}

/// Whether a slot is open, with fields in their ranges.
pub fn is_live(head: &Head) -> bool
    ensures { result ≡ lives head.now }
{
    head.opened && fields_break(head).is_none()
}
