//! The layout of one slot, and where its fields break.

ghost use Rattle.std.specs.Prelude.{◌≡◌, ◌+◌, ◌<◌, ◌≤◌, ◌^◌, ◌%◌, None, IfSome, drop};
ghost use Rattle.disk_base.specs.Story.{bytes_at};
ghost use Rattle.spool_file.specs.Sizes.{slots_for as slots_of};
ghost use Rattle.spool_file.specs.Slot.{head_break as break_in, head_of};
ghost use Rattle.spool_file.specs.Reading.{most_slots};

use crate::sizes::{is_too_long, slots_for};

/// What the tests of the slots go by: the version of the file, 1 or 2, how many slots there are, and the floor, below
/// which no message has its number.
#[derive(Clone, Copy, Debug, PartialEq, Eq)]
pub struct Frame {
    pub version: u8,
    pub slots: u32,
    pub floor: u64,
}

/// The fields of a message in a slot.
#[derive(Clone, Copy, Debug, PartialEq, Eq)]
pub struct SlotHead {
    pub number: u64,
    pub stream: u8,
    pub function: u8,
    /// How many bytes the body has.
    pub len: u32,
}

/// How many bytes a slot has, and what stands before the first one.
pub const SLOT_SIZE: usize = 4096;
/// The gate of an open slot.
pub const OPEN: u8 = 0x5A;
/// A gate that is closed.
pub const CLOSED: u8 = 0;
/// Behind all numbers.
pub const NUMBERS: u64 = 1 << 63;

// Places in a slot.
pub const NUMBER: usize = 1;

const FUNCTION: usize = 10;

pub const LEN: usize = 11;

/// The slot of a number.
pub fn slot_of(number: u64, slots: u32) -> u32
    requires { 0 < slots }
    ensures slot { result ≡ number % slots }
    ensures bound { result < slots }
{
    (number % slots as u64) as u32
}

/// What the first fifteen bytes of a slot say, its gate left aside.
pub fn head(start: &[u8; 15]) -> SlotHead
    ensures { result ≡ head_of (drop 1 start.now) }
{
    SlotHead {
        number: u64::from_be_bytes([
            start[1], start[2], start[3], start[4], start[5], start[6], start[7], start[8],
        ]),
        stream: start[9] % 128,
        function: start[10],
        len: u32::from_be_bytes([start[11], start[12], start[13], start[14]]),
    }
}

/// What the bytes of a slot say, its gate left aside.
pub fn head_in(bytes: &[u8; SLOT_SIZE]) -> SlotHead
    ensures { result ≡ head_of (bytes_at bytes.now 1 14) }
{
    SlotHead {
        number: u64::from_be_bytes([
            bytes[1], bytes[2], bytes[3], bytes[4], bytes[5], bytes[6], bytes[7], bytes[8],
        ]),
        stream: bytes[9] % 128,
        function: bytes[10],
        len: u32::from_be_bytes([bytes[11], bytes[12], bytes[13], bytes[14]]),
    }
}

/// Where the fields of a slot that stands break.
pub fn head_break(frame: Frame, slot: u32, head: SlotHead) -> Option<usize>
    requires { 0 < frame.slots }
    ensures place { result ≡ break_in frame slot head }
    ensures bound { IfSome result (λ place. place < 15) }
    ensures number { result ≡ None → head.number + slots_of head.len ≤ 2 ^ 63 }
    ensures size { result ≡ None → slots_of head.len ≤ most_slots frame.version }
{
    if is_too_long(frame.version, frame.slots, head.len) {
        return Some(LEN);
    }
    if head.number % frame.slots as u64 != slot as u64 {
        return Some(NUMBER);
    }
    if head.number > NUMBERS - slots_for(head.len) as u64 {
        return Some(NUMBER);
    }
    if head.function % 2 == 0 {
        return Some(FUNCTION);
    }
    None
}
