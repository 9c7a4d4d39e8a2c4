//! How what is known of a device with a spool changes.

ghost use Rattle.std.specs.Prelude.{◌≡◌, ◌⊎◌, ◌+◌, ◌-◌, ◌^◌, ◌<◌, ◌≤◌, true, false};
ghost use Rattle.spool_file.specs.Sizes.{is_too_long as too_long};
ghost use Rattle.spool_slots.specs.Fitting.{FitsIn, SizeFits};
ghost use Rattle.spool_slots.specs.Spool.{first_size as first_size_of, message_size as message_size_of};

use spool_file::{Known, NUMBERS, body_most, is_too_long, slots_for};

/// How far a mark is moved on.
pub const MARK_STEP: u64 = 4096;

/// Whether a spool has room for a message.
#[derive(Clone, Copy, Debug)]
pub enum Fitting {
    /// It takes so many slots.
    Takes(u32),
    TooLong,
    Full,
    NumbersSpent,
}

/// With a message more at the end, which takes so many slots.
pub fn with_one_more(known: Known, size: u32) -> Known
    requires len { known.len < 65535 }
    requires next { known.next + size ≤ 2 ^ 63 }
    ensures { result ≡ record known { next = known.next + size; len = known.len + 1 } }
{
    Known {
        next: known.next + size as u64,
        len: known.len + 1,
        ..known
    }
}

/// With the mark moved on.
pub fn with_mark_moved(known: Known) -> Known
    requires { known.mark ≤ 2 ^ 32 }
    ensures { result ≡ record known { mark = known.mark + 4096 } }
{
    Known {
        mark: known.mark + MARK_STEP,
        ..known
    }
}

/// Without any message.
pub fn without_all(known: Known) -> Known
    ensures { result ≡ record known { first = known.next; len = 0 } }
{
    Known {
        first: known.next,
        len: 0,
        ..known
    }
}

/// Without the first message, which takes so many slots.
pub fn without_first(known: Known, size: u32) -> Known
    requires some { 0 < known.len }
    requires first { known.first + size ≤ known.next }
    ensures { result ≡ record known { first = known.first + size; len = known.len - 1 } }
{
    Known {
        first: known.first + size as u64,
        len: known.len - 1,
        ..known
    }
}

/// Of version 2.
pub fn upgraded(known: Known) -> Known
    ensures { result ≡ record known { version = 2 } }
{
    Known {
        version: 2,
        ..known
    }
}

/// How many slots the messages take.
pub fn used(known: Known) -> u32
    requires from { known.first ≤ known.next }
    requires room { known.next ≤ known.first + known.slots }
    ensures { result ≡ known.next - known.first }
{
    (known.next - known.first) as u32
}

/// How many slots the first message takes, by the length that was read in its slot. Where that can't be, since the disk
/// tells nothing, each other message is left a slot.
pub fn first_size(known: Known, len: u32) -> u32
    requires some { 0 < known.len }
    requires from { known.first + known.len ≤ known.next }
    requires room { known.next ≤ known.first + known.slots }
    ensures size { result ≡ first_size_of known len }
    ensures within { known.first + result + (known.len - 1) ≤ known.next }
    ensures last { known.len ≡ 1 → known.first + result ≡ known.next }
    ensures some { 1 ≤ result }
    ensures single { known.next ≡ known.first + known.len → result ≡ 1 }
{
    if known.len == 1 {
        return used(known);
    }
    slots_for(len).min(used(known) - (known.len - 1))
}

// Whether a body of so many bytes is too long for such a file.
fn is_long(version: u8, slots: u32, len: usize) -> bool
    ensures long { result ≡ too_long version slots len }
    ensures bound { result ≡ false → len ≤ 1048576 }
{
    if len > body_most(version) as usize {
        return true;
    }
    is_too_long(version, slots, len as u32)
}

/// How many slots a message with so many bytes takes, of a file of a version with so many slots. None where it is too
/// long for such a file.
pub fn message_size(version: u8, slots: u32, len: usize) -> Option<u32>
    ensures { result ≡ message_size_of version slots len }
{
    if is_long(version, slots, len) {
        return None;
    }
    Some(slots_for(len as u32))
}

// Whether there is room for one that takes so many slots, and numbers for it.
fn fit_size(known: Known, size: u32) -> Fitting
    requires first { known.first ≤ known.next }
    requires next { known.next ≤ 2 ^ 63 + 65535 }
    ensures { SizeFits known size result }
{
    let end = known.next + size as u64;
    if end > known.first + known.slots as u64 {
        return Fitting::Full;
    }
    if end > NUMBERS {
        return Fitting::NumbersSpent;
    }
    Fitting::Takes(size)
}

/// Whether there is room for a message with so many bytes: whether it is too long for such a file is asked first, then
/// whether slots are left for it, and last whether numbers are.
pub fn fit_of(known: Known, len: usize) -> Fitting
    requires first { known.first ≤ known.next }
    requires next { known.next ≤ 2 ^ 63 + 65535 }
    ensures { FitsIn known len result }
{
    match message_size(known.version, known.slots, len) {
        None => Fitting::TooLong,
        Some(size) => fit_size(known, size),
    }
}

/// Whether a number isn't one of those that the messages take.
pub fn is_out(known: Known, number: u64) -> bool
    ensures out { result ≡ true → (number < known.first) ⊎ (known.next ≤ number) }
    ensures within { result ≡ false → (known.first ≤ number) × (number < known.next) }
{
    if number < known.first {
        return true;
    }
    number >= known.next
}
