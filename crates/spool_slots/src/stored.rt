//! A message on its way into a slot, and the bytes that it is there.

ghost use Rattle.std.specs.Prelude.{◌≡◌, ◌<◌, ◌≤◌, length, take};
ghost use Rattle.spool_slots.specs.Calls.{parts_of as bytes_of};

use arrayvec::ArrayVec;
use spool_file::AREA;

/// A message that is to be stored.
#[derive(Clone, Copy, Debug)]
pub struct Stored<'a> {
    pub stream: u8,
    pub function: u8,
    pub body: &'a [u8],
}

/// What stands in the first slot of a message behind its gate.
pub type Parts = ArrayVec<u8, 4095>;

/// What a slot has room for of some bytes.
pub fn front_of(bytes: &[u8]) -> &[u8]
    ensures front { result.now ≡ take 4081 bytes.now }
    ensures len { length result.now ≤ 4081 }
{
    bytes.split_at((AREA as usize).min(bytes.len())).0
}

/// The bytes of a message's parts: its fields, and what its first slot has room for of its body.
pub fn parts_of(number: u64, message: &Stored<'_>) -> Parts
    requires stream { message.now.stream < 128 }
    requires body { length message.now.body.now ≤ 1048576 }
    ensures { result.items ≡ bytes_of number message.now.stream message.now.function message.now.body.now }
{
    let mut parts = Parts::new();
    parts.try_extend_from_slice(&number.to_be_bytes()).unwrap();
    parts.push(128 + message.stream);
    parts.push(message.function);
    let len = message.body.len() as u32;
    parts.try_extend_from_slice(&len.to_be_bytes()).unwrap();
    parts.try_extend_from_slice(front_of(message.body)).unwrap();
    parts
}
