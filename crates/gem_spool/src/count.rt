//! Whether there is room for a message, by numbers alone, so that who decides ahead of the disk decides as the spool
//! does.

ghost use Rattle.std.specs.Prelude.{◌≡◌, Some};
ghost use Rattle.gem_spool.specs.Spool.{room_by, room_in};

use crate::spool::Room;
use spool_file::NUMBERS;
use spool_slots::message_size;

/// What decides whether there is room, without the disk. Who decides on more than one change keeps one of his own.
#[derive(Clone, Copy, Debug, PartialEq, Eq)]
pub struct Count {
    /// The version of the file, 1 or 2.
    pub version: u8,
    /// How many slots there are.
    pub slots: u32,
    /// The number that the next message gets.
    pub next: u64,
    /// How many messages there are.
    pub len: u32,
    /// How many slots these take.
    pub used: u32,
}

impl Count {
    /// Whether there is room for a body of this length: the first limit that it passes, of its length, of the numbers
    /// and of the slots.
    pub fn room(self, length: usize) -> Room
        ensures { result ≡ room_in self length }
    {
        match message_size(self.version, self.slots, length) {
            None => Room::TooLong,
            Some(size) => self.room_of(size),
        }
    }

    // Whether there is room for a message of so many slots.
    fn room_of(self, size: u32) -> Room
        ensures { result ≡ room_by self (Some size) }
    {
        if self.next > NUMBERS - u64::from(size) {
            return Room::NumbersSpent;
        }
        if u64::from(self.used) + u64::from(size) > u64::from(self.slots) {
            return Room::Full;
        }
        Room::Fits
    }
}
