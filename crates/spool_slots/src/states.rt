//! The states of a device around a spool in hand, with the calls that lead there, and what refused calls hand back.

ghost use Rattle.std.specs.Prelude.{◌≡◌};
ghost use Rattle.spool_slots.specs.Changes.{Recovers};
ghost use Rattle.spool_slots.specs.Format.{Formats};

use crate::spool::{Spool, taken_up};
use disk_base::{Disk, DiskAnswer};
use spool_file::{
    Known, NotSpool, Reading, SLOTS_MOST, SlotHead, area_end, read_file, write_empty,
};

/// A device of which nothing is known.
#[derive(Debug, Drop)]
pub struct Raw<D> {
    pub(crate) disk: D,
}

/// A device that failed, or that a spool has given up: nothing but a recovery makes a spool of it again.
#[derive(Debug, Drop)]
pub struct Spent<D> {
    pub(crate) disk: D,
}

/// Why no file was made on a device.
#[derive(Debug, Drop)]
pub enum Formatting<D> {
    /// No file has so many slots: a number from 1 to 65,535 is asked for.
    Slots(Raw<D>),
    /// The device has fewer bytes than these slots and the area behind them need.
    Small { raw: Raw<D>, size: u64, need: u64 },
    Failed(Spent<D>),
}

/// Why a device wasn't recovered.
#[derive(Debug, Drop)]
pub enum Recovering<D> {
    /// The bytes stand for no list: the first place at which they break.
    NotSpool(Raw<D>, NotSpool),
    Failed(Spent<D>),
}

/// Why a message wasn't staged.
#[derive(Debug, Drop)]
pub enum Staging<D: Disk> {
    /// Fewer slots are left than the message takes.
    Full(Spool<D>),
    /// The body has more bytes than a message of such a file may have, or than all its slots have room for.
    TooLong(Spool<D>),
    /// The numbers that the message takes would pass 2^63.
    NumbersSpent(Spool<D>),
    Failed(Spent<D>),
}

/// Why no message was dropped.
#[derive(Debug, Drop)]
pub enum Dropping<D: Disk> {
    Empty(Spool<D>),
    Failed(Spent<D>),
}

/// Why the mark wasn't moved on.
#[derive(Debug, Drop)]
pub enum Reserving<D: Disk> {
    /// The new mark would lie above 2^32.
    NumbersSpent(Spool<D>),
    Failed(Spent<D>),
}

/// What a message that was looked for came to.
#[derive(Clone, Copy, Debug, PartialEq, Eq)]
pub enum OldestAnswer {
    /// It is there.
    Found(SlotHead),
    /// There is no such message.
    Empty,
    /// The disk failed.
    Failed,
}

/// What a look at the gate of the setup's cell came to.
#[derive(Clone, Copy, Debug, PartialEq, Eq)]
pub enum PlaceAnswer {
    /// Where the copy begins that has the value.
    Place(u64),
    /// The disk failed.
    Failed,
}

impl<D: Disk> Raw<D> {
    /// Takes a device.
    pub fn new(disk: D) -> Raw<D>
        ensures { result.disk ≡ disk }
    {
        Raw { disk }
    }

    /// Makes the file of an empty list, mark 0 and floor 0, with an area of zeros behind its slots, and syncs. It makes
    /// 34 calls of the disk and one a slot. A number of slots that no file has is refused first, then a device that is
    /// too small for them and the area; neither is touched. Until this is `Ok` a crash may leave anything.
    pub fn format(self, slots: u32) -> Result<Spool<D>, Formatting<D>>
        ensures { Formats D.Disk self.disk slots result }
    {
        if slots == 0 {
            return Err(Formatting::Slots(self));
        }
        if slots > SLOTS_MOST {
            return Err(Formatting::Slots(self));
        }
        let mut disk = self.disk;
        let (size, need) = (disk.size(), area_end(slots));
        if size < need {
            return Err(Formatting::Small {
                raw: Raw { disk },
                size,
                need,
            });
        }
        match write_empty(&mut disk, slots) {
            DiskAnswer::Done => Ok(taken_up(disk, Known::new(slots))),
            DiskAnswer::Failed => Err(Formatting::Failed(Spent { disk })),
        }
    }

    /// Takes up the list and the mark for which the device's bytes stand, after a sync, and writes nothing. Bytes that
    /// stand for none are `NotSpool`, with the first place at which they break. It makes one read of 47 bytes, and one
    /// of 15 of each slot. In a file of version 1 it makes a second one of the slots only where the numbers of those
    /// that stand have a gap; in one of version 2 always, behind one of each of the last slots, of which 257 count at
    /// most. The next number of an empty list is the floor.
    pub fn recover(self) -> Result<Spool<D>, Recovering<D>>
        ensures { Recovers D.Disk self.disk result }
    {
        let mut disk = self.disk;
        match disk.sync() {
            DiskAnswer::Failed => return Err(Recovering::Failed(Spent { disk })),
            DiskAnswer::Done => {}
        }
        match read_file(&mut disk) {
            Reading::Whole(known) => Ok(taken_up(disk, known)),
            Reading::Broken(not_spool) => Err(Recovering::NotSpool(Raw { disk }, not_spool)),
            Reading::Failed => Err(Recovering::Failed(Spent { disk })),
        }
    }

    /// Gives the device back.
    pub fn into_disk(self) -> D
        ensures { result ≡ self.disk }
    {
        self.disk
    }
}

impl<D: Disk> Spent<D> {
    /// The device as one of which nothing is known.
    pub fn into_raw(self) -> Raw<D>
        ensures { result.disk ≡ self.disk }
    {
        Raw { disk: self.disk }
    }

    /// Gives the device back.
    pub fn into_disk(self) -> D
        ensures { result ≡ self.disk }
    {
        self.disk
    }
}
