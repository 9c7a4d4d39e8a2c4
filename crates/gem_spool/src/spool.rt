//! The spool of the equipment: a list of messages and its calls, over the slots of `spool_slots`.

ghost use Rattle.std.specs.Prelude.{◌≡◌, ◌⊎◌, ◌+◌, ◌^◌, ◌<◌, ◌≤◌, ◌%◌, nat_lt, [], List, length, IfOk, Some};
ghost use Rattle.disk_base.specs.MemDisk.{HasFitted};
ghost use Rattle.disk_base.specs.Story.{Story};
ghost use Rattle.disk_base.specs.Through.{GoesThrough};
ghost use Rattle.gem_spool.specs.Spool.{Confirms, HasList, PurgesAll, Puts, ReservesMore, Stores};
ghost use Rattle.gem_spool.specs.Spool.{list_after_confirm, list_after_put, numbered, room_for};
ghost use Rattle.gem_spool.specs.Standing.{Standing, Stands, count_of, standing_of};
ghost use Rattle.gem_spool.specs.Works.{IsMarked, reserve_disk};
ghost use Rattle.gem_spool.specs.Works.{standing_after, standing_after_confirm, standing_after_put};
ghost use Rattle.gem_spool.specs.Works.{standing_after_reserve};
ghost use Rattle.gem_spool.specs.declared.works.Work.TheVariants.{Purge};
ghost use Rattle.gem_spool.specs.declared.spool.Room.TheVariants.{Fits};
ghost use Rattle.spool_file.specs.Sizes.{slots_for};
ghost use Rattle.spool_file.specs.Slot.{Message};
ghost use Rattle.spool_slots.specs.Changes.{IsListed, LooksFirst, LooksOn};
ghost use Rattle.spool_slots.specs.Spool.{Rests, known_of};

use crate::count::Count;
use disk_base::{Disk, DiskAnswer, MemDisk};
use spool_file::{SLOT_SIZE, SlotHead};
use spool_slots::{Dropping, OldestAnswer, Reserving, Spent, Spool, Staging, Stored};

/// The spool of the equipment: a list of messages with their numbers, which a power loss leaves whole, and whether it
/// is active.
#[derive(Debug, Drop)]
pub struct GemSpool<D: Disk> {
    pub(crate) spool: Spool<D>,
    pub(crate) active: bool,
}

/// Whether there is room for a message.
#[derive(Clone, Copy, Debug, PartialEq, Eq)]
pub enum Room {
    Fits,
    /// Fewer slots are left than the message takes.
    Full,
    /// The body has more bytes than a message of such a file may have, or than all its slots have room for.
    TooLong,
    /// The numbers that the message takes would pass 2^63.
    NumbersSpent,
}

/// What a put came to.
#[derive(Clone, Copy, Debug, PartialEq, Eq)]
pub enum PutAnswer {
    /// It is the last of the list, with this number.
    Stored(u64),
    Full,
    TooLong,
    NumbersSpent,
}

impl<D: Disk> GemSpool<D> {
    /// Takes a spool up. It is active where its list isn't empty.
    pub fn new(spool: Spool<D>) -> GemSpool<D>
        ensures made { result ≡ record { spool = spool; active = nat_lt 0 spool.len } }
        ensures stands { Stands D.Disk spool (standing_of D.Disk spool) }
    {
        let active = spool.len() > 0;
        GemSpool { spool, active }
    }

    /// Gives the spool up, for calls on its area, with whether it is active.
    pub fn take_apart(self) -> (Spool<D>, bool)
        ensures { result ≡ (self.spool, self.active) }
    {
        (self.spool, self.active)
    }

    /// Takes a spool up again, active or not.
    pub fn join(spool: Spool<D>, active: bool) -> GemSpool<D>
        ensures { result ≡ record { spool = spool; active = active } }
    {
        GemSpool { spool, active }
    }

    /// Whether it is active.
    pub fn active(&self) -> bool
        ensures { result ≡ self.now.active }
    {
        self.active
    }

    /// Makes it active, or not. The list stays.
    pub fn set_active(&mut self, on: bool)
        ensures { self.new ≡ record { spool = self.old.spool; active = on } }
    {
        self.active = on;
    }

    /// The number that the next message gets.
    pub fn next(&self) -> u64
        ensures { result ≡ self.now.spool.next }
    {
        self.spool.next()
    }

    /// Whether there is room for a body of this length. It asks nothing of the disk.
    pub fn room(&self, length: usize) -> Room
        ensures { result ≡ room_for self.now.spool length }
    {
        self.count().room(length)
    }

    /// The numbers that decide which works have their turn.
    pub fn count(&self) -> Count
        ensures count { result ≡ count_of self.now.spool }
        ensures version { (result.version ≡ 1) ⊎ (result.version ≡ 2) }
        ensures slots { (1 ≤ result.slots) × (result.slots ≤ 65535) }
        ensures range { result.len ≤ result.slots }
        ensures used { result.used ≤ result.slots }
        ensures bound { result.next ≤ 2 ^ 63 + 65535 }
    {
        Count {
            version: self.spool.version(),
            slots: self.spool.slots(),
            next: self.spool.next(),
            len: self.spool.len(),
            used: self.spool.used(),
        }
    }

    /// Puts a message at the end of the list, with the next number. It is stored exactly where there is room for it;
    /// elsewhere the answer is that of `room`, and nothing is asked of the disk. A crash finds the list without the
    /// message or with it at the end, also where the device is handed back, since a call of it failed. It makes a read
    /// and a write for each of its slots and three calls more, and where gates of these are open still for messages
    /// that a purge took off, one for each of them and one more.
    pub fn put(self, message: &Stored<'_>) -> Result<(GemSpool<D>, PutAnswer), Spent<D>>
        requires function { message.now.function % 2 ≡ 1 }
        requires stream { message.now.stream < 128 }
        ensures put { Puts D.Disk self message.now.stream message.now.function message.now.body.now result }
        ensures list { (list : List Message) → HasList D.Disk self.spool list →
            IfOk result (λ r. HasList D.Disk r.0.spool (list_after_put r.1
            (numbered self.spool message.now.stream message.now.function message.now.body.now)
            list)) }
        ensures stands { (st : Standing) → Stands D.Disk self.spool st →
            IfOk result (λ r. Stands D.Disk r.0.spool (standing_after_put r.1 st
            message.now.stream message.now.function message.now.body.now)) }
    {
        match self.room(message.body.len()) {
            Room::Fits => self.store_as(message),
            Room::Full => Ok((self, PutAnswer::Full)),
            Room::TooLong => Ok((self, PutAnswer::TooLong)),
            Room::NumbersSpent => Ok((self, PutAnswer::NumbersSpent)),
        }
    }

    /// Takes the oldest message off the list, and answers true, exactly where it has this number. A crash finds the
    /// list with it or without it.
    pub fn confirm(self, number: u64) -> Result<(GemSpool<D>, bool), Spent<D>>
        ensures confirm { Confirms D.Disk self number result }
        ensures list { (list : List Message) → HasList D.Disk self.spool list →
            IfOk result (λ r. HasList D.Disk r.0.spool (list_after_confirm r.1 list)) }
        ensures stands { (st : Standing) → Stands D.Disk self.spool st → (s : Story) → D.told self.spool.disk ≡ Some s →
            IfOk result (λ r. Stands D.Disk r.0.spool (standing_after_confirm r.1 st)) }
    {
        if self.spool.first() != number {
            return Ok((self, false));
        }
        let active = self.active;
        match self.spool.drop_oldest() {
            Ok(spool) => Ok((GemSpool { spool, active }, true)),
            Err(Dropping::Empty(spool)) => Ok((GemSpool { spool, active }, false)),
            Err(Dropping::Failed(spent)) => Err(spent),
        }
    }

    /// Takes all messages off the list at once, in five calls of the disk, or in none where there is none. A crash
    /// finds the list as it was, or empty.
    pub fn purge(self) -> Result<GemSpool<D>, Spent<D>>
        ensures purge { PurgesAll D.Disk self result }
        ensures list { IfOk result (λ h. HasList D.Disk h.spool []) }
        ensures stands { (st : Standing) → Stands D.Disk self.spool st →
            IfOk result (λ h. Stands D.Disk h.spool (standing_after st Purge)) }
    {
        let active = self.active;
        match self.spool.clear() {
            Ok(spool) => Ok(GemSpool { spool, active }),
            Err(spent) => Err(spent),
        }
    }

    /// Moves the mark on by 4,096, and answers where it was; `None` exactly where it can't be moved on. At every moment
    /// the list stands, with the old mark or the new one.
    pub fn reserve(self) -> Result<(GemSpool<D>, Option<u32>), Spent<D>>
        ensures reserve { ReservesMore D.Disk self result }
        ensures list { (list : List Message) → HasList D.Disk self.spool list →
            IfOk result (λ r. HasList D.Disk r.0.spool list) }
        ensures stands { (st : Standing) → Stands D.Disk self.spool st →
            IfOk result (λ r. Stands D.Disk r.0.spool (standing_after_reserve r.1 st)) }
        ensures moments { (st : Standing) → Stands D.Disk self.spool st → (s : Story) →
            D.told self.spool.disk ≡ Some s → GoesThrough s (D.told (reserve_disk result)) (IsMarked st) }
    {
        let active = self.active;
        match self.spool.reserve() {
            Ok((spool, base)) => Ok((GemSpool { spool, active }, Some(base))),
            Err(Reserving::NumbersSpent(spool)) => Ok((GemSpool { spool, active }, None)),
            Err(Reserving::Failed(spent)) => Err(spent),
        }
    }

    /// Looks at the oldest message. Where it is `Found` the buffer has its first slot, in which the body begins at place
    /// 15. `Empty` is the answer of an empty spool alone.
    pub fn oldest(&mut self, into: &mut [u8; SLOT_SIZE]) -> OldestAnswer
        ensures looks { LooksFirst D.Disk self.old.spool self.new.spool into.old into.new result }
        ensures active { self.new.active ≡ self.old.active }
        ensures list { (list : List Message) → HasList D.Disk self.old.spool list →
            HasList D.Disk self.new.spool list }
        ensures stands { (st : Standing) → Stands D.Disk self.old.spool st → Stands D.Disk self.new.spool st }
    {
        self.spool.oldest(into)
    }

    /// Fills the buffer with a further slot of a message of the list, in which the body goes on at place 15: the one
    /// of its first slot's head, and a part from 1 on, below the number of its slots.
    pub fn part(&mut self, head: &SlotHead, part: u32, into: &mut [u8; SLOT_SIZE]) -> DiskAnswer
        requires head { (s : Story) → D.told self.old.spool.disk ≡ Some s → IsListed s head.now }
        requires from { 1 ≤ part }
        requires to { part < slots_for head.now.len }
        requires number { head.now.number ≤ 2 ^ 63 }
        ensures looks { LooksOn D.Disk self.old.spool self.new.spool (head.now.number + part) into.new result }
        ensures active { self.new.active ≡ self.old.active }
        ensures list { (list : List Message) → HasList D.Disk self.old.spool list →
            HasList D.Disk self.new.spool list }
        ensures stands { (st : Standing) → Stands D.Disk self.old.spool st → Stands D.Disk self.new.spool st }
    {
        self.spool.part(head, part, into)
    }

    /// How many messages there are.
    pub fn len(&self) -> u32
        ensures len { result ≡ self.now.spool.len }
        ensures range { result ≤ self.now.spool.slots }
        ensures rests { (s : Story) → D.told self.now.spool.disk ≡ Some s → Rests s (known_of self.now.spool) }
        ensures stands { Stands D.Disk self.now.spool (standing_of D.Disk self.now.spool) }
    {
        self.spool.len()
    }

    /// The number of the oldest message; of an empty spool, the one that its next message gets.
    pub fn first(&self) -> u64
        ensures first { result ≡ self.now.spool.first }
        ensures bound { self.now.spool.first + self.now.spool.len ≤ 2 ^ 63 + 65535 }
    {
        self.spool.first()
    }

    /// Gives the device back as it is.
    pub fn retire(self) -> Spent<D>
        ensures disk { result.disk ≡ self.spool.disk }
        ensures rests { (s : Story) → D.told self.spool.disk ≡ Some s → Rests s (known_of self.spool) }
    {
        self.spool.retire()
    }

    // Puts a message for which there is room, and answers its number.
    fn store_as(self, message: &Stored<'_>) -> Result<(GemSpool<D>, PutAnswer), Spent<D>>
        requires function { message.now.function % 2 ≡ 1 }
        requires stream { message.now.stream < 128 }
        requires fits { room_for self.spool (length message.now.body.now) ≡ Fits }
        ensures put { Puts D.Disk self message.now.stream message.now.function message.now.body.now result }
        ensures list { (list : List Message) → HasList D.Disk self.spool list →
            IfOk result (λ r. HasList D.Disk r.0.spool (list_after_put r.1
            (numbered self.spool message.now.stream message.now.function message.now.body.now)
            list)) }
        ensures stands { (st : Standing) → Stands D.Disk self.spool st →
            IfOk result (λ r. Stands D.Disk r.0.spool (standing_after_put r.1 st
            message.now.stream message.now.function message.now.body.now)) }
    {
        let number = self.next();
        match self.store(message) {
            Ok(spool) => Ok((spool, PutAnswer::Stored(number))),
            Err(spent) => Err(spent),
        }
    }

    // Puts a message for which there is room.
    fn store(self, message: &Stored<'_>) -> Result<GemSpool<D>, Spent<D>>
        requires function { message.now.function % 2 ≡ 1 }
        requires stream { message.now.stream < 128 }
        requires fits { room_for self.spool (length message.now.body.now) ≡ Fits }
        ensures { Stores D.Disk self message.now.stream message.now.function message.now.body.now result }
    {
        let active = self.active;
        match self.spool.stage(message) {
            Ok(staged) => match staged.seal() {
                Ok(spool) => Ok(GemSpool { spool, active }),
                Err(spent) => Err(spent),
            },
            Err(Staging::Full(spool)) => Ok(GemSpool { spool, active }),
            Err(Staging::TooLong(spool)) => Ok(GemSpool { spool, active }),
            Err(Staging::NumbersSpent(spool)) => Ok(GemSpool { spool, active }),
            Err(Staging::Failed(spent)) => Err(spent),
        }
    }
}

impl GemSpool<MemDisk> {
    /// Plans that the disk stops at a call, the next one for 1, and at none for 0.
    pub fn arm(&mut self, call: u32)
        ensures { self.new ≡ record {
          spool = record self.old.spool {
            disk = record self.old.spool.disk {
              plan = record self.old.spool.disk.plan {
                stop_in = call;
              };
            };
          };
          active = self.old.active;
        } }
    {
        self.spool.arm(call);
    }

    /// How many calls are left up to the one at which the disk is to stop, itself counted, 0 for none.
    pub fn stops_in(&self) -> u32
        ensures left { result ≡ self.now.spool.disk.plan.stop_in }
        ensures fitted { HasFitted self.now.spool.disk }
    {
        self.spool.stops_in()
    }
}
