//! A spool in hand: a device of which the list is known, and the calls that look at it and change it.

ghost use Rattle.std.specs.Prelude.{◌≡◌, ◌⊎◌, ◌+◌, ◌-◌, ◌^◌, ◌<◌, ◌≤◌, ◌%◌, Some, sum_by};
ghost use Rattle.disk_base.specs.MemDisk.{HasFitted};
ghost use Rattle.disk_base.specs.Story.{Story};
ghost use Rattle.spool_file.specs.File.{file_in};
ghost use Rattle.spool_file.specs.Sizes.{slots_for};
ghost use Rattle.spool_file.specs.Slot.{width};
ghost use Rattle.spool_slots.specs.Changes.{Clears, Drops, DropsSized, FoundIn, IsFirstSize, IsListed, Looks};
ghost use Rattle.spool_slots.specs.Changes.{LooksFirst, LooksOn, Reserves, Stages, Upgrades};
ghost use Rattle.spool_slots.specs.Spool.{IsSpool, Rests, in_hand, known_of};

use crate::cells::write_cell;
use crate::device::read_at;
use crate::drops::{Closing, close_first};
use crate::gates::number_place;
use crate::known::{
    Fitting, MARK_STEP, first_size, fit_of, is_out, upgraded, used, with_mark_moved, without_all,
    without_first,
};
use crate::puts::put_parts;
use crate::staged::{Staged, with_pieces};
use crate::states::{Dropping, OldestAnswer, Reserving, Spent, Staging};
use crate::stored::Stored;
use crate::upgrades::write_version;
use disk_base::{Disk, DiskAnswer, MemDisk, cut_leaves_the_chosen_byte};
use spool_file::{FLOOR_CELL, Known, MARK_CELL, MARK_MOST, OPEN, SLOT_SIZE, SlotHead, head_in};
use std::marker::Model;

/// A spool on a device: messages in the order of their numbers, each in one slot or more, and a mark.
#[derive(Debug, Drop)]
pub struct Spool<D: Disk> {
    pub(crate) disk: D,
    pub(crate) known: Known,
}

impl<D: Disk> Model for Spool<D> {
    ghost use Rattle.spool_slots.specs.Spool.{IsSpool, SpoolView, in_hand, spool_code};

    ghost Value = { SpoolView D };

    ghost coded = { spool_code D.code };

    ghost view = { λ s. in_hand s.disk s.known };

    ghost invariant = { λ s. IsSpool D.Disk (in_hand s.disk s.known) };
}

/// A spool of what is known of a device.
pub fn taken_up<D: Disk>(disk: D, known: Known) -> Spool<D>
    requires { IsSpool D.Disk (in_hand disk known) }
    ensures { result ≡ in_hand disk known }
{
    Spool { disk, known }
}

// The head in a slot that was read, where that is open and has this number.
fn found_in(number: u64, into: &[u8; SLOT_SIZE]) -> Option<SlotHead>
    ensures { FoundIn number into.now result }
{
    let head = head_in(into);
    if into[0] != OPEN {
        return None;
    }
    if head.number != number {
        return None;
    }
    Some(head)
}

impl<D: Disk> Spool<D> {
    /// How many messages there are.
    pub fn len(&self) -> u32
        ensures len { result ≡ self.now.len }
        ensures range { result ≤ self.now.slots }
        ensures from { self.now.first + self.now.len ≤ self.now.next }
        ensures none { self.now.len ≡ 0 → self.now.first ≡ self.now.next }
        ensures room { self.now.next ≤ self.now.first + self.now.slots }
        ensures rests { (s : Story) → D.told self.now.disk ≡ Some s → Rests s (known_of self.now) }
    {
        self.known.len
    }

    /// How many slots there are.
    pub fn slots(&self) -> u32
        ensures slots { result ≡ self.now.slots }
        ensures range { (1 ≤ result) × (result ≤ 65535) }
    {
        self.known.slots
    }

    /// The number of the oldest message; of an empty spool, the one that its next message gets.
    pub fn first(&self) -> u64
        ensures first { result ≡ self.now.first }
        ensures bound { self.now.first + self.now.len ≤ 2 ^ 63 + 65535 }
    {
        self.known.first
    }

    /// The number that the next message gets.
    pub fn next(&self) -> u64
        ensures next { result ≡ self.now.next }
        ensures bound { result ≤ 2 ^ 63 + 65535 }
    {
        self.known.next
    }

    /// The mark.
    pub fn mark(&self) -> u64
        ensures mark { result ≡ self.now.mark }
        ensures range { result ≤ 2 ^ 32 }
    {
        self.known.mark
    }

    /// How many slots the messages take.
    pub fn used(&self) -> u32
        ensures used { result ≡ self.now.next - self.now.first }
        ensures sum { (s : Story) → D.told self.now.disk ≡ Some s →
            result ≡ sum_by width (file_in s.now.bytes).list }
        ensures range { result ≤ self.now.slots }
    {
        used(self.known)
    }

    /// The version of the file, 1 or 2.
    pub fn version(&self) -> u8
        ensures version { result ≡ self.now.version }
        ensures range { (result ≡ 1) ⊎ (result ≡ 2) }
    {
        self.known.version
    }

    // Reads the slot of a number.
    fn look(&mut self, number: u64, into: &mut [u8; SLOT_SIZE]) -> DiskAnswer
        ensures { LooksOn D.Disk self.old self.new number into.new result }
    {
        let at = number_place(self.known.slots, number);
        read_at(&mut self.disk, at, into)
    }

    /// Looks at the oldest message. Where it is `Found` the buffer has its first slot, in which the body begins at
    /// place 15. `Empty` is the answer of an empty spool alone.
    pub fn oldest(&mut self, into: &mut [u8; SLOT_SIZE]) -> OldestAnswer
        ensures { LooksFirst D.Disk self.old self.new into.old into.new result }
    {
        let known = self.known;
        if known.len == 0 {
            return OldestAnswer::Empty;
        }
        match self.look(known.first, into) {
            DiskAnswer::Failed => OldestAnswer::Failed,
            DiskAnswer::Done => OldestAnswer::Found(head_in(into)),
        }
    }

    /// Looks at the message that has this number, likewise. `Empty` is the answer where none has it: without a call of
    /// the disk and with the buffer as it was where the number isn't one of those that the messages take, and with the
    /// slot in the buffer where it is one that a message takes beside its own.
    pub fn message_at(&mut self, number: u64, into: &mut [u8; SLOT_SIZE]) -> OldestAnswer
        ensures { Looks D.Disk self.old self.new number into.old into.new result }
    {
        if is_out(self.known, number) {
            return OldestAnswer::Empty;
        }
        match self.look(number, into) {
            DiskAnswer::Failed => return OldestAnswer::Failed,
            DiskAnswer::Done => {}
        }
        match found_in(number, into) {
            Some(head) => OldestAnswer::Found(head),
            None => OldestAnswer::Empty,
        }
    }

    /// Fills the buffer with a further slot of a message of the list, in which the body goes on at place 15: the one
    /// of its first slot's head, and a part from 1 on, below the number of its slots.
    pub fn part(&mut self, head: &SlotHead, part: u32, into: &mut [u8; SLOT_SIZE]) -> DiskAnswer
        requires head { (s : Story) → D.told self.old.disk ≡ Some s → IsListed s head.now }
        requires from { 1 ≤ part }
        requires to { part < slots_for head.now.len }
        requires number { head.now.number ≤ 2 ^ 63 + 65535 }
        ensures { LooksOn D.Disk self.old self.new (head.now.number + part) into.new result }
    {
        self.look(head.number + part as u64, into)
    }

    /// Writes all of a message but its gates, a piece a slot, and syncs. First it reads the gates of these slots, and
    /// where some are open still, since the floor has passed their messages, closes them with a sync of their own. A
    /// crash finds the list as it was. It is refused before its first call, and the spool handed back, for the first
    /// of these: a body of more bytes than a message of such a file may have, 4,081 in version 1 and 1,048,576 in
    /// version 2, or than all slots have room for (`TooLong`); fewer slots left than it takes (`Full`); numbers that
    /// would pass 2^63 (`NumbersSpent`).
    pub fn stage(self, message: &Stored<'_>) -> Result<Staged<D>, Staging<D>>
        requires function { message.now.function % 2 ≡ 1 }
        requires stream { message.now.stream < 128 }
        ensures { Stages D.Disk self message.now.stream message.now.function message.now.body.now result }
    {
        let known = self.known;
        match fit_of(known, message.body.len()) {
            Fitting::TooLong => Err(Staging::TooLong(self)),
            Fitting::Full => Err(Staging::Full(self)),
            Fitting::NumbersSpent => Err(Staging::NumbersSpent(self)),
            Fitting::Takes(size) => {
                let mut disk = self.disk;
                match put_parts(&mut disk, known, size, message) {
                    DiskAnswer::Done => Ok(with_pieces(disk, known, size)),
                    DiskAnswer::Failed => Err(Staging::Failed(Spent { disk })),
                }
            }
        }
    }

    /// Takes the oldest message off the list: reads how long it is, closes its first slot, and syncs. A crash finds the
    /// list with it or without it. An empty spool is handed back as `Empty`. Where this failed behind the read though
    /// the disk had room and went on, the closed gate was written, and its byte decides what a crash finds.
    pub fn drop_oldest(self) -> Result<Spool<D>, Dropping<D>>
        ensures { Drops D.Disk self result }
    {
        if self.known.len == 0 {
            return Err(Dropping::Empty(self));
        }
        let known = self.known;
        let mut disk = self.disk;
        match close_first(&mut disk, known) {
            Closing::Closed(len) => Ok(taken_up(
                disk,
                without_first(known, first_size(known, len)),
            )),
            Closing::Failed => {
                cut_leaves_the_chosen_byte();
                Err(Dropping::Failed(Spent { disk }))
            }
        }
    }

    /// Takes the oldest message off the list, likewise and by the same calls, and goes by what is known of its size, in
    /// slots, and not by the length that was read.
    pub fn drop_sized(self, size: u32) -> Result<Spool<D>, Dropping<D>>
        requires { 0 < self.len → IsFirstSize D.Disk self size }
        ensures { DropsSized D.Disk self size result }
    {
        if self.known.len == 0 {
            return Err(Dropping::Empty(self));
        }
        let known = self.known;
        let mut disk = self.disk;
        match close_first(&mut disk, known) {
            Closing::Closed(_) => Ok(taken_up(disk, without_first(known, size))),
            Closing::Failed => {
                cut_leaves_the_chosen_byte();
                Err(Dropping::Failed(Spent { disk }))
            }
        }
    }

    /// Makes a file of version 1 one of version 2 with the same messages, marks and gates: writes the gate of the
    /// version and syncs, and then the name, which no program of version 2 reads, and syncs. A crash finds the file in
    /// version 1 or 2, and behind the first sync in version 2. `Err` comes only where the disk has counted a fault.
    pub fn upgrade(self) -> Result<Spool<D>, Spent<D>>
        requires { self.version ≡ 1 }
        ensures { Upgrades D.Disk self result }
    {
        let known = self.known;
        let mut disk = self.disk;
        match write_version(&mut disk) {
            DiskAnswer::Done => Ok(taken_up(disk, upgraded(known))),
            DiskAnswer::Failed => {
                cut_leaves_the_chosen_byte();
                Err(Spent { disk })
            }
        }
    }

    /// Takes all messages off the list in one move: the floor rises to the next number, and no message below it
    /// stands, though its slot stays open. A crash finds the whole list, or none of it. It makes five calls of the
    /// disk, and none where the list is empty. `Err` comes only where the disk has counted a fault; where it had room
    /// and went on, and a call behind the third failed, the gate of the floor's cell decides what a crash finds.
    pub fn clear(self) -> Result<Spool<D>, Spent<D>>
        ensures { Clears D.Disk self result }
    {
        let known = self.known;
        if known.len == 0 {
            return Ok(self);
        }
        match write_cell(self.disk, FLOOR_CELL, known.next) {
            Ok(disk) => Ok(taken_up(disk, without_all(known))),
            Err(disk) => Err(Spent { disk }),
        }
    }

    /// Moves the mark on by 4,096, and answers where it was. At every moment the list stands, with the old mark or the
    /// new one. `NumbersSpent` comes exactly where the new mark would lie above 2^32.
    pub fn reserve(self) -> Result<(Spool<D>, u32), Reserving<D>>
        ensures { Reserves D.Disk self result }
    {
        let known = self.known;
        if known.mark + MARK_STEP > MARK_MOST {
            return Err(Reserving::NumbersSpent(self));
        }
        match write_cell(self.disk, MARK_CELL, known.mark + MARK_STEP) {
            Ok(disk) => Ok((taken_up(disk, with_mark_moved(known)), known.mark as u32)),
            Err(disk) => Err(Reserving::Failed(Spent { disk })),
        }
    }

    /// Gives the device back as it is.
    pub fn retire(self) -> Spent<D>
        ensures disk { result.disk ≡ self.disk }
        ensures rests { (s : Story) → D.told self.disk ≡ Some s → Rests s (known_of self) }
    {
        Spent { disk: self.disk }
    }
}

impl Spool<MemDisk> {
    /// Plans that the disk stops at a call, the next one for 1, and at none for 0.
    pub fn arm(&mut self, call: u32)
        ensures { self.new ≡ record self.old {
          disk = record self.old.disk {
            plan = record self.old.disk.plan {
              stop_in = call;
            };
          };
        } }
    {
        self.disk.stop_at(call);
    }

    /// How many calls are left up to the one at which the disk is to stop, itself counted, 0 for none.
    pub fn stops_in(&self) -> u32
        ensures left { result ≡ self.now.disk.plan.stop_in }
        ensures fitted { HasFitted self.now.disk }
    {
        self.disk.stops_in()
    }
}
