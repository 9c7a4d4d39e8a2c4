//! The oldest message of the spool, read back from its slots.

ghost use Rattle.std.specs.Prelude.{◌≡◌, ◌+◌, ◌^◌, ◌<◌, ◌≤◌, ◌∷◌, ◌++◌, List, Some, IfOk, OnErr, OnOk, drop};
ghost use Rattle.disk_base.specs.Story.{Story};
ghost use Rattle.gem_spool.specs.Oldest.{ReadsOldest, ReadsOn, ReadsParts, known_head, message_in};
ghost use Rattle.gem_spool.specs.Spool.{HasList};
ghost use Rattle.gem_spool.specs.Standing.{Standing, Stands};
ghost use Rattle.spool_file.specs.Sizes.{slots_for as slots_of};
ghost use Rattle.spool_file.specs.Slot.{Message};
ghost use Rattle.spool_slots.specs.Changes.{IsFirstSize, IsListed};

use crate::spool::GemSpool;
use disk_base::{Disk, DiskAnswer};
use gl_base::{NoMemory, Row};
use spool_file::{AREA, SLOT_SIZE, SlotHead, slots_for};
use spool_slots::OldestAnswer;
use std::alloc::Global;

/// A message as it was put.
#[derive(Debug, Drop)]
pub struct Kept {
    pub stream: u8,
    pub function: u8,
    pub body: Row<u8>,
}

/// Why the oldest message wasn't read.
#[derive(Clone, Copy, Debug, PartialEq, Eq)]
pub enum Unread {
    /// There is none.
    Empty,
    /// The disk failed.
    Failed,
    /// Some first slots of it were read, and there is no memory for its body.
    NoMemory,
}

impl<D: Disk> GemSpool<D> {
    /// Reads the oldest message, which takes so many slots, in one call of the disk a slot, and leaves all as it is.
    /// `Empty` is the answer of an empty spool alone, of which nothing is read. Where memory runs out some first slots
    /// were read.
    pub fn oldest_message(&mut self, alloc: Global, slots: u32) -> Result<Kept, Unread>
        requires size { 0 < self.old.spool.len → IsFirstSize D.Disk self.old.spool slots }
        ensures reads { ReadsOldest D.Disk self.old.spool self.new.spool slots result }
        ensures message { (s : Story) → D.told self.old.spool.disk ≡ Some s → (message : Message) →
            (rest : List Message) → HasList D.Disk self.old.spool (message ∷ rest) →
            IfOk result (λ kept. message_in self.old.spool.first kept ≡ message) }
        ensures active { self.new.active ≡ self.old.active }
        ensures list { (list : List Message) → HasList D.Disk self.old.spool list →
            HasList D.Disk self.new.spool list }
        ensures stands { (st : Standing) → Stands D.Disk self.old.spool st → Stands D.Disk self.new.spool st }
    {
        if self.spool.len() == 0 {
            return Err(Unread::Empty);
        }
        // It tells that there are 65,535 at most.
        let _all = self.spool.slots();
        let number = self.spool.first();
        let mut slot = [0; SLOT_SIZE];
        match self.spool.oldest(&mut slot) {
            OldestAnswer::Found(head) => {
                self.read_on(alloc, head_by(head, number, slots), slots, &slot)
            }
            OldestAnswer::Empty => Err(Unread::Empty),
            OldestAnswer::Failed => Err(Unread::Failed),
        }
    }

    // Reads on behind the first slot of the oldest message, which has this head.
    fn read_on(
        &mut self,
        alloc: Global,
        head: SlotHead,
        slots: u32,
        slot: &[u8; SLOT_SIZE],
    ) -> Result<Kept, Unread>
        requires len { slots_of head.len ≡ slots }
        requires number { head.number ≡ self.old.spool.first }
        requires bound { self.old.spool.first ≤ 2 ^ 63 + 65535 }
        requires listed { (s : Story) → D.told self.old.spool.disk ≡ Some s → IsListed s head }
        ensures reads { ReadsOn D.Disk self.old.spool self.new.spool slots head slot.now result }
        ensures active { self.new.active ≡ self.old.active }
    {
        let mut body = Row::new(alloc);
        let Ok(()) = put_area(&mut body, slot) else {
            return Err(Unread::NoMemory);
        };
        self.read_parts(&head, slots, &mut body)?;
        body.truncate(head.len as usize);
        Ok(Kept {
            stream: head.stream,
            function: head.function,
            body,
        })
    }

    // Puts what the further slots of the oldest message have of its body behind what the first one has.
    fn read_parts(&mut self, head: &SlotHead, slots: u32, body: &mut Row<u8>) -> Result<(), Unread>
        requires len { slots_of head.now.len ≡ slots }
        requires number { head.now.number ≡ self.old.spool.first }
        requires bound { self.old.spool.first ≤ 2 ^ 63 + 65535 }
        requires listed { (s : Story) → D.told self.old.spool.disk ≡ Some s → IsListed s head.now }
        ensures reads { ReadsParts D.Disk self.old.spool self.new.spool slots body.old body.new result }
        ensures active { self.new.active ≡ self.old.active }
    {
        let mut slot = [0; SLOT_SIZE];
        'parts: for part in 1..slots {
            match self.spool.part(head, part, &mut slot) {
                DiskAnswer::Failed => return Err(Unread::Failed),
                DiskAnswer::Done => {}
            }
            let Ok(()) = put_area(body, &slot) else {
                return Err(Unread::NoMemory);
            };
        }
        Ok(())
    }
}

// A head by what is known of its message, where a disk that tells nothing says another.
fn head_by(head: SlotHead, number: u64, slots: u32) -> SlotHead
    requires { slots ≤ 65535 }
    ensures { result ≡ known_head head number slots }
{
    let len = if slots_for(head.len) == slots {
        head.len
    } else {
        AREA * slots
    };
    SlotHead {
        number,
        len,
        ..head
    }
}

// Puts what a slot has of the body at its end.
fn put_area(body: &mut Row<u8>, slot: &[u8; SLOT_SIZE]) -> Result<(), NoMemory>
    ensures ok { OnOk result (body.new ≡ body.old ++ drop 15 slot.now) }
    ensures err { OnErr result (body.new ≡ body.old) }
{
    body.extend(slot.split_at(15).1)
}
