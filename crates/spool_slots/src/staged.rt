//! A spool between the pieces of a put and its last gate: the message stands in its slots, which are closed still.

ghost use Rattle.std.specs.Prelude.{◌≡◌, Some};
ghost use Rattle.spool_slots.specs.Changes.{Seals};
ghost use Rattle.disk_base.specs.Story.{Story};
ghost use Rattle.spool_slots.specs.Spool.{IsStagedSpool, Rests, known_of, staged};

use crate::gates::settle_gate;
use crate::known::with_one_more;
use crate::spool::{Spool, taken_up};
use crate::states::Spent;
use disk_base::{Disk, DiskAnswer, cut_leaves_the_chosen_byte, failed_settle_has_written};
use spool_file::{Known, OPEN};
use std::marker::Model;

/// A spool with a message that stands in the next slots, which are closed still.
#[derive(Debug, Drop)]
pub struct Staged<D: Disk> {
    disk: D,
    known: Known,
    size: u32,
}

impl<D: Disk> Model for Staged<D> {
    ghost use Rattle.spool_slots.specs.Spool.{IsStagedSpool, StagedView, staged, staged_code};

    ghost Value = { StagedView D };

    ghost coded = { staged_code D.code };

    ghost view = { λ s. staged s.disk s.known s.size };

    ghost invariant = { λ s. IsStagedSpool D.Disk (staged s.disk s.known s.size) };
}

/// A spool of whose next message, which takes so many slots, the pieces are written.
pub fn with_pieces<D: Disk>(disk: D, known: Known, size: u32) -> Staged<D>
    requires { IsStagedSpool D.Disk (staged disk known size) }
    ensures { result ≡ staged disk known size }
{
    Staged { disk, known, size }
}

impl<D: Disk> Staged<D> {
    /// The number that the message gets.
    pub fn number(&self) -> u64
        ensures number { result ≡ self.now.spool.next }
        ensures rests { (s : Story) → D.told self.now.spool.disk ≡ Some s → Rests s (known_of self.now.spool) }
    {
        self.known.next
    }

    /// Opens the gate of the first slot, and syncs. A crash finds the list without the message or with it at the end. Where
    /// this failed though the disk had room and went on, the open gate was written, and its byte decides.
    pub fn seal(self) -> Result<Spool<D>, Spent<D>>
        ensures { Seals D.Disk self result }
    {
        let (known, size) = (self.known, self.size);
        let mut disk = self.disk;
        match settle_gate(&mut disk, known.slots, known.next, OPEN) {
            DiskAnswer::Done => Ok(taken_up(disk, with_one_more(known, size))),
            DiskAnswer::Failed => {
                failed_settle_has_written();
                cut_leaves_the_chosen_byte();
                Err(Spent { disk })
            }
        }
    }

    /// Leaves the slots closed: the spool as it was.
    pub fn abandon(self) -> Spool<D>
        ensures { result ≡ self.spool }
    {
        taken_up(self.disk, self.known)
    }
}
