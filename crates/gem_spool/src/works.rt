//! Changes of the spool that were decided before the disk has them, carried out one after the other.

ghost use Rattle.std.specs.Prelude.{◌≡◌, ◌<◌, ◌%◌, [], ◌∷◌, length};
ghost use Rattle.gem_spool.specs.Spool.{Stores, room_for};
ghost use Rattle.gem_spool.specs.Standing.{count_of};
ghost use Rattle.gem_spool.specs.Works.{AreDue, AreSizedOn, CarriesOut, Does, IsDue};
ghost use Rattle.gem_spool.specs.declared.spool.Room.TheVariants.{Fits};
ghost use Rattle.gem_spool.specs.declared.works.Work.TheVariants.{DropOldest};

use crate::spool::GemSpool;
use disk_base::Disk;
use gl_base::Row;
use spool_slots::{Dropping, Spent, Stored};

/// A change of the list, which was decided before the disk has it.
#[derive(Debug, Drop)]
pub enum Work {
    /// A message comes to the end of the list.
    Put {
        stream: u8,
        function: u8,
        body: Row<u8>,
    },
    /// The oldest message leaves, as confirmed or overwritten, and frees so many slots.
    DropOldest {
        slots: u32,
    },
    /// All messages leave at once.
    Purge,
}

/// The disk failed at one of some works: those before it are done, and none behind it was begun.
#[derive(Debug, Drop)]
pub struct Undone<D> {
    /// Which of them it is, counted from 0.
    pub at: usize,
    /// The device, on which this one is done or not.
    pub spent: Spent<D>,
}

impl<D: Disk> GemSpool<D> {
    /// Carries works out, one after the other. Each of them has to have its message, or room, when its turn comes,
    /// which the numbers alone decide, and to free as many slots as the message takes that leaves. A crash finds the
    /// list that some first ones make.
    pub fn carry_out(self, works: &[Work]) -> Result<GemSpool<D>, Undone<D>>
        requires due { AreDue (count_of self.spool) works.now }
        requires sized { AreSizedOn D.Disk self.spool works.now }
        ensures { CarriesOut D.Disk self works.now result }
    {
        let mut spool = self;
        'works: for at in 0..works.len() {
            match spool.work(&works[at]) {
                Ok(after) => spool = after,
                Err(spent) => return Err(Undone { at, spent }),
            }
        }
        Ok(spool)
    }

    // Carries one out.
    fn work(self, work: &Work) -> Result<GemSpool<D>, Spent<D>>
        requires due { IsDue (count_of self.spool) work.now }
        requires sized { AreSizedOn D.Disk self.spool (work.now ∷ []) }
        ensures { Does D.Disk self work.now result }
    {
        match work {
            Work::Put {
                stream,
                function,
                body,
            } => {
                let message = Stored {
                    stream: *stream,
                    function: *function,
                    body: body.as_slice(),
                };
                self.with_due(&message)
            }
            Work::DropOldest { slots } => self.without_oldest(*slots),
            Work::Purge => self.purge(),
        }
    }

    // Puts a message for which there is room.
    fn with_due(self, message: &Stored<'_>) -> Result<GemSpool<D>, Spent<D>>
        requires function { message.now.function % 2 ≡ 1 }
        requires stream { message.now.stream < 128 }
        requires fits { room_for self.spool (length message.now.body.now) ≡ Fits }
        ensures { Stores D.Disk self message.now.stream message.now.function message.now.body.now result }
    {
        match self.put(message) {
            Ok((spool, _)) => Ok(spool),
            Err(spent) => Err(spent),
        }
    }

    // Takes the oldest message off, which frees so many slots.
    fn without_oldest(self, slots: u32) -> Result<GemSpool<D>, Spent<D>>
        requires due { IsDue (count_of self.spool) (DropOldest slots) }
        requires sized { AreSizedOn D.Disk self.spool (DropOldest slots ∷ []) }
        ensures { Does D.Disk self (DropOldest slots) result }
    {
        let active = self.active;
        match self.spool.drop_sized(slots) {
            Ok(spool) => Ok(GemSpool { spool, active }),
            Err(Dropping::Empty(spool)) => Ok(GemSpool { spool, active }),
            Err(Dropping::Failed(spent)) => Err(spent),
        }
    }
}
