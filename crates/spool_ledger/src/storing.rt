//! How messages come to the list and leave it: one is stored, the oldest is overwritten, all are purged.

ghost use Rattle.std.specs.Prelude.{◌≡◌, ◌<◌, ◌≤◌, ◌%◌, ◌++◌, ◌∷◌, [], length, IfOk, None, Option};
ghost use Rattle.gem_spool.specs.declared.spool.Room.TheVariants.{Fits};
ghost use Rattle.message_end.specs.Ends.{printed};
ghost use Rattle.trace_log.specs.Log.Happening.{Gone, Leaving};
ghost use Rattle.trace_log.specs.Names.{Spooled};
ghost use Rattle.spool_ledger.specs.Ledger.{confirmed_of, room_for};
ghost use Rattle.spool_ledger.specs.Storing.{Books, all_out, oldest_out, put, room_made, spooled, stored};

use crate::ledger::{Ledger, size_of};
use gem_spool::{Room, Work};
use gl_base::{NoMemory, Row};
use message_end::Stop;
use message_flow::StepOut;
use std::alloc::Global;
use trace_log::{
    Cause, Name, discarded_note, gone_note, leaving_note, stored_note, storing_note, too_long_note,
};

impl Ledger {
    /// A primary is to be stored. Where there is room it comes to the end of the list with the next number. In a full
    /// spool the oldest messages leave, one by one, until there is room, where the spool `overwrites`; where it doesn't
    /// the primary is discarded. One that is too long is noted, and removes none.
    ///
    /// `NumbersSpent` exactly where it isn't too long and the next number would pass 2^63, and then nothing changes.
    pub fn store(
        &mut self,
        alloc: Global,
        stream: u8,
        function: u8,
        body: Row<u8>,
        overwrites: bool,
        out: &mut StepOut,
    ) -> Result<(), Stop>
        requires function { function % 2 ≡ 1 }
        requires stream { stream < 128 }
        ensures books { Books
            (stored overwrites (spooled stream function body) self.old)
            self.old
            out.old
            self.new
            out.new
            result }
        ensures line { out.new.line ≡ out.old.line }
    {
        let name = Name {
            stream,
            function,
            wait: true,
        };
        match self.room(body.len()) {
            Room::Fits => {
                self.put(alloc, stream, function, body, out)?;
                Ok(())
            }
            Room::Full => {
                if overwrites {
                    self.make_room(alloc, size_of(body.len()), out)?;
                    self.put(alloc, stream, function, body, out)?;
                    Ok(())
                } else {
                    out.notes.push(discarded_note(alloc, name)?)?;
                    Ok(())
                }
            }
            Room::TooLong => {
                out.notes.push(too_long_note(alloc, name)?)?;
                Ok(())
            }
            Room::NumbersSpent => Err(Stop::NumbersSpent),
        }
    }

    /// All messages leave, the oldest first. Of an empty list nothing is noted.
    pub fn purge(&mut self, alloc: Global, out: &mut StepOut) -> Result<(), NoMemory>
        ensures next { IfOk result (λ done. self.new ≡ (all_out self.old).next) }
        ensures notes { IfOk result (λ done. out.new.notes ≡ out.old.notes ++ printed (all_out self.old).lines) }
        ensures line { out.new.line ≡ out.old.line }
    {
        if self.len() == 0 {
            return Ok(());
        }
        let next = self.next();
        note_leaving(alloc, self.first, Cause::Purged, out)?;
        self.works.push(Work::Purge)?;
        self.first = next;
        self.sizes.clear();
        Ok(())
    }

    // A message for which there is room comes to the end of the list.
    fn put(
        &mut self,
        alloc: Global,
        stream: u8,
        function: u8,
        body: Row<u8>,
        out: &mut StepOut,
    ) -> Result<(), NoMemory>
        requires function { function % 2 ≡ 1 }
        requires stream { stream < 128 }
        requires fits { room_for self.old (length body) ≡ Fits }
        ensures next { IfOk result (λ done. self.new ≡ (put (spooled stream function body) self.old).next) }
        ensures notes { IfOk result
            (λ done. out.new.notes ≡ out.old.notes ++ printed (put (spooled stream function body) self.old).lines) }
        ensures line { out.new.line ≡ out.old.line }
    {
        let number = self.next();
        let size = size_of(body.len()) as u16;
        out.notes
            .push(storing_note(alloc, number, stream, function)?)?;
        out.notes.push(stored_note(alloc, number)?)?;
        let owed = self.works.len();
        self.works.push(Work::Put {
            stream,
            function,
            body,
        })?;
        if let Err(none) = self.sizes.push(size) {
            self.works.truncate(owed);
            return Err(none);
        }
        Ok(())
    }

    // The oldest messages leave, one by one, until there is room for a message of this size.
    fn make_room(&mut self, alloc: Global, size: u32, out: &mut StepOut) -> Result<(), NoMemory>
        requires fits { size ≤ self.old.slots }
        requires small { size ≤ 65535 }
        ensures next { (for_one : Option Spooled) →
            IfOk result (λ done. self.new ≡ (room_made size for_one self.old.sizes self.old).next) }
        ensures notes { (for_one : Option Spooled) → IfOk result
            (λ done. out.new.notes
            ≡ out.old.notes ++ printed (room_made size for_one self.old.sizes self.old).lines) }
        ensures line { out.new.line ≡ out.old.line }
    {
        'oldest: while self.is_full(size) {
            self.oldest_out(alloc, Cause::Overwritten, out)?;
        }
        Ok(())
    }

    // The oldest message leaves. What room it makes isn't printed.
    pub(crate) fn oldest_out(
        &mut self,
        alloc: Global,
        cause: Cause,
        out: &mut StepOut,
    ) -> Result<(), NoMemory>
        requires some { 0 < length self.old.sizes }
        ensures next { IfOk result (λ done. self.new ≡ (oldest_out cause None self.old).next) }
        ensures notes { (for_one : Option Spooled) → IfOk result
            (λ done. out.new.notes ≡ out.old.notes ++ printed (oldest_out cause for_one self.old).lines) }
        ensures line { out.new.line ≡ out.old.line }
        ensures confirmed { IfOk result (λ done. confirmed_of self.new.unload < self.new.first) }
    {
        note_leaving(alloc, self.first, cause, out)?;
        let slots = self.sizes.oldest();
        self.works.push(Work::DropOldest { slots })?;
        self.sizes.drop_oldest();
        self.first += u64::from(slots);
        Ok(())
    }
}

// Notes a message that leaves.
fn note_leaving(alloc: Global, number: u64, cause: Cause, out: &mut StepOut) -> Result<(), NoMemory>
    ensures notes { (for_one : Option Spooled) → IfOk result
        (λ done. out.new.notes ≡ out.old.notes ++ printed (Leaving number cause for_one ∷ Gone number ∷ [])) }
    ensures line { out.new.line ≡ out.old.line }
{
    out.notes.push(leaving_note(alloc, number, cause)?)?;
    out.notes.push(gone_note(alloc, number)?)
}
