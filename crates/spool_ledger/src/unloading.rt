//! An unload by its calls: it begins, takes up a message, which is granted and confirmed, and ends.

ghost use Rattle.std.specs.Prelude.{◌≡◌, ◌<◌, ◌++◌, IfOk, None, Some};
ghost use Rattle.message_end.specs.Ends.{printed};
ghost use Rattle.spool_ledger.specs.Ledger.{confirmed_of};
ghost use Rattle.spool_ledger.specs.Unloading.{after_next, confirmed, counted, fresh, is_oldest_tried, let_go, next_number, settled, taken_up, tries, waiting_in, with_each, with_unload};

use crate::ledger::Ledger;
use crate::unload::{Tried, Unload, WaitingText};
use gl_base::NoMemory;
use message_flow::StepOut;
use std::alloc::Global;
use trace_log::{Cause, try_note};

impl Ledger {
    /// Begins an unload. None of its messages is under way or confirmed yet.
    pub fn begin_unload(&mut self)
        ensures { self.new ≡ with_unload (Some fresh) self.old }
    {
        self.unload = Some(Unload {
            tried: None,
            confirmed: 0,
        });
    }

    /// Ends the unload. The message that is under way stays on the list.
    pub fn end_unload(&mut self)
        ensures { self.new ≡ with_unload None self.old }
    {
        self.unload = None;
    }

    /// What an unload does when its turn comes. While a message is under way it waits. It ends where the list is
    /// empty, and where `most` isn't 0 and so many messages were confirmed. Elsewhere the oldest message is to be taken
    /// up, of which this is the number.
    pub fn next_unload(&mut self, most: u32) -> Option<u64>
        ensures number { result ≡ next_number most self.old }
        ensures next { self.new ≡ after_next most self.old }
    {
        let unload = self.unload.as_ref()?;
        if unload.tried.is_some() {
            return None;
        }
        if self.len() == 0 || (most > 0 && unload.confirmed >= u64::from(most)) {
            self.unload = None;
            return None;
        }
        Some(self.first)
    }

    /// The message with this number was read, and goes out with these system bytes. It is under way then, with its text
    /// where it waits for its grant.
    pub fn take_up(
        &mut self,
        alloc: Global,
        number: u64,
        system: u32,
        waiting: Option<WaitingText>,
        out: &mut StepOut,
    ) -> Result<(), NoMemory>
        ensures next { IfOk result (λ done. self.new ≡ (taken_up number system waiting self.old).next) }
        ensures notes { IfOk result
            (λ done. out.new.notes ≡ out.old.notes ++ printed (taken_up number system waiting self.old).lines) }
        ensures line { out.new.line ≡ out.old.line }
    {
        out.notes.push(try_note(alloc, number, system)?)?;
        if let Some(unload) = &mut self.unload {
            unload.tried = Some(Tried { number, waiting });
        }
        Ok(())
    }

    /// The message under way may go: its text, where it waits for that.
    pub fn granted(&mut self) -> Option<WaitingText>
        ensures text { result ≡ waiting_in self.old.unload }
        ensures next { self.new ≡ with_each let_go self.old }
    {
        let unload = self.unload.as_mut()?;
        let tried = unload.tried.as_mut()?;
        tried.waiting.take()
    }

    /// The reply to the message under way has come. Where that message is the oldest it leaves, and is counted as
    /// confirmed; where it left before, nothing is removed or counted. None is under way any more.
    pub fn confirm(&mut self, alloc: Global, out: &mut StepOut) -> Result<(), NoMemory>
        ensures next { IfOk result (λ done. self.new ≡ (confirmed self.old).next) }
        ensures notes { IfOk result (λ done. out.new.notes ≡ out.old.notes ++ printed (confirmed self.old).lines) }
        ensures line { out.new.line ≡ out.old.line }
    {
        if !self.is_oldest_tried() {
            self.settle();
            return Ok(());
        }
        self.oldest_out(alloc, Cause::Confirmed, out)?;
        self.count();
        Ok(())
    }

    // Whether the message under way is the oldest of the list.
    fn is_oldest_tried(&self) -> bool
        ensures { result ≡ is_oldest_tried self.now }
    {
        self.len() > 0 && self.tries(self.first)
    }

    // Whether the message with this number is under way.
    fn tries(&self, number: u64) -> bool
        ensures { result ≡ tries number self.now.unload }
    {
        match &self.unload {
            Some(
                Unload {
                    tried: Some(tried),
                    ..
                },
            ) => tried.number == number,
            _ => false,
        }
    }

    // No message is under way any more.
    fn settle(&mut self)
        ensures { self.new ≡ with_each settled self.old }
    {
        if let Some(unload) = &mut self.unload {
            unload.tried = None;
        }
    }

    // The message that was under way is confirmed.
    fn count(&mut self)
        requires { confirmed_of self.old.unload < self.old.first }
        ensures { self.new ≡ with_each counted self.old }
    {
        if let Some(unload) = &mut self.unload {
            unload.tried = None;
            unload.confirmed += 1;
        }
    }
}
