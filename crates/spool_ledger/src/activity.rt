//! When the spool is active, and what an S6F23 is answered by that.

ghost use Rattle.std.specs.Prelude.{◌≡◌, ◌++◌, IfOk};
ghost use Rattle.message_end.specs.Ends.{printed};
ghost use Rattle.spool_ledger.specs.Activity.{activated, rested, rsda_of};

use crate::ledger::Ledger;
use gl_base::NoMemory;
use message_flow::StepOut;
use std::alloc::Global;
use trace_log::spool_note;

impl Ledger {
    /// Whether the spool is active.
    pub fn is_active(&self) -> bool
        ensures { result ≡ self.now.is_active }
    {
        self.is_active
    }

    /// Makes it active where it isn't, if spooling is enabled.
    pub fn activate(
        &mut self,
        alloc: Global,
        enabled: bool,
        out: &mut StepOut,
    ) -> Result<(), NoMemory>
        ensures next { IfOk result (λ done. self.new ≡ (activated enabled self.old).next) }
        ensures notes { IfOk result
            (λ done. out.new.notes ≡ out.old.notes ++ printed (activated enabled self.old).lines) }
        ensures line { out.new.line ≡ out.old.line }
    {
        if !enabled || self.is_active {
            return Ok(());
        }
        out.notes.push(spool_note(alloc, true)?)?;
        self.is_active = true;
        Ok(())
    }

    /// Makes it inactive where its end is communicating, the list is empty and no unload runs.
    pub fn rest(
        &mut self,
        alloc: Global,
        communicating: bool,
        out: &mut StepOut,
    ) -> Result<(), NoMemory>
        ensures next { IfOk result (λ done. self.new ≡ (rested communicating self.old).next) }
        ensures notes { IfOk result
            (λ done. out.new.notes ≡ out.old.notes ++ printed (rested communicating self.old).lines) }
        ensures line { out.new.line ≡ out.old.line }
    {
        if !communicating || !self.is_active || self.len() > 0 || self.unload.is_some() {
            return Ok(());
        }
        out.notes.push(spool_note(alloc, false)?)?;
        self.is_active = false;
        Ok(())
    }

    /// What an S6F23 is answered: 2 where the spool is inactive, 1 where an unload runs, 0 where it is carried out.
    pub fn rsda(&self) -> u8
        ensures { result ≡ rsda_of self.now }
    {
        if !self.is_active {
            return 2;
        }
        if self.unload.is_some() {
            return 1;
        }
        0
    }
}
