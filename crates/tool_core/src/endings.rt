//! How all open messages end.

ghost use Rattle.std.specs.Prelude.{◌≡◌, ◌++◌, ◌<◌, ◌^◌, ◌&&◌, ◌||◌, if◌then◌else◌, IfOk, OnOk};
ghost use Rattle.gem_states.specs.Control.{ControlView, control_next};
ghost use Rattle.gem_states.specs.declared.control.ControlIn.TheVariants.{AttemptFailed};
ghost use Rattle.message_end.specs.Core.{EndView};
ghost use Rattle.message_end.specs.Endings.{ends_begun, ends_open, notes_failed};
ghost use Rattle.message_end.specs.Parts.{AreCarried, AreDone};
ghost use Rattle.equipment_tables.specs.Tables.{may_spool};
ghost use Rattle.tool_step.specs.declared.kind.Kind.{Kind};
ghost use Rattle.tool_core.specs.Carried.{FailsAlike};
ghost use Rattle.tool_core.specs.Ending.{all_stored, as_list, ends_with, stores_turn, with_active};
ghost use Rattle.tool_core.specs.Node.{own_of};
ghost use Rattle.tool_step.specs.Own.{with_control};
ghost use Rattle.tool_step.specs.Sampling.{notes_data_unsent};
ghost use Rattle.tool_step.specs.States.{begins_spooling, control_after_loss, control_commands, ending_commands, is_attempt_kind, end_of_talk, notes_unsent, stored_by, without_open};
ghost use Rattle.tool_core.specs.Turns.{TakesPart, TakesTurn};

use crate::awaiting::copy_awaiting;
use crate::own::{Own, Tool};
use crate::routing::{EVENT_NAME, TRACE_NAME};
use crate::spoolable::Spoolable;
use crate::states::{is_same_comms, note_comms, note_control};
use block_codec::Header;
use gem_states::{CommsIn, CommsState, ControlIn, ControlState};
use gl_base::NoMemory;
use message_end::Stop;
use message_flow::StepOut;
use std::alloc::Global;
use std::collections::VecDeque;
use tool_step::Kind;
use trace_log::{Title, dropped_note, failed_note};

impl Tool {
    /// The communication meets an input by which all open messages end, where it changes the state. A block with the
    /// header that is given failed. An unload ends, and spooling begins where the communication is lost or can't be
    /// established.
    pub(crate) fn end_talk(
        &mut self,
        alloc: Global,
        input: CommsIn,
        failed: Option<Header>,
        now: u64,
        out: &mut StepOut,
    ) -> Result<(), Stop>
        requires { now < 2 ^ 62 }
        ensures does { TakesPart (end_of_talk input failed now) self.old out.old self.new out.new result }
        ensures line { out.new.line ≡ out.old.line }
    {
        let old = self.own.comms.state();
        // (where the state stays the deadline does, since it runs in WAIT DELAY alone)
        let _deadline = self.own.comms.deadline();
        let delay = self.own.tables.delay();
        let output = self.own.comms.step(input, delay, now);
        let new = self.own.comms.state();
        if is_same_comms(old, new) {
            return Ok(());
        }
        let begins = begins_spooling(old, new);
        let enabled = self.own.activates(begins);
        let active = self.own.stores_open(begins);
        self.own.ledger.end_unload();
        let reports = self.end_open(alloc, active, failed, out)?;
        note_comms(alloc, old, new, out)?;
        self.own.ledger.activate(alloc, enabled, out)?;
        match self.store_all(alloc, reports, out) {
            Ok(()) => self.request(alloc, output, out),
            Err(stop) => Err(stop),
        }
    }

    // All open messages end. The answer is the reports among them that are to be stored, if the spool is active then.
    fn end_open(
        &mut self,
        alloc: Global,
        active: bool,
        failed: Option<Header>,
        out: &mut StepOut,
    ) -> Result<VecDeque<Spoolable>, NoMemory>
        ensures own { IfOk result (λ reports. own_of self.new.own ≡ without_open (own_of self.old.own) self.old.core) }
        ensures does { IfOk result (λ reports. AreDone
            (ends_open (ends_with active (own_of self.old.own)) self.old.core failed)
            self.old.core out.old self.new.core out.new) }
        ensures stored { IfOk result (λ reports. reports.items
            ≡ all_stored active (own_of self.old.own) self.old.core) }
        ensures line { out.new.line ≡ out.old.line }
    {
        let was_open = match &failed {
            Some(header) => self.core.is_of_open(header),
            None => false,
        };
        let reports = self.end_begun(alloc, active, out)?;
        self.own.for_grant.clear();
        self.own.reports.clear();
        self.own.tracing.for_grant.clear();
        if let Some(header) = failed {
            self.core.end_failed(alloc, was_open, &header, out)?;
        }
        self.core.end_waiting(alloc, out)?;
        Ok(reports)
    }

    // Ends the messages whose transactions are open, in the order in which these began, with what is lost by each. The
    // answer is the reports among them that are to be stored.
    fn end_begun(
        &mut self,
        alloc: Global,
        active: bool,
        out: &mut StepOut,
    ) -> Result<VecDeque<Spoolable>, NoMemory>
        ensures own { IfOk result (λ reports. own_of self.new.own
            ≡ with_control (control_after_loss self.old.own.control self.old.core) (own_of self.old.own)) }
        ensures does { IfOk result (λ reports. AreCarried
            (ends_begun (ends_with active (own_of self.old.own)) self.old.core)
            self.old.core out.old self.new.core out.new) }
        ensures stored { IfOk result (λ reports. reports.items
            ≡ all_stored active (own_of self.old.own) self.old.core) }
        ensures line { out.new.line ≡ out.old.line }
    {
        let first = self.own.control.state();
        let mut reports = VecDeque::new(alloc);
        'transactions: while let Some(primary) = self.core.end_first() {
            let stored = self
                .own
                .stored_by(alloc, active, primary.1, primary.0.system)?;
            self.own
                .end_one(alloc, &primary.0, primary.1, &stored, first, out)?;
            put_behind(&mut reports, stored)?;
        }
        Ok(reports)
    }

    // Reports are to be stored, in their order.
    fn store_all(
        &mut self,
        alloc: Global,
        reports: VecDeque<Spoolable>,
        out: &mut StepOut,
    ) -> Result<(), Stop>
        ensures does { TakesTurn (stores_turn reports.items) self.old out.old self.new out.new result }
        ensures line { out.new.line ≡ out.old.line }
    {
        let mut reports = reports;
        'reports: while let Some(report) = reports.pop_front() {
            self.store(alloc, report, out)?;
        }
        Ok(())
    }
}

impl Own {
    // Whether the spool may become active, as spooling begins or doesn't.
    fn activates(&self, begins: bool) -> bool
        ensures { result ≡ (begins && may_spool (own_of self.now).tables) }
    {
        begins && self.tables.may_spool()
    }

    // Whether what is open is stored as it ends: where spooling begins and the spool is active then.
    fn stores_open(&self, begins: bool) -> bool
        ensures { result ≡ (begins && (may_spool (own_of self.now).tables || (own_of self.now).ledger.is_active)) }
    {
        begins && (self.tables.may_spool() || self.ledger.is_active())
    }

    // What is to be stored of an open transaction of this kind, whose primary has these system bytes: a report that was
    // sent, or that waits for a grant, where the spool is active and the rule covers it.
    fn stored_by(
        &self,
        alloc: Global,
        active: bool,
        kind: Kind,
        system: u32,
    ) -> Result<Option<Spoolable>, NoMemory>
        ensures { IfOk result (λ report. report
            ≡ stored_by (with_active active (own_of self.now)) kind system) }
    {
        if !active {
            return Ok(None);
        }
        let report = match kind {
            Kind::Report => copy_awaiting(alloc, &self.reports, system)?,
            Kind::Grant => copy_awaiting(alloc, &self.for_grant, system)?,
            Kind::Establish
            | Kind::Attempt
            | Kind::Unload
            | Kind::UnloadGrant
            | Kind::Trace
            | Kind::TraceGrant => None,
        };
        match report {
            Some(report) if self.is_covered(&report) => Ok(Some(report)),
            _ => Ok(None),
        }
    }

    // What comes of it that an open transaction of this kind ends, the last block of whose primary has this header:
    // what is stored of it is known. The control stood in this state before any has ended.
    fn end_one(
        &mut self,
        alloc: Global,
        header: &Header,
        kind: Kind,
        stored: &Option<Spoolable>,
        first: ControlState,
        out: &mut StepOut,
    ) -> Result<(), NoMemory>
        ensures notes { IfOk result (λ done. (was : ControlView) (e : EndView Kind)
            → FailsAlike was first self.old.control
            → AreCarried (ending_commands was stored.now kind header.now) e out.old e out.new) }
        ensures own { IfOk result (λ done. own_of self.new ≡ with_control
            (if is_attempt_kind kind then control_next self.old.control AttemptFailed else self.old.control)
            (own_of self.old)) }
        ensures line { out.new.line ≡ out.old.line }
    {
        match kind {
            Kind::Establish => note_failed(alloc, header, out),
            Kind::Unload => note_failed(alloc, header, out),
            Kind::Trace => note_failed(alloc, header, out),
            Kind::Attempt => {
                note_failed(alloc, header, out)?;
                self.lose_attempt(alloc, first, out)
            }
            Kind::Report => {
                match stored {
                    Some(_) => Ok(()),
                    None => note_failed(alloc, header, out),
                }
            }
            Kind::Grant => {
                note_failed(alloc, header, out)?;
                match stored {
                    Some(_) => Ok(()),
                    None => note_unsent(alloc, out),
                }
            }
            Kind::UnloadGrant => {
                note_failed(alloc, header, out)?;
                note_unsent(alloc, out)
            }
            Kind::TraceGrant => {
                note_failed(alloc, header, out)?;
                note_data_unsent(alloc, out)
            }
        }
    }

    // An attempt to be on-line is lost. The control stood in this state before any has ended.
    fn lose_attempt(
        &mut self,
        alloc: Global,
        first: ControlState,
        out: &mut StepOut,
    ) -> Result<(), NoMemory>
        ensures notes { IfOk result (λ done. (was : ControlView) (e : EndView Kind)
            → FailsAlike was first self.old.control
            → AreCarried (control_commands AttemptFailed was) e out.old e out.new) }
        ensures own { IfOk result (λ done. own_of self.new
            ≡ with_control (control_next self.old.control AttemptFailed) (own_of self.old)) }
        ensures line { out.new.line ≡ out.old.line }
    {
        self.control.step(ControlIn::AttemptFailed);
        note_control(alloc, first, self.control.state(), out)
    }
}

// Puts a report behind others, if there is one.
fn put_behind(reports: &mut VecDeque<Spoolable>, report: Option<Spoolable>) -> Result<(), NoMemory>
    ensures { OnOk result (reports.new.items ≡ reports.old.items ++ as_list report) }
{
    match report {
        Some(report) => match reports.push_back(report) {
            Ok(()) => Ok(()),
            Err(_failed) => Err(NoMemory),
        },
        None => Ok(()),
    }
}

// Notes a message that has failed.
fn note_failed(alloc: Global, header: &Header, out: &mut StepOut) -> Result<(), NoMemory>
    ensures notes { IfOk result (λ done. (e : EndView Kind)
        → AreCarried (notes_failed header.now) e out.old e out.new) }
    ensures line { out.new.line ≡ out.old.line }
{
    out.notes.push(failed_note(alloc, Title::of_block(header))?)
}

// Notes an S6F11 that isn't sent.
fn note_unsent(alloc: Global, out: &mut StepOut) -> Result<(), NoMemory>
    ensures notes { IfOk result (λ done. (e : EndView Kind) → AreCarried notes_unsent e out.old e out.new) }
    ensures line { out.new.line ≡ out.old.line }
{
    out.notes.push(dropped_note(alloc, EVENT_NAME)?)
}

// Notes an S6F1 that isn't sent.
fn note_data_unsent(alloc: Global, out: &mut StepOut) -> Result<(), NoMemory>
    ensures notes { IfOk result (λ done. (e : EndView Kind) → AreCarried notes_data_unsent e out.old e out.new) }
    ensures line { out.new.line ≡ out.old.line }
{
    out.notes.push(dropped_note(alloc, TRACE_NAME)?)
}

// Whether spooling begins by this change of the communication: where it is lost, and where it can't be established.
fn begins_spooling(old: CommsState, new: CommsState) -> bool
    ensures { result ≡ begins_spooling old new }
{
    matches!(
        (old, new),
        (CommsState::Communicating, CommsState::WaitCra)
            | (CommsState::WaitCra, CommsState::WaitDelay)
    )
}
