//! An unload: messages of the spool go to the host.

ghost use Rattle.std.specs.Prelude.{◌≡◌, ◌≤◌, true, length, IfOk, Some};
ghost use Rattle.message_end.specs.Core.{is_crowded_out};
ghost use Rattle.gem_shapes.specs.Elements.{identifier};
ghost use Rattle.equipment_tables.specs.Tables.{most_transmitted};
ghost use Rattle.spool_ledger.specs.Unloading.{after_next, next_number};
ghost use Rattle.tool_core.specs.Carried.{IsTakenBack, drawing_turn};
ghost use Rattle.tool_core.specs.Judged.{IsShort};
ghost use Rattle.tool_core.specs.Node.{own_of};
ghost use Rattle.tool_step.specs.Own.{with_ledger};
ghost use Rattle.tool_step.specs.Replies.{denied_turn};
ghost use Rattle.tool_step.specs.Sent.{grant_item, text_of};
ghost use Rattle.tool_step.specs.Spooling.{dataid_in, end_of_spooling, first_number, grant_given_turn, inquiry_turn, needs_grant, taking_turn, unloaded_own, unloading_turn};
ghost use Rattle.tool_step.specs.Taking.{waiting_turn};
ghost use Rattle.tool_core.specs.Turns.{HasTakenPart, TakesPart};

use crate::own::Tool;
use crate::primaries::{grant_item, unload_request};
use crate::routing::{EVENT_NAME, ONE_BLOCK};
use crate::spoolable::Spoolable;
use equipment_tables::{Answer, bounded};
use gl_base::NoMemory;
use message_end::Stop;
use message_flow::StepOut;
use secs_items::{ItemView, check};
use spool_ledger::WaitingText;
use std::alloc::Global;
use tool_step::Kind;
use trace_log::denied_note;

impl Tool {
    /// The number of the message that is to be taken up, if one is.
    pub fn next_unload(&mut self) -> Option<u64>
        ensures number { result ≡ next_number (most_transmitted (own_of self.old.own).tables) self.old.own.ledger }
        ensures own { own_of self.new.own ≡ with_ledger
            (after_next (most_transmitted (own_of self.old.own).tables) self.old.own.ledger) (own_of self.old.own) }
        ensures core { self.new.core ≡ self.old.core }
    {
        let most = self.own.tables.most_transmitted();
        self.own.ledger.next_unload(most)
    }

    /// The message with this number was read: it is taken up, and goes to the host. That of the try before goes out no
    /// further, should it wait still.
    pub(crate) fn take_up(
        &mut self,
        alloc: Global,
        number: u64,
        report: Spoolable,
        out: &mut StepOut,
    ) -> Result<(), Stop>
        ensures does { TakesPart (taking_turn (Some number) (Some report)) self.old out.old self.new out.new result }
        ensures line { out.new.line ≡ out.old.line }
    {
        self.stop_last();
        self.take_up_next(alloc, number, report, out)
    }

    // The message that was tried last waits no longer.
    fn stop_last(&mut self)
        ensures own { own_of self.new.own ≡ own_of self.old.own }
        ensures core { IsTakenBack self.old.own.tried self.old.core self.new.core }
    {
        match self.own.tried {
            Some(last) => {
                self.core.remove(true, last);
            }
            None => {}
        }
    }

    // The message with this number is taken up, with none before it on its way.
    fn take_up_next(
        &mut self,
        alloc: Global,
        number: u64,
        report: Spoolable,
        out: &mut StepOut,
    ) -> Result<(), Stop>
        ensures does { TakesPart (drawing_turn number report) self.old out.old self.new out.new result }
        ensures line { out.new.line ≡ out.old.line }
    {
        let system = self.core.draw(out)?;
        self.own.tried = Some(system);
        if needs_grant(&report) {
            return self.take_up_long(alloc, number, system, report, out);
        }
        self.own.ledger.take_up(alloc, number, system, None, out)?;
        self.send_unloaded(alloc, report, out)
    }

    // An S6F11 of several blocks is taken up under these system bytes. It waits for its grant.
    fn take_up_long(
        &mut self,
        alloc: Global,
        number: u64,
        system: u32,
        report: Spoolable,
        out: &mut StepOut,
    ) -> Result<(), Stop>
        ensures does { TakesPart (waiting_turn number system report) self.old out.old self.new out.new result }
        ensures line { out.new.line ≡ out.old.line }
    {
        let text = self.grant_text(alloc, &report)?;
        let waiting = WaitingText::new(report.into_body());
        self.own
            .ledger
            .take_up(alloc, number, system, Some(waiting), out)?;
        self.ask_for_unload(alloc, text, out)
    }

    // The text that asks for a grant to send a report.
    fn grant_text(&self, alloc: Global, report: &Spoolable) -> Result<Answer, NoMemory>
        ensures text { IfOk result (λ text. text
            ≡ text_of (own_of self.now.own) (grant_item (dataid_in report.now.body) (length report.now.body))) }
        ensures short { IfOk result IsShort }
    {
        let item = grant_item(alloc, dataid_in(report.body.as_slice()), report.len())?;
        bounded(alloc, &item, self.own.max_body())
    }

    // Asks by this text for a grant to send the message that was taken up.
    fn ask_for_unload(&mut self, alloc: Global, text: Answer, out: &mut StepOut) -> Result<(), Stop>
        requires { IsShort text }
        ensures does { TakesPart (inquiry_turn text) self.old out.old self.new out.new result }
        ensures line { out.new.line ≡ out.old.line }
    {
        match text {
            Answer::Body(text) => {
                if !self.core.primary(alloc, unload_request(text), out)? {
                    self.own.ledger.end_unload();
                }
                Ok(())
            }
            Answer::TooLong => {
                self.own.ledger.end_unload();
                Ok(())
            }
        }
    }

    // A message of the spool goes under the number that was drawn for it. One without room ends the unload.
    fn send_unloaded(
        &mut self,
        alloc: Global,
        report: Spoolable,
        out: &mut StepOut,
    ) -> Result<(), Stop>
        ensures does { TakesPart (unloading_turn report) self.old out.old self.new out.new result }
        ensures line { out.new.line ≡ out.old.line }
    {
        let crowded = self.is_crowded();
        self.core
            .drawn_primary(alloc, report.unsent(Kind::Unload), out)?;
        if crowded {
            self.own.ledger.end_unload();
        }
        Ok(())
    }

    // Whether there is no room for a primary in a transaction.
    fn is_crowded(&self) -> bool
        ensures { result ≡ is_crowded_out true self.now.core }
    {
        self.core.open() >= 64 || self.core.len() >= 128
    }

    /// The message under way is granted.
    pub(crate) fn let_go(&mut self, alloc: Global, out: &mut StepOut) -> Result<(), Stop>
        ensures does { TakesPart grant_given_turn self.old out.old self.new out.new result }
        ensures line { out.new.line ≡ out.old.line }
    {
        match self.own.ledger.granted() {
            Some(waiting) => {
                self.send_unloaded(alloc, Spoolable::of_event(waiting.into_body()), out)
            }
            None => Ok(()),
        }
    }

    /// The message under way gets no grant: the unload ends, and the message stays.
    pub(crate) fn deny_unload(&mut self, alloc: Global, out: &mut StepOut) -> Result<(), NoMemory>
        ensures does { IfOk result (λ done. HasTakenPart
            (λ own core. denied_turn (unloaded_own own)) self.old out.old self.new out.new) }
        ensures line { out.new.line ≡ out.old.line }
    {
        self.own.ledger.end_unload();
        out.notes.push(denied_note(alloc, EVENT_NAME)?)
    }

    /// Where nothing is left of the spool, spooling ends.
    pub(crate) fn end_spooling(&mut self, alloc: Global, out: &mut StepOut) -> Result<(), NoMemory>
        ensures does { IfOk result (λ done. HasTakenPart end_of_spooling self.old out.old self.new out.new) }
        ensures line { out.new.line ≡ out.old.line }
    {
        let communicating = self.own.is_communicating();
        self.own.ledger.rest(alloc, communicating, out)
    }
}

// Whether it is an S6F11 of several blocks.
fn needs_grant(report: &Spoolable) -> bool
    ensures { result ≡ needs_grant report.now }
{
    report.stream == 6 && report.function == 11 && report.body.len() > ONE_BLOCK
}

// The DATAID in the text of an S6F11, 0 where there is none.
pub(crate) fn dataid_in(body: &[u8]) -> u32
    ensures { result ≡ dataid_in body.now }
{
    match check(body) {
        Ok(view) => first_number(&view).unwrap_or(0),
        Err(_) => 0,
    }
}

// The first element of a list, where it is a number of at most 32 bits.
fn first_number(view: &ItemView<'_>) -> Option<u32>
    ensures { result ≡ first_number view.now.item }
{
    match view.child(0) {
        Some(first) => identifier(&first),
        None => None,
    }
}

// A number of at most 32 bits.
fn identifier(view: &ItemView<'_>) -> Option<u32>
    ensures { result ≡ identifier view.now.item }
{
    match view.number() {
        Some(number) if number < 1 << 32 => Some(number as u32),
        _ => None,
    }
}
