//! What is decided of the spool: which reports are stored, and what the host is answered that asks for it. The disk
//! follows in the same step.

ghost use Rattle.std.specs.Prelude.{◌≡◌, ◌&&◌, ◌∷◌, IfOk};
ghost use Rattle.gem_shapes.specs.Answers as shapes;
ghost use Rattle.spool_rule.specs.Rule.{covered};
ghost use Rattle.tool_core.specs.Judged.{IsShort};
ghost use Rattle.tool_core.specs.Node.{own_of};
ghost use Rattle.tool_step.specs.Own.{turn_of};
ghost use Rattle.tool_step.specs.Sent.{answer_duties, text_of};
ghost use Rattle.tool_step.specs.Spooling.{is_covered, purge_turn, stored_turn, transmit_turn};
ghost use Rattle.tool_core.specs.Turns.{TakesTurn};

use crate::own::{Own, Tool};
use crate::spoolable::Spoolable;
use equipment_tables::{Answer, bounded};
use gem_shapes::code_item;
use gl_base::NoMemory;
use message_end::Stop;
use message_flow::{Message, StepOut};
use std::alloc::Global;
use trace_log::Name;

impl Own {
    /// Whether a new report of this name goes to the spool: while that is active, where the rule covers it.
    pub(crate) fn is_spooled(&self, name: Name) -> bool
        ensures { result ≡ (self.now.ledger.is_active
            && covered (own_of self.now).tables.rule name.stream name.function) }
    {
        self.ledger.is_active() && self.tables.covers(name.stream, name.function)
    }

    /// Whether the rule covers a report.
    pub(crate) fn is_covered(&self, report: &Spoolable) -> bool
        ensures { result ≡ is_covered report.now (own_of self.now) }
    {
        self.tables.covers(report.stream, report.function)
    }
}

impl Tool {
    /// A report is to be stored.
    pub(crate) fn store(
        &mut self,
        alloc: Global,
        report: Spoolable,
        out: &mut StepOut,
    ) -> Result<(), Stop>
        ensures does { TakesTurn (stored_turn report) self.old out.old self.new out.new result }
        ensures line { out.new.line ≡ out.old.line }
    {
        let overwrites = self.own.tables.overwrites();
        let Spoolable {
            stream,
            function,
            body,
        } = report;
        self.own
            .ledger
            .store(alloc, stream, function, body, overwrites, out)
    }

    /// S6F23 with RSDC 0: the messages are to go to the host.
    pub(crate) fn transmit(
        &mut self,
        alloc: Global,
        message: &Message,
        out: &mut StepOut,
    ) -> Result<(), Stop>
        ensures does { TakesTurn (transmit_turn message.now) self.old out.old self.new out.new result }
        ensures line { out.new.line ≡ out.old.line }
    {
        let rsda = self.own.ledger.rsda();
        if rsda == 0 {
            self.own.ledger.begin_unload();
        }
        self.answer_code(alloc, rsda, message, out)
    }

    /// S6F23 with RSDC 1: all messages leave.
    pub(crate) fn purge(
        &mut self,
        alloc: Global,
        message: &Message,
        out: &mut StepOut,
    ) -> Result<(), Stop>
        ensures does { TakesTurn (purge_turn message.now) self.old out.old self.new out.new result }
        ensures line { out.new.line ≡ out.old.line }
    {
        let rsda = self.own.ledger.rsda();
        if rsda == 0 {
            self.own.ledger.purge(alloc, out)?;
        }
        self.answer_code(alloc, rsda, message, out)
    }

    /// Answers a message by a code.
    pub(crate) fn answer_code(
        &mut self,
        alloc: Global,
        code: u8,
        message: &Message,
        out: &mut StepOut,
    ) -> Result<(), Stop>
        ensures does { TakesTurn (λ own. turn_of own (answer_duties (text_of own (shapes.code_item code)) message.now))
            self.old out.old self.new out.new result }
        ensures line { out.new.line ≡ out.old.line }
    {
        let answer = self.code_text(alloc, code)?;
        self.answer_by(alloc, answer, message, out)
    }

    // The text of a code.
    fn code_text(&self, alloc: Global, code: u8) -> Result<Answer, NoMemory>
        ensures text { IfOk result (λ text. text ≡ text_of (own_of self.now.own) (shapes.code_item code)) }
        ensures short { IfOk result IsShort }
    {
        let item = code_item(alloc, code)?;
        bounded(alloc, &item, self.own.max_body())
    }
}
