//! Reports: what becomes of one that was made.

ghost use Rattle.std.specs.Prelude.{◌≡◌, ◌<◌, ◌≤◌, ◌%◌, ◌∷◌, [], true, length};
ghost use Rattle.block_codec.specs.Protocol.{longest_text};
ghost use Rattle.message_end.specs.Core.Command.{Primary};
ghost use Rattle.message_end.specs.Parts.{fixed_turn};
ghost use Rattle.tool_core.specs.Judged.{IsJudged, IsShort, report_named};
ghost use Rattle.tool_core.specs.Node.{node_of, own_of};
ghost use Rattle.tool_step.specs.Own.{is_online};
ghost use Rattle.tool_step.specs.Sent.{event_turn, going_turn, grant_request, grant_turn, granted_own};
ghost use Rattle.tool_core.specs.Turns.{TakesPart};

use crate::own::Tool;
use crate::primaries::{grant_item, grant_request};
use crate::sending::note_dropped;
use crate::spoolable::{ForGrant, Live, Spoolable};
use equipment_tables::{Answer, bounded};
use gl_base::Row;
use message_end::Stop;
use message_flow::StepOut;
use std::alloc::Global;
use tool_step::Kind;
use trace_log::{Name, too_long_note};

/// The name of an event's report.
pub(crate) const EVENT_NAME: Name = Name {
    stream: 6,
    function: 11,
    wait: true,
};

/// The name of an alarm's report.
pub(crate) const ALARM_NAME: Name = Name {
    stream: 5,
    function: 1,
    wait: true,
};

/// The name of a terminal's report.
pub(crate) const TERMINAL_NAME: Name = Name {
    stream: 10,
    function: 1,
    wait: true,
};

/// The name of S6F1.
pub(crate) const TRACE_NAME: Name = Name {
    stream: 6,
    function: 1,
    wait: true,
};

/// The longest text of one block.
pub(crate) const ONE_BLOCK: usize = 244;

impl Tool {
    /// A report of this name was made, on-line, with this text. One that is too long is noted. While the spool is
    /// active it is stored there, where the rule covers it. Else its body is the answer, to go to the host, where the
    /// communication is established, and it is dropped where it isn't.
    pub(crate) fn route_text(
        &mut self,
        alloc: Global,
        name: Name,
        text: Answer,
        out: &mut StepOut,
    ) -> Result<Option<Row<u8>>, Stop>
        requires short { IsShort text }
        requires online { is_online (own_of self.old.own) ≡ true }
        requires stream { name.stream < 128 }
        requires function { name.function % 2 ≡ 1 }
        requires wait { name.wait ≡ true }
        ensures judged { IsJudged (report_named name) text
            (node_of self.old) out.old (node_of self.new) out.new result }
        ensures line { out.new.line ≡ out.old.line }
    {
        match text {
            Answer::Body(body) => self.route_body(alloc, name, body, out),
            Answer::TooLong => {
                out.notes.push(too_long_note(alloc, name)?)?;
                Ok(None)
            }
        }
    }

    // A report that isn't too long.
    fn route_body(
        &mut self,
        alloc: Global,
        name: Name,
        body: Row<u8>,
        out: &mut StepOut,
    ) -> Result<Option<Row<u8>>, Stop>
        requires short { length body ≤ longest_text }
        requires online { is_online (own_of self.old.own) ≡ true }
        requires stream { name.stream < 128 }
        requires function { name.function % 2 ≡ 1 }
        requires wait { name.wait ≡ true }
        ensures judged { IsJudged (report_named name) (Answer.Body body)
            (node_of self.old) out.old (node_of self.new) out.new result }
        ensures line { out.new.line ≡ out.old.line }
    {
        if self.own.is_spooled(name) {
            self.store(alloc, Spoolable::named(name, body), out)?;
            return Ok(None);
        }
        if self.own.is_communicating() {
            return Ok(Some(body));
        }
        note_dropped(alloc, name, out)?;
        Ok(None)
    }

    /// Sends a report, and keeps it until it is answered.
    pub(crate) fn send_report(
        &mut self,
        alloc: Global,
        report: Spoolable,
        out: &mut StepOut,
    ) -> Result<(), Stop>
        ensures does { TakesPart (going_turn report) self.old out.old self.new out.new result }
        ensures line { out.new.line ≡ out.old.line }
    {
        let system = self.core.next();
        let kept = report.copy(alloc)?;
        if !self.core.primary(alloc, report.unsent(Kind::Report), out)? {
            return Ok(());
        }
        self.own.await_answer(Live::new(system, kept))?;
        Ok(())
    }

    /// Sends the report of an event, or asks for a grant first where it takes several blocks.
    pub(crate) fn report_event(
        &mut self,
        alloc: Global,
        dataid: u32,
        body: Row<u8>,
        out: &mut StepOut,
    ) -> Result<(), Stop>
        requires { length body ≤ longest_text }
        ensures does { TakesPart (event_turn dataid body) self.old out.old self.new out.new result }
        ensures line { out.new.line ≡ out.old.line }
    {
        if body.len() <= ONE_BLOCK {
            return self.send_report(alloc, Spoolable::named(EVENT_NAME, body), out);
        }
        self.ask_for_grant(alloc, dataid, body, out)
    }

    // Asks for a grant to send the report of an event.
    fn ask_for_grant(
        &mut self,
        alloc: Global,
        dataid: u32,
        body: Row<u8>,
        out: &mut StepOut,
    ) -> Result<(), Stop>
        requires { length body ≤ longest_text }
        ensures does { TakesPart (grant_turn dataid body) self.old out.old self.new out.new result }
        ensures line { out.new.line ≡ out.old.line }
    {
        let item = grant_item(alloc, dataid, body.len() as u32)?;
        match bounded(alloc, &item, self.own.max_body())? {
            Answer::Body(text) => self.ask_by(alloc, text, body, out),
            Answer::TooLong => Ok(()),
        }
    }

    // Asks for a grant by this text, and keeps the report until it is granted.
    fn ask_by(
        &mut self,
        alloc: Global,
        text: Row<u8>,
        body: Row<u8>,
        out: &mut StepOut,
    ) -> Result<(), Stop>
        requires text { length text ≤ longest_text }
        requires body { length body ≤ longest_text }
        ensures does { TakesPart
            (λ own core. fixed_turn (granted_own body own core) (Primary (grant_request text) ∷ []))
            self.old out.old self.new out.new result }
        ensures line { out.new.line ≡ out.old.line }
    {
        let system = self.core.next();
        if !self.core.primary(alloc, grant_request(text), out)? {
            return Ok(());
        }
        self.own.keep(ForGrant::new(system, body))?;
        Ok(())
    }
}
