//! How the equipment treats a whole message of the host.

ghost use Rattle.std.specs.Prelude.{IfOk, ◌≡◌, ◌<◌, ◌≤◌, ◌^◌, ◌∷◌, [], length};
ghost use Rattle.block_codec.specs.Protocol.{longest_text};
ghost use Rattle.block_codec.specs.Header.{Fits};
ghost use Rattle.secs_items.specs.Checking.{check_of};
ghost use Rattle.message_end.specs.Parts.{AreCarried, after_turn, on_the_way};
ghost use Rattle.message_end.specs.Core.Went.{Goes};
ghost use Rattle.trace_log.specs.Text.{printed_note};
ghost use Rattle.tool_core.specs.Node.{node_of, own_of};
ghost use Rattle.tool_core.specs.OwnS1F13.{place_behind};
ghost use Rattle.tool_step.specs.Own.{turn_of};
ghost use Rattle.tool_core.specs.Judged.{IsShort};
ghost use Rattle.tool_step.specs.Sent.{answer_duties, text_of};
ghost use Rattle.tool_step.specs.Setup.{accepted_item as accepted};
ghost use Rattle.tool_step.specs.Step.{answering};
ghost use Rattle.tool_step.specs.Messages.{answer_turn, control_request_turn, dropped_turn, established_duties, established_turn, is_establish_request, is_online_request, keep_turn, known_turn, message_turn, offline_turn, own_s1f13_commands, own_s1f13_duty, primary_turn, request_turn, requested_turn, stray_turn, unkept_turn};
ghost use Rattle.equipment_tables.specs.Requests.{IsAsked, IsAskedOfTables};
ghost use Rattle.tool_core.specs.Turns.{TakesPart, TakesTurn};

use crate::own::Tool;
use crate::sending::note_dropped;
use crate::setup::{KeptSetup, NextSetup, change, has_space_code, note_keeping, untold};
use block_codec::Header;
use equipment_tables::{Answer, bounded, request_of};
use gem_shapes::{Request, TablesRequest, code_item, is_known};
use gem_states::{CommsIn, ControlIn, ControlOut};
use gem_trace::TraceRequest;
use gl_base::{NoMemory, Row};
use message_end::Stop;
use message_flow::{Message, StepOut};
use secs_items::{BodyCheck, Item};
use spool_rule::RuleAnswer;
use std::alloc::Global;
use tool_step::{Kind, Owed};
use trace_log::Name;

// DRACK and LRACK for want of space.
const NO_SPACE: u8 = 1;

impl Tool {
    /// A whole message came, the last block of which has this header, and the check of its text.
    pub(crate) fn heed(
        &mut self,
        alloc: Global,
        header: &Header,
        message: &Message,
        check: &BodyCheck,
        now: u64,
        out: &mut StepOut,
    ) -> Result<(), Stop>
        requires now { now < 2 ^ 62 }
        requires header { Fits header.now }
        requires checked { check.now ≡ check_of message.now.body }
        requires short { length message.now.body ≤ longest_text }
        ensures does { TakesPart (message_turn now header.now message.now) self.old out.old self.new out.new result }
        ensures line { out.new.line ≡ out.old.line }
    {
        if !self.own.is_enabled() {
            self.drop_message(alloc, message, out)?;
            return Ok(());
        }
        if message.function % 2 == 1 {
            return self.heed_primary(alloc, header, message, check, now, out);
        }
        self.take_reply(alloc, header, message, check, now, out)
    }

    // A whole primary came.
    fn heed_primary(
        &mut self,
        alloc: Global,
        header: &Header,
        message: &Message,
        check: &BodyCheck,
        now: u64,
        out: &mut StepOut,
    ) -> Result<(), Stop>
        requires now { now < 2 ^ 62 }
        requires header { Fits header.now }
        requires checked { check.now ≡ check_of message.now.body }
        requires short { length message.now.body ≤ longest_text }
        ensures does { TakesTurn (primary_turn now header.now message.now) self.old out.old self.new out.new result }
        ensures line { out.new.line ≡ out.old.line }
    {
        if is_establish_request(message) {
            return self.establish(alloc, message, now, out);
        }
        if !self.own.is_communicating() {
            return self.drop_stray(alloc, message, now, out);
        }
        if !self.own.is_online() && !is_online_request(message) {
            return self.abort_offline(alloc, message, out);
        }
        self.read(alloc, header, message, check, now, out)
    }

    // A message comes while the communication isn't established.
    fn drop_stray(
        &mut self,
        alloc: Global,
        message: &Message,
        now: u64,
        out: &mut StepOut,
    ) -> Result<(), Stop>
        requires { now < 2 ^ 62 }
        ensures does { TakesTurn (stray_turn now message.now) self.old out.old self.new out.new result }
        ensures line { out.new.line ≡ out.old.line }
    {
        self.drop_message(alloc, message, out)?;
        self.meet(alloc, CommsIn::OtherMessage, now, out)
    }

    // A message is dropped.
    fn drop_message(
        &self,
        alloc: Global,
        message: &Message,
        out: &mut StepOut,
    ) -> Result<(), NoMemory>
        ensures does { IfOk result (λ done. after_turn printed_note
            (dropped_turn message.now (own_of self.now.own))
            (on_the_way (node_of self.now) out.old) ≡ Goes (on_the_way (node_of self.now) out.new)) }
        ensures line { out.new.line ≡ out.old.line }
    {
        note_dropped(alloc, Name::of(message), out)
    }

    // Off-line a request is aborted, and dropped where it awaits no reply.
    fn abort_offline(
        &mut self,
        alloc: Global,
        message: &Message,
        out: &mut StepOut,
    ) -> Result<(), Stop>
        ensures does { TakesTurn (offline_turn message.now) self.old out.old self.new out.new result }
        ensures line { out.new.line ≡ out.old.line }
    {
        if message.wait {
            return self.abort(alloc, message, out);
        }
        self.drop_message(alloc, message, out)?;
        Ok(())
    }

    // S1F13: the communication is established.
    fn establish(
        &mut self,
        alloc: Global,
        message: &Message,
        now: u64,
        out: &mut StepOut,
    ) -> Result<(), Stop>
        requires { now < 2 ^ 62 }
        ensures does { TakesTurn (established_turn now message.now) self.old out.old self.new out.new result }
        ensures line { out.new.line ≡ out.old.line }
    {
        self.end_own_s1f13();
        match self.meet(alloc, CommsIn::HostRequest, now, out) {
            Ok(()) => self.accept(alloc, message, out),
            Err(stop) => Err(stop),
        }
    }

    // S1F13 is accepted.
    fn accept(&mut self, alloc: Global, message: &Message, out: &mut StepOut) -> Result<(), Stop>
        ensures does { TakesTurn (λ own. turn_of own (established_duties message.now own))
            self.old out.old self.new out.new result }
        ensures line { out.new.line ≡ out.old.line }
    {
        let max_body = self.own.max_body();
        let answer = self.own.tables.established(alloc, max_body)?;
        self.answer_by(alloc, answer, message, out)
    }

    // The equipment's own S1F13 ends, each that is open.
    fn end_own_s1f13(&mut self)
        ensures { (out : StepOut) → after_turn printed_note (turn_of (own_of self.old.own) (own_s1f13_duty ∷ []))
            (on_the_way (node_of self.old) out) ≡ Goes (on_the_way (node_of self.new) out) }
    {
        let mut place = 0;
        'requests: while let Some(primary) = self.core.open_at(place) {
            self.end_request(primary.1, primary.0.system);
            let next = place_behind(primary.1, place);
            place = next;
        }
    }

    // A primary of this kind with these system bytes ends, where it is S1F13.
    fn end_request(&mut self, kind: Kind, system: u32)
        ensures own { own_of self.new.own ≡ own_of self.old.own }
        ensures ended { (out : StepOut) → AreCarried (own_s1f13_commands kind system)
            self.old.core out self.new.core out }
    {
        match kind {
            Kind::Establish => {
                self.core.end(system);
                self.core.remove(true, system);
            }
            Kind::Attempt
            | Kind::Grant
            | Kind::Report
            | Kind::Unload
            | Kind::UnloadGrant
            | Kind::Trace
            | Kind::TraceGrant => {}
        }
    }

    // Reads a request, and carries it out.
    fn read(
        &mut self,
        alloc: Global,
        header: &Header,
        message: &Message,
        check: &BodyCheck,
        now: u64,
        out: &mut StepOut,
    ) -> Result<(), Stop>
        requires now { now < 2 ^ 62 }
        requires header { Fits header.now }
        requires checked { check.now ≡ check_of message.now.body }
        requires short { length message.now.body ≤ longest_text }
        ensures does { TakesTurn (known_turn now header.now message.now) self.old out.old self.new out.new result }
        ensures line { out.new.line ≡ out.old.line }
    {
        if !self.own.takes_stream(message.stream) {
            return self.tell_error(alloc, 3, header, out);
        }
        if !is_known(message.stream, message.function) {
            return self.tell_error(alloc, 5, header, out);
        }
        let body = message.body.as_slice();
        match request_of(alloc, message.stream, message.function, body, check)? {
            Some(request) => self.heed_request(alloc, &request, message, now, out),
            None => self.tell_error(alloc, 7, header, out),
        }
    }

    // Carries a request out, unless it changes the setup and there is no room to keep that.
    fn heed_request(
        &mut self,
        alloc: Global,
        request: &Request<'_>,
        message: &Message,
        now: u64,
        out: &mut StepOut,
    ) -> Result<(), Stop>
        requires now { now < 2 ^ 62 }
        requires asked { IsAsked request.now }
        requires short { length message.now.body ≤ longest_text }
        ensures does { TakesTurn (requested_turn now request.now message.now) self.old out.old self.new out.new result }
        ensures line { out.new.line ≡ out.old.line }
    {
        let next = self.own.next_setup(alloc, request, message)?;
        match next {
            NextSetup::Same => self.fulfil(alloc, request, message, now, out),
            NextSetup::Kept(list) => self.keep(alloc, request, list, message, out),
            NextSetup::Over => self.refuse(alloc, message, out),
        }
    }

    // Changes the tables by a request, and keeps this list with it: that is owed to the file, and the answer waits.
    fn keep(
        &mut self,
        alloc: Global,
        request: &Request<'_>,
        list: KeptSetup,
        message: &Message,
        out: &mut StepOut,
    ) -> Result<(), Stop>
        requires { IsAsked request.now }
        ensures does { TakesTurn (keep_turn list request.now message.now) self.old out.old self.new out.new result }
        ensures line { out.new.line ≡ out.old.line }
    {
        change(alloc, request, &mut self.own.tables)?;
        self.own.setup = Some(list);
        self.own.owed = Some(Owed::Keep(untold(alloc, message)));
        note_keeping(alloc, Name::of(message), out)?;
        Ok(())
    }

    // Refuses a change of the setup for which there is no room.
    fn refuse(&mut self, alloc: Global, message: &Message, out: &mut StepOut) -> Result<(), Stop>
        ensures does { TakesTurn (unkept_turn message.now) self.old out.old self.new out.new result }
        ensures line { out.new.line ≡ out.old.line }
    {
        if has_space_code(message) {
            return self.answer_code(alloc, NO_SPACE, message, out);
        }
        self.abort(alloc, message, out)
    }

    /// Answers the primary that waits for what it has asked of an object outside, if one does.
    pub(crate) fn answer_owed(&mut self, alloc: Global, out: &mut StepOut) -> Result<(), Stop>
        ensures does { TakesPart answering self.old out.old self.new out.new result }
        ensures line { out.new.line ≡ out.old.line }
    {
        match self.own.owed.take() {
            Some(Owed::Keep(primary)) => self.accept_kept(alloc, &primary, out),
            Some(Owed::Answered(given, primary)) => {
                self.answer_recipes(alloc, &given, &primary, out)
            }
            // (they are asked before, behind the works)
            Some(Owed::Recipes(_, _)) => Ok(()),
            None => Ok(()),
        }
    }

    // Answers a primary that was kept.
    fn accept_kept(
        &mut self,
        alloc: Global,
        primary: &Message,
        out: &mut StepOut,
    ) -> Result<(), Stop>
        ensures does { TakesTurn
            (λ own. turn_of own (answer_duties (text_of own (accepted primary.now)) primary.now))
            self.old out.old self.new out.new result }
        ensures line { out.new.line ≡ out.old.line }
    {
        let item = accepted_item(alloc, primary)?;
        let answer = bounded(alloc, &item, self.own.max_body())?;
        self.answer_by(alloc, answer, primary, out)
    }

    // Carries a request out, and answers it. S1F13 doesn't come here.
    fn fulfil(
        &mut self,
        alloc: Global,
        request: &Request<'_>,
        message: &Message,
        now: u64,
        out: &mut StepOut,
    ) -> Result<(), Stop>
        requires now { now < 2 ^ 62 }
        requires asked { IsAsked request.now }
        ensures does { TakesTurn (request_turn request.now now message.now) self.old out.old self.new out.new result }
        ensures line { out.new.line ≡ out.old.line }
    {
        match request {
            Request::OfTables(asked) => self.answer(alloc, asked, message, out),
            Request::OfRecipes(asked) => self.ask_recipes(alloc, asked, message, out),
            Request::Establish => self.abort(alloc, message, out),
            Request::GoOffline => self.ask_control(alloc, ControlIn::RequestOffline, message, out),
            Request::GoOnline => self.ask_control(alloc, ControlIn::RequestOnline, message, out),
            Request::TransmitSpool => self.transmit(alloc, message, out),
            Request::PurgeSpool => self.purge(alloc, message, out),
            Request::Trace {
                trid,
                dsper,
                total,
                group,
                svids,
            } => {
                let request = TraceRequest {
                    trid: *trid,
                    dsper: Row::of(alloc, dsper.bytes())?,
                    total: *total,
                    group: *group,
                    svids: Row::of(alloc, svids.as_slice())?,
                };
                self.ask_trace(alloc, &request, message, now, out)
            }
        }
    }

    // The host's request meets the control.
    fn ask_control(
        &mut self,
        alloc: Global,
        input: ControlIn,
        message: &Message,
        out: &mut StepOut,
    ) -> Result<(), Stop>
        ensures does { TakesTurn (control_request_turn input message.now) self.old out.old self.new out.new result }
        ensures line { out.new.line ≡ out.old.line }
    {
        match self.control(alloc, input, out)? {
            ControlOut::Ack(code) => {
                let item = code_item(alloc, code)?;
                let answer = bounded(alloc, &item, self.own.max_body())?;
                self.answer_by(alloc, answer, message, out)
            }
            ControlOut::Abort => self.abort(alloc, message, out),
            ControlOut::Nothing | ControlOut::SendAttempt => Ok(()),
        }
    }

    // The tables carry a request out and answer it.
    fn answer(
        &mut self,
        alloc: Global,
        request: &TablesRequest<'_>,
        message: &Message,
        out: &mut StepOut,
    ) -> Result<(), Stop>
        requires { IsAskedOfTables request.now }
        ensures does { TakesTurn (answer_turn request.now message.now) self.old out.old self.new out.new result }
        ensures line { out.new.line ≡ out.old.line }
    {
        let is_local = self.own.is_local();
        let max_body = self.own.max_body();
        let notes = &mut out.notes;
        let answer = self
            .own
            .tables
            .answer(alloc, request, is_local, max_body, notes)?;
        self.answer_by(alloc, answer, message, out)
    }

    /// Answers a message.
    pub(crate) fn answer_by(
        &mut self,
        alloc: Global,
        answer: Answer,
        message: &Message,
        out: &mut StepOut,
    ) -> Result<(), Stop>
        requires { IsShort answer }
        ensures does { TakesTurn (λ own. turn_of own (answer_duties answer message.now))
            self.old out.old self.new out.new result }
        ensures line { out.new.line ≡ out.old.line }
    {
        match answer {
            Answer::Body(body) => self.reply(alloc, message, body, out),
            Answer::TooLong => self.abort_long(alloc, message, out),
        }
    }
}

// How a primary is answered that was kept.
fn accepted_item(alloc: Global, primary: &Message) -> Result<Item, NoMemory>
    ensures { IfOk result (λ item. item ≡ accepted primary.now) }
{
    if primary.function == 43 {
        return RuleAnswer::Replaced.reply(alloc);
    }
    code_item(alloc, 0)
}

// Whether it is S1F13.
fn is_establish_request(message: &Message) -> bool
    ensures { result ≡ is_establish_request message.now }
{
    message.stream == 1 && message.function == 13
}

// Whether it is S1F17, which alone is looked at off-line.
fn is_online_request(message: &Message) -> bool
    ensures { result ≡ is_online_request message.now }
{
    message.stream == 1 && message.function == 17
}

// The place of the next primary behind one of this kind: the same place where that has ended.
fn place_behind(kind: Kind, place: usize) -> usize
    requires { place < 64 }
    ensures { result ≡ place_behind kind place }
{
    match kind {
        Kind::Establish => place,
        Kind::Attempt
        | Kind::Grant
        | Kind::Report
        | Kind::Unload
        | Kind::UnloadGrant
        | Kind::Trace
        | Kind::TraceGrant => place + 1,
    }
}
