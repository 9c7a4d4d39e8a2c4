//! S2F23, the samples of a step, and what becomes of the S6F1 that they bring.

ghost use Rattle.std.specs.Prelude.{◌≡◌, ◌<◌, ◌≤◌, ◌+◌, ◌^◌, ◌∷◌, [], length, replicate, if◌then◌else◌, IfOk, IfSome};
ghost use Rattle.std.specs.List.{slice_get};
ghost use Rattle.std.specs.Option.{option_map};
ghost use Rattle.block_codec.specs.Protocol.{longest_text};
ghost use Rattle.secs_items.specs.Checking.{check_of};
ghost use Rattle.message_end.specs.Core.Command.{Primary};
ghost use Rattle.message_end.specs.Parts.{fixed_turn};
ghost use Rattle.tool_core.specs.Judged.{IsShort};
ghost use Rattle.tool_core.specs.Node.{own_of};
ghost use Rattle.tool_core.specs.Turns.{HasTakenPart, ReachesParts, TakesPart, TakesParts, TakesTurn};
ghost use Rattle.tool_step.specs.Codes.{is_granted_in};
ghost use Rattle.tool_step.specs.Own.{is_online, waiting_data, without_waiting_data};
ghost use Rattle.tool_step.specs.Reports.{unreported_turn};
ghost use Rattle.tool_step.specs.Sampling.{granted_trace_turn, data_inquiry_own, made_part, running_by, sample_parts, sampled_text_turn, sampling, tiaack_code, tiaack_in, trace_data_turn, trace_grant_turn, trace_inquiry, trace_name, trace_turn, denied_data_turn, with_running};
ghost use Rattle.tool_step.specs.Sent.{text_of};

use crate::awaiting::take_awaiting;
use crate::own::Tool;
use crate::primaries::{grant_item, trace_data, trace_inquiry};
use crate::replies::is_granted;
use crate::routing::{ONE_BLOCK, TRACE_NAME};
use crate::sending::note_dropped;
use crate::spoolable::ForGrant;
use crate::unloading::dataid_in;
use equipment_tables::{Answer, bounded};
use gem_shapes::code_item;
use gem_trace::{Tiaack, TraceRequest};
use gl_base::{NoMemory, Row};
use message_end::Stop;
use message_flow::{Message, StepOut};
use secs_items::BodyCheck;
use std::alloc::Global;
use trace_log::{denied_note, too_long_note};

// How many S6F1 the samples of a step bring: as many as there can be.
const MOST_MADE: u32 = 16;

impl Tool {
    /// The host sets a trace, or ends one.
    pub(crate) fn ask_trace(
        &mut self,
        alloc: Global,
        request: &TraceRequest,
        message: &Message,
        now: u64,
        out: &mut StepOut,
    ) -> Result<(), Stop>
        requires { now < 2 ^ 62 }
        ensures does { TakesTurn (trace_turn request.now now message.now) self.old out.old self.new out.new result }
        ensures line { out.new.line ≡ out.old.line }
    {
        let tiaack = self.set_trace(alloc, request, now)?;
        let item = code_item(alloc, tiaack_code(tiaack))?;
        let answer = bounded(alloc, &item, self.own.max_body())?;
        self.answer_by(alloc, answer, message, out)
    }

    // A trace is set, or one ends.
    fn set_trace(
        &mut self,
        alloc: Global,
        request: &TraceRequest,
        now: u64,
    ) -> Result<Tiaack, NoMemory>
        requires { now < 2 ^ 62 }
        ensures answer { IfOk result (λ answer. answer ≡ tiaack_in request.now (own_of self.old.own)) }
        ensures own { IfOk result (λ answer. own_of self.new.own ≡ with_running
            (running_by answer request.now now self.old.own.tracing.running) (own_of self.old.own)) }
        ensures core { self.new.core ≡ self.old.core }
    {
        let vars = self.own.tables.vars();
        self.own.tracing.running.set(alloc, vars, request, now)
    }

    /// Takes the samples that are due, and gives each S6F1 that they bring its turn.
    pub(crate) fn take_samples(
        &mut self,
        alloc: Global,
        now: u64,
        out: &mut StepOut,
    ) -> Result<(), Stop>
        requires { now < 2 ^ 62 }
        ensures does { ReachesParts (sample_parts now) self.old out.old self.new out.new result }
        ensures line { out.new.line ≡ out.old.line }
    {
        match self.sample(alloc, now) {
            Ok(()) => self.route_made(alloc, out),
            Err(NoMemory) => Err(Stop::NoMemory),
        }
    }

    // Takes a sample of each trace that is due.
    fn sample(&mut self, alloc: Global, now: u64) -> Result<(), NoMemory>
        requires { now < 2 ^ 62 }
        ensures { IfOk result (λ done. (out : StepOut) → HasTakenPart (sampling now) self.old out self.new out) }
    {
        let vars = self.own.tables.vars();
        let made = self.own.tracing.running.sample(alloc, vars, now)?;
        self.own.tracing.made = made;
        self.own.tracing.routed = 0;
        Ok(())
    }

    // Gives each S6F1 its turn.
    fn route_made(&mut self, alloc: Global, out: &mut StepOut) -> Result<(), Stop>
        ensures does { TakesParts (replicate 16 made_part) self.old out.old self.new out.new result }
        ensures line { out.new.line ≡ out.old.line }
    {
        let mut left = MOST_MADE;
        'made: while left > 0 {
            self.route_first(alloc, out)?;
            left -= 1;
        }
        Ok(())
    }

    // Gives the first S6F1 that has had no turn its own, if there is one.
    fn route_first(&mut self, alloc: Global, out: &mut StepOut) -> Result<(), Stop>
        ensures does { TakesPart made_part self.old out.old self.new out.new result }
        ensures line { out.new.line ≡ out.old.line }
    {
        let place = self.own.tracing.routed;
        let Some(text) = self.made_text(alloc, place)? else {
            return Ok(());
        };
        self.own.tracing.routed = place + 1;
        self.route_data(alloc, text, out)
    }

    // The text of the S6F1 at this place, if there is one.
    fn made_text(&self, alloc: Global, place: usize) -> Result<Option<Answer>, NoMemory>
        ensures text { IfOk result (λ text. text
            ≡ option_map (text_of (own_of self.now.own)) (slice_get self.now.own.tracing.made place)) }
        ensures short { IfOk result (λ text. IfSome text IsShort) }
        ensures within { IfOk result (λ text. IfSome text (λ one. place + 1 < 2 ^ 64)) }
    {
        match self.own.tracing.made.as_slice().get(place) {
            Some(item) => Ok(Some(bounded(alloc, item, self.own.max_body())?)),
            None => Ok(None),
        }
    }

    // An S6F1 with this text was made.
    fn route_data(&mut self, alloc: Global, text: Answer, out: &mut StepOut) -> Result<(), Stop>
        requires { IsShort text }
        ensures does { TakesPart
            (λ own core. if is_online own then sampled_text_turn text own core else unreported_turn trace_name own)
            self.old out.old self.new out.new result }
        ensures line { out.new.line ≡ out.old.line }
    {
        if !self.own.is_online() {
            note_dropped(alloc, TRACE_NAME, out)?;
            return Ok(());
        }
        self.route_online(alloc, text, out)
    }

    // An S6F1 with this text was made, on-line.
    fn route_online(&mut self, alloc: Global, text: Answer, out: &mut StepOut) -> Result<(), Stop>
        requires { IsShort text }
        ensures does { TakesPart (sampled_text_turn text) self.old out.old self.new out.new result }
        ensures line { out.new.line ≡ out.old.line }
    {
        match text {
            Answer::Body(body) => {
                if self.own.is_communicating() {
                    return self.send_data(alloc, body, out);
                }
                note_dropped(alloc, TRACE_NAME, out)?;
                Ok(())
            }
            Answer::TooLong => {
                out.notes.push(too_long_note(alloc, TRACE_NAME)?)?;
                Ok(())
            }
        }
    }

    // Sends an S6F1, or asks for a grant first where it takes several blocks.
    fn send_data(&mut self, alloc: Global, body: Row<u8>, out: &mut StepOut) -> Result<(), Stop>
        requires { length body ≤ longest_text }
        ensures does { TakesPart (trace_data_turn body) self.old out.old self.new out.new result }
        ensures line { out.new.line ≡ out.old.line }
    {
        if body.len() <= ONE_BLOCK {
            return self.send(alloc, trace_data(body), out);
        }
        self.inquire(alloc, body, out)
    }

    // Asks for a grant to send an S6F1.
    fn inquire(&mut self, alloc: Global, body: Row<u8>, out: &mut StepOut) -> Result<(), Stop>
        requires { length body ≤ longest_text }
        ensures does { TakesPart (trace_grant_turn body) self.old out.old self.new out.new result }
        ensures line { out.new.line ≡ out.old.line }
    {
        let item = grant_item(alloc, dataid_in(body.as_slice()), body.len() as u32)?;
        match bounded(alloc, &item, self.own.max_body())? {
            Answer::Body(text) => self.inquire_by(alloc, text, body, out),
            Answer::TooLong => Ok(()),
        }
    }

    // Asks for a grant by this text, and keeps the S6F1 until it is granted.
    fn inquire_by(
        &mut self,
        alloc: Global,
        text: Row<u8>,
        body: Row<u8>,
        out: &mut StepOut,
    ) -> Result<(), Stop>
        requires text { length text ≤ longest_text }
        requires body { length body ≤ longest_text }
        ensures does { TakesPart
            (λ own core. fixed_turn (data_inquiry_own body own core) (Primary (trace_inquiry text) ∷ []))
            self.old out.old self.new out.new result }
        ensures line { out.new.line ≡ out.old.line }
    {
        let system = self.core.next();
        if !self.core.primary(alloc, trace_inquiry(text), out)? {
            return Ok(());
        }
        self.own.keep_traced(ForGrant::new(system, body))?;
        Ok(())
    }

    /// The reply to the S6F5 for an S6F1 has come.
    pub(crate) fn heed_trace_grant(
        &mut self,
        alloc: Global,
        message: &Message,
        check: &BodyCheck,
        out: &mut StepOut,
    ) -> Result<(), Stop>
        requires { check.now ≡ check_of message.now.body }
        ensures does { TakesTurn
            (λ own. if is_granted_in message.now.body
            then granted_trace_turn (waiting_data message.now.system own) (without_waiting_data message.now.system own)
            else denied_data_turn (without_waiting_data message.now.system own))
            self.old out.old self.new out.new result }
        ensures line { out.new.line ≡ out.old.line }
    {
        if is_granted(alloc, message.body.as_slice(), check)? {
            return self.grant_trace(alloc, message.system, out);
        }
        self.deny_trace(alloc, message.system, out)
    }

    // The S6F1 whose S6F5 has these system bytes goes.
    fn grant_trace(&mut self, alloc: Global, system: u32, out: &mut StepOut) -> Result<(), Stop>
        ensures does { TakesTurn
            (λ own. granted_trace_turn (waiting_data system own) (without_waiting_data system own))
            self.old out.old self.new out.new result }
        ensures line { out.new.line ≡ out.old.line }
    {
        match take_awaiting(&mut self.own.tracing.for_grant, system) {
            Some(waiting) => self.send(alloc, trace_data(waiting.into_body()), out),
            None => Ok(()),
        }
    }

    /// The S6F1 whose S6F5 has these system bytes gets no grant.
    pub(crate) fn deny_trace(
        &mut self,
        alloc: Global,
        system: u32,
        out: &mut StepOut,
    ) -> Result<(), Stop>
        ensures does { TakesTurn (λ own. denied_data_turn (without_waiting_data system own))
            self.old out.old self.new out.new result }
        ensures line { out.new.line ≡ out.old.line }
    {
        let _ = take_awaiting(&mut self.own.tracing.for_grant, system);
        out.notes.push(denied_note(alloc, TRACE_NAME)?)?;
        Ok(())
    }
}

// TIAACK.
fn tiaack_code(tiaack: Tiaack) -> u8
    ensures { result ≡ tiaack_code tiaack }
{
    match tiaack {
        Tiaack::Done => 0,
        Tiaack::TooMany => 1,
        Tiaack::NoMore => 2,
        Tiaack::BadPeriod => 3,
        Tiaack::Unknown(_) => 4,
        Tiaack::BadGroup => 5,
    }
}
