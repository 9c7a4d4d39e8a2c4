//! Replies and errors, which are sent only where there is room for them.

ghost use Rattle.std.specs.Prelude.{◌≡◌, ◌≤◌, ◌%◌, length, IfOk, ◌∷◌, [], ◌++◌};
ghost use Rattle.block_codec.specs.Header.{Fits};
ghost use Rattle.block_codec.specs.Protocol.{longest_text};
ghost use Rattle.message_end.specs.Calls.{FitsLine};
ghost use Rattle.message_end.specs.Core.Command.{Primary};
ghost use Rattle.message_end.specs.Core.Went.{Goes};
ghost use Rattle.message_end.specs.Parts.{Node, after_turn, fixed_turn, on_the_way};
ghost use Rattle.trace_log.specs.Text.{printed_note};
ghost use Rattle.tool_step.specs.declared.kind.Kind.{Kind};
ghost use Rattle.tool_core.specs.Node.{own_of};
ghost use Rattle.tool_step.specs.Own.{OwnView, turn_of};
ghost use Rattle.tool_core.specs.Judged.{IsShort};
ghost use Rattle.tool_step.specs.Reports.{unreported_turn};
ghost use Rattle.tool_step.specs.Sent.{abort_duty, abort_name, body_duty, error_duty, error_item, error_name, error_primary, has_room, long_duties, primary_commands, reply_name, text_of};
ghost use Rattle.tool_core.specs.Turns.{TakesTurn};

use crate::own::Tool;
use crate::primaries::{error_item, error_primary};
use block_codec::Header;
use equipment_tables::{Answer, bounded};
use gl_base::{NoMemory, Row};
use message_end::{Stop, Unsent};
use message_flow::{Message, StepOut};
use std::alloc::Global;
use tool_step::Kind;
use trace_log::{Name, dropped_note, full_note, too_long_note};

// The most messages without W that wait.
const MOST_WITHOUT_WAIT: usize = 64;

/// The name of the reply to a message.
pub(crate) fn reply_name(message: &Message) -> Name
    ensures { result ≡ reply_name message.now }
{
    Name {
        stream: message.stream,
        function: message.function.wrapping_add(1),
        wait: false,
    }
}

fn error_name(function: u8) -> Name
    ensures { result ≡ error_name function }
{
    Name {
        stream: 9,
        function,
        wait: false,
    }
}

fn abort_name(message: &Message) -> Name
    ensures { result ≡ abort_name message.now }
{
    Name {
        stream: message.stream,
        function: 0,
        wait: false,
    }
}

/// A message that isn't sent is noted.
pub(crate) fn note_dropped(alloc: Global, name: Name, out: &mut StepOut) -> Result<(), NoMemory>
    ensures notes { IfOk result (λ done. (s : Node OwnView Kind) → after_turn printed_note
        (unreported_turn name s.own)
        (on_the_way s out.old) ≡ Goes (on_the_way s out.new)) }
    ensures line { out.new.line ≡ out.old.line }
{
    out.notes.push(dropped_note(alloc, name)?)
}

impl Tool {
    // Whether one more message without W may wait.
    fn has_room(&self) -> bool
        ensures { result ≡ has_room self.now.core }
    {
        self.core.without_wait() < MOST_WITHOUT_WAIT
    }

    /// Tells the host of an error about a block with this header, in COMMUNICATING.
    pub(crate) fn tell_error(
        &mut self,
        alloc: Global,
        function: u8,
        header: &Header,
        out: &mut StepOut,
    ) -> Result<(), Stop>
        requires odd { function % 2 ≡ 1 }
        requires header { Fits header.now }
        ensures does { TakesTurn (λ own. turn_of own (error_duty function header.now own ∷ []))
            self.old out.old self.new out.new result }
        ensures line { out.new.line ≡ out.old.line }
    {
        if !self.own.is_communicating() {
            return Ok(());
        }
        if !self.has_room() {
            out.notes.push(full_note(alloc, error_name(function))?)?;
            return Ok(());
        }
        let text = self.error_text(alloc, header)?;
        self.send_error(alloc, function, text, out)
    }

    // The text that tells of a block with this header.
    fn error_text(&self, alloc: Global, header: &Header) -> Result<Answer, NoMemory>
        requires { Fits header.now }
        ensures text { IfOk result (λ text. text ≡ text_of (own_of self.now.own) (error_item header.now)) }
        ensures short { IfOk result IsShort }
    {
        let item = error_item(alloc, header)?;
        bounded(alloc, &item, self.own.max_body())
    }

    // Sends an error of this text.
    fn send_error(
        &mut self,
        alloc: Global,
        function: u8,
        text: Answer,
        out: &mut StepOut,
    ) -> Result<(), Stop>
        requires odd { function % 2 ≡ 1 }
        requires short { IsShort text }
        ensures does { TakesTurn (λ own. fixed_turn own (primary_commands (error_primary function) text))
            self.old out.old self.new out.new result }
        ensures line { out.new.line ≡ out.old.line }
    {
        match text {
            Answer::Body(body) => self.send(alloc, error_primary(function, body), out),
            Answer::TooLong => Ok(()),
        }
    }

    /// Sends a primary.
    pub(crate) fn send(
        &mut self,
        alloc: Global,
        unsent: Unsent<Kind>,
        out: &mut StepOut,
    ) -> Result<(), Stop>
        requires { FitsLine unsent }
        ensures does { TakesTurn (λ own. fixed_turn own (Primary unsent ∷ []))
            self.old out.old self.new out.new result }
        ensures line { out.new.line ≡ out.old.line }
    {
        match self.core.primary(alloc, unsent, out) {
            Ok(_) => Ok(()),
            Err(stop) => Err(stop),
        }
    }

    /// Answers a message with W by this body.
    pub(crate) fn reply(
        &mut self,
        alloc: Global,
        message: &Message,
        body: Row<u8>,
        out: &mut StepOut,
    ) -> Result<(), Stop>
        requires { length body ≤ longest_text }
        ensures does { TakesTurn (λ own. turn_of own (body_duty body message.now ∷ []))
            self.old out.old self.new out.new result }
        ensures line { out.new.line ≡ out.old.line }
    {
        if !message.wait {
            return Ok(());
        }
        if !self.has_room() {
            out.notes.push(full_note(alloc, reply_name(message))?)?;
            return Ok(());
        }
        self.core.reply(alloc, body, out)
    }

    /// Answers a message with W by function 0.
    pub(crate) fn abort(
        &mut self,
        alloc: Global,
        message: &Message,
        out: &mut StepOut,
    ) -> Result<(), Stop>
        ensures does { TakesTurn (λ own. turn_of own (abort_duty message.now ∷ []))
            self.old out.old self.new out.new result }
        ensures line { out.new.line ≡ out.old.line }
    {
        if !message.wait {
            return Ok(());
        }
        if !self.has_room() {
            out.notes.push(full_note(alloc, abort_name(message))?)?;
            return Ok(());
        }
        self.core.abort(alloc, out)
    }

    /// Notes that the answer to a message with W is too long, and answers it by function 0.
    pub(crate) fn abort_long(
        &mut self,
        alloc: Global,
        message: &Message,
        out: &mut StepOut,
    ) -> Result<(), Stop>
        ensures does { TakesTurn (λ own. turn_of own (long_duties message.now))
            self.old out.old self.new out.new result }
        ensures line { out.new.line ≡ out.old.line }
    {
        if !message.wait {
            return self.abort(alloc, message, out);
        }
        out.notes.push(too_long_note(alloc, reply_name(message))?)?;
        self.abort(alloc, message, out)
    }
}
