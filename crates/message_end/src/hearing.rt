//! What an end makes of a block that was acknowledged, and of one that has come.

ghost use Rattle.std.specs.Prelude.{◌≡◌, ◌^◌, ◌<◌, IfOk};
ghost use Rattle.block_codec.specs.Header.{Fits};
ghost use Rattle.block_codec.specs.Protocol.{longest_text};
ghost use Rattle.message_end.specs.Calls.{Becomes, HasHeader, IsCame, IsChecked, IsGood, is_waiting_for};
ghost use Rattle.message_end.specs.Core.{acknowledges, asked_by, hears, is_held_answered, judges, takes_back, with_transactions};
ghost use Rattle.message_flow.specs.Assembly.{WholeFits};
ghost use Rattle.trace_log.specs.Text.{printed_note};

use crate::end::{MessageEnd, Stop, Took};
use block_codec::{Block, Header};
use line_end::Phase;
use message_flow::{Flow, Message, StepOut};
use std::alloc::Global;
use trace_log::{
    Title, crowded_note, duplicate_note, foreign_note, received_note, too_long_block_note,
    unexpected_note,
};
use transact::matches;

impl<K: Copy> MessageEnd<K> {
    // A block with this header was acknowledged.
    pub(crate) fn acknowledge(&mut self, held: Option<Header>, now: u64)
        requires { now < 2 ^ 62 }
        ensures { self.new ≡ with_transactions (acknowledges held now self.old.transactions) self.old }
    {
        if let Some(header) = held {
            if header.last && header.wait {
                self.parts.transactions.sent(header.system, now);
            }
        }
    }

    // The receiver takes a block, and a primary that it answers is taken back.
    pub(crate) fn hear(
        &mut self,
        alloc: Global,
        block: &Block,
        now: u64,
        out: &mut StepOut,
    ) -> Result<Took, Stop>
        requires idle { self.old.line.phase ≡ Phase.Idle }
        requires now { now < 2 ^ 62 }
        ensures does { Becomes (hears printed_note block.now now) self.old out.old self.new out.new result }
        ensures took { IfOk result (IsCame self.old block.now) }
        ensures line { out.new.line ≡ out.old.line }
        ensures whole { IfOk result (λ brought. IsGood brought) }
        ensures checked { IfOk result (λ brought. IsChecked brought) }
        ensures header { IfOk result (λ brought. HasHeader brought) }
    {
        let header = block.header();
        let flow = self.parts.assembly.accept(block, now)?;
        self.take_back(&header, now);
        self.judge(alloc, &header, &flow, out)?;
        Ok(Took::Came(header, flow))
    }

    // Takes back the primary that a block with this header answers.
    fn take_back(&mut self, header: &Header, now: u64)
        requires idle { self.old.line.phase ≡ Phase.Idle }
        requires now { now < 2 ^ 62 }
        ensures { self.new ≡ takes_back header.now now self.old }
    {
        let held = self.is_held_answered(header);
        let waits = self.is_waiting_answered(header);
        if held || waits {
            self.parts.transactions.sent(header.system, now);
        }
        if waits {
            self.parts.outgoing.remove(true, header.system);
        }
        if held {
            self.parts.line.cancel();
        }
    }

    // Whether the block that is held is of a primary that a block with this header answers.
    fn is_held_answered(&self, header: &Header) -> bool
        ensures { result ≡ is_held_answered header.now self.now.line.held }
    {
        match self.parts.line.held() {
            Some(held) => held.function % 2 == 1 && matches(&held, header),
            None => false,
        }
    }

    // Whether a block with this header answers the primary that waits with its system bytes.
    fn is_waiting_answered(&self, header: &Header) -> bool
        ensures { result ≡ is_waiting_for header.now self.now }
    {
        match self.parts.outgoing.waiting(true, header.system) {
            Some(primary) => matches(&primary, header),
            None => false,
        }
    }

    // What a block with this header was is noted, and a message that is whole is delivered.
    fn judge(
        &mut self,
        alloc: Global,
        header: &Header,
        flow: &Flow,
        out: &mut StepOut,
    ) -> Result<(), Stop>
        requires header { Fits header.now }
        requires whole { WholeFits longest_text flow.now }
        ensures does { Becomes (judges printed_note header.now flow.now) self.old out.old self.new out.new result }
        ensures line { out.new.line ≡ out.old.line }
    {
        let note = match flow {
            Flow::Part => {
                self.parts.transactions.reply_began(header);
                return Ok(());
            }
            Flow::Whole(message, _) => {
                self.parts.asked = asked_by(message);
                received_note(alloc, message)?
            }
            Flow::Duplicate => duplicate_note(alloc, header)?,
            Flow::Foreign(_) => foreign_note(alloc, header)?,
            Flow::Unexpected => unexpected_note(alloc, header)?,
            Flow::TooLong => too_long_block_note(alloc, header)?,
            Flow::Crowded => crowded_note(alloc, header)?,
        };
        out.notes.push(note)?;
        Ok(())
    }
}

// The primary that asks for a reply, if this message is one.
fn asked_by(message: &Message) -> Option<Title>
    ensures { result ≡ asked_by message.now }
{
    if message.function % 2 == 1 && message.wait {
        Some(Title::of(message))
    } else {
        None
    }
}
