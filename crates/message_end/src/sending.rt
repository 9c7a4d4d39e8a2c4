//! How a message comes to wait at an end: a primary with its transaction, or a reply.

ghost use Rattle.std.specs.Prelude.{◌≡◌, ◌<◌, ◌≤◌, ◌++◌, ◌∷◌, [], OnOk, length};
ghost use Rattle.block_codec.specs.Protocol.{longest_text};
ghost use Rattle.message_end.specs.Calls.{Becomes, Begins, FitsLine};
ghost use Rattle.message_end.specs.Core.{is_crowded_out, queues, replies_to, reply_text, sends, unsent_name};
ghost use Rattle.message_flow.specs.Message.{MessageFits};
ghost use Rattle.trace_log.specs.Log.Happening.{Full};
ghost use Rattle.trace_log.specs.Text.{note_of, printed_note};
ghost use Rattle.transact.specs.Matching.{AwaitsReply};

use crate::Unsent;
use crate::end::{MessageEnd, Stop};
use block_codec::Header;
use gl_base::{NoMemory, Row};
use message_flow::{Message, Pushing, StepOut};
use std::alloc::Global;
use trace_log::{Name, Title, full_note, sent_note};
use transact::Beginning;

impl<K: Copy> MessageEnd<K> {
    // Whether there is no room for a primary, in a transaction where it has one.
    pub(crate) fn is_crowded_out(&self, awaited: bool) -> bool
        ensures crowded { result ≡ is_crowded_out awaited self.now }
        ensures device { self.now.outgoing.device < 32768 }
    {
        let waiting = self.parts.outgoing.len();
        (awaited && self.parts.transactions.len() >= 64) || waiting >= 128
    }

    // Sends a primary for which there is room, under a number of its own.
    pub(crate) fn send(
        &mut self,
        alloc: Global,
        unsent: Unsent<K>,
        system: u32,
        out: &mut StepOut,
    ) -> Result<(), Stop>
        requires fits { FitsLine unsent }
        requires room { length self.old.outgoing.waiting < 128 }
        requires device { self.old.outgoing.device < 32768 }
        ensures does { Becomes (sends printed_note unsent system) self.old out.old self.new out.new result }
        ensures line { out.new.line ≡ out.old.line }
    {
        let Unsent {
            stream,
            function,
            kind,
            body,
        } = unsent;
        let message = Message {
            stream,
            function,
            wait: kind.is_some(),
            system,
            body,
        };
        if let Some(kind) = kind {
            let header = self.parts.outgoing.last_header(&message);
            self.begin(header, kind)?;
        }
        self.queue(alloc, message, out)
    }

    // Begins a transaction, unless it is refused.
    fn begin(&mut self, header: Header, kind: K) -> Result<(), NoMemory>
        requires { AwaitsReply header }
        ensures { OnOk result (Begins kind header self.old self.new) }
    {
        match self.parts.transactions.begin(header, kind) {
            Err(Beginning::NoMemory) => Err(NoMemory),
            Ok(()) | Err(Beginning::Full | Beginning::Same(_)) => Ok(()),
        }
    }

    // Puts a message behind those that wait, where there is room for it.
    fn queue(&mut self, alloc: Global, message: Message, out: &mut StepOut) -> Result<(), Stop>
        requires fits { MessageFits message }
        requires room { length self.old.outgoing.waiting < 128 }
        ensures does { Becomes (queues printed_note message) self.old out.old self.new out.new result }
        ensures line { out.new.line ≡ out.old.line }
    {
        out.notes.push(sent_note(alloc, &message)?)?;
        match self.parts.outgoing.push(message) {
            Ok(()) => Ok(()),
            Err(Pushing::NoMemory(_)) => Err(Stop::NoMemory),
            Err(Pushing::QueueFull(_)) => unreachable!("fewer than 128 messages wait"),
        }
    }

    // Replies to the primary that asks.
    pub(crate) fn answer_with(
        &mut self,
        alloc: Global,
        asked: Title,
        function: u8,
        body: Row<u8>,
        out: &mut StepOut,
    ) -> Result<(), Stop>
        requires stream { asked.name.stream < 128 }
        requires short { length body ≤ longest_text }
        ensures does { Becomes (replies_to printed_note asked function body) self.old out.old self.new out.new result }
        ensures line { out.new.line ≡ out.old.line }
    {
        self.parts.asked = None;
        let message = Message {
            stream: asked.name.stream,
            function,
            wait: false,
            system: asked.system,
            body: reply_text(alloc, function, body),
        };
        if self.parts.outgoing.len() >= 128 {
            out.notes.push(full_note(alloc, Name::of(&message))?)?;
            return Ok(());
        }
        self.queue(alloc, message, out)
    }
}

// Notes a primary for which there is no room.
pub(crate) fn note_full<K>(
    alloc: Global,
    unsent: &Unsent<K>,
    out: &mut StepOut,
) -> Result<(), NoMemory>
    ensures line { out.new.line ≡ out.old.line }
    ensures notes { OnOk result (out.new.notes ≡ out.old.notes ++ note_of (Full (unsent_name unsent.now)) ∷ []) }
{
    let name = Name {
        stream: unsent.stream,
        function: unsent.function,
        wait: unsent.kind.is_some(),
    };
    out.notes.push(full_note(alloc, name)?)
}

// The text of a reply: function 0 has none.
fn reply_text(alloc: Global, function: u8, body: Row<u8>) -> Row<u8>
    ensures { result ≡ reply_text function body }
{
    if function == 0 { Row::new(alloc) } else { body }
}
