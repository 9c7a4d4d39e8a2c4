//! The queue of messages to be sent: whose block goes next, and how a message leaves it.

ghost use Rattle.std.specs.Prelude.{◌≡◌, true, false, slice_get, ◌+◌, ◌<◌, ◌≤◌, ◌↔◌, ◌++◌, [], ◌∷◌, drop, length, IfSome, IsOk, IsTrue, OnOk, OnErr, not};
ghost use Rattle.std.specs.List.{count_by, find, list_any, position, position_or_len, remove};
ghost use Rattle.std.specs.Option.{option_map, IsSome};
ghost use Rattle.block_codec.specs.Block.{IsBlock};
ghost use Rattle.message_flow.specs.Blocks.{block_count, header_of};
ghost use Rattle.message_flow.specs.Message.{MessageFits};
ghost use Rattle.message_flow.specs.Outgoing.{IsLastPlace, IsOutgoing, OutgoingView, PushAnswer, is_source_of, last_header, next_block_of, next_turn, with_message, with_waiting, without_first, without_source};
ghost use Rattle.message_flow.specs.Waiting.{is_named};

use crate::Message;
use crate::key::same_header;
use crate::waiting::Waiting;
use block_codec::{Block, Header};
use gl_base::Side;
use std::alloc::Global;
use std::collections::VecDeque;
use std::marker::Model;

// The most messages that wait.
const QUEUE: usize = 128;

/// The messages of one side that wait to go out, block by block and in turn.
#[derive(Debug, Drop)]
pub struct Outgoing {
    side: Side,
    device: u16,
    waiting: VecDeque<Waiting>,
}

impl Model for Outgoing {
    ghost use Rattle.message_flow.specs.Outgoing.{OutgoingView, IsOutgoing};

    ghost Value = { OutgoingView };

    ghost view = { λ inside. record { side = inside.side; device = inside.device; waiting = inside.waiting.items } };

    ghost invariant = { λ inside. IsOutgoing (record {
      side = inside.side;
      device = inside.device;
      waiting = inside.waiting.items;
    }) };
}

/// Why a message does not join those that wait. The message is handed back.
#[derive(Debug, Drop)]
pub enum Pushing {
    /// 128 messages wait.
    QueueFull(Message),
    /// Memory ran out.
    NoMemory(Message),
}

impl Outgoing {
    /// What goes out from this side, for this device. No message waits, and no memory is taken yet.
    pub fn new(alloc: Global, side: Side, device: u16) -> Outgoing
        requires { device < 32768 }
        ensures { result ≡ record { side = side; device = device; waiting = [] } }
    {
        Outgoing {
            side,
            device,
            waiting: VecDeque::new(alloc),
        }
    }

    /// Puts a message behind the others that wait.
    ///
    /// `QueueFull` exactly where 128 messages wait. A refused message is handed back, and those that wait stay as
    /// they were.
    pub fn push(&mut self, message: Message) -> Result<(), Pushing>
        requires { MessageFits message }
        ensures ok { OnOk result (self.new ≡ with_waiting self.old (with_message self.old.waiting message)) }
        ensures err { OnErr result (self.new ≡ self.old) }
        ensures answer { PushAnswer self.old message result }
    {
        if self.waiting.len() == QUEUE {
            return Err(Pushing::QueueFull(message));
        }
        match self.waiting.push_back(Waiting { message, gone: 0 }) {
            Ok(()) => Ok(()),
            Err(failed) => Err(Pushing::NoMemory(failed.value.message)),
        }
    }

    /// The next block of the first message. Its message is last in turn then, and where it was the message's last
    /// block the message waits no longer.
    ///
    /// `None` exactly where no message waits. No memory is taken.
    pub fn next_block(&mut self) -> Option<Block>
        ensures block { result ≡ (next_block_of self.old.side self.old.device self.old.waiting).0 }
        ensures rest { self.new ≡ next_turn self.old }
        ensures is_block { IfSome result IsBlock }
        ensures is_outgoing { IsOutgoing self.old }
    {
        let first = self.waiting.front_mut()?;
        first.gone += 1;
        let block = first.message.block(self.side, self.device, first.gone);
        if block.header().last {
            self.waiting.pop_front();
        } else {
            self.waiting.rotate_left(1);
        }
        Some(block)
    }

    /// Removes from the queue the first primary with these system bytes, or where `primary` is false the first
    /// secondary with them. `true` says that one was found. No memory is taken.
    pub fn remove(&mut self, primary: bool, system: u32) -> bool
        ensures found { result ≡ list_any (is_named primary system) self.old.waiting }
        ensures rest { self.new ≡ with_waiting self.old (without_first (is_named primary system) self.old.waiting) }
    {
        match self.place_of(primary, system) {
            Some(place) => self.waiting.remove(place).is_some(),
            None => false,
        }
    }

    /// Removes the message whose block with this header has failed: the last in turn of those with the header's key
    /// of which as many blocks have gone as the header's number says. `true` says that there was one. There is none
    /// where the block has the E bit, since no message waits whose last block has gone. No memory is taken.
    pub fn recall(&mut self, header: &Header) -> bool
        ensures found { result ≡ list_any (is_source_of self.old header.now) self.old.waiting }
        ensures rest { self.new ≡ without_source self.old header.now }
        ensures ended { header.now.last ≡ true → result ≡ false }
    {
        match self.source_of(header) {
            Some(place) => self.waiting.remove(place).is_some(),
            None => false,
        }
    }

    /// Removes the message in front, of which some blocks may be gone already. The answer is the header of its block
    /// with the E bit, or `None` where the queue is empty. No memory is taken.
    pub fn drop_front(&mut self) -> Option<Header>
        ensures header { result ≡ option_map (last_header self.old) (slice_get self.old.waiting 0) }
        ensures rest { self.new ≡ with_waiting self.old (drop 1 self.old.waiting) }
    {
        let first = self.waiting.pop_front()?;
        Some(self.last_header(&first.message))
    }

    /// Finds the message that `remove` with the same arguments would take out. The answer is the header of its block
    /// with the E bit, or `None` where `remove` would find no message.
    pub fn waiting(&self, primary: bool, system: u32) -> Option<Header>
        ensures { result ≡ option_map (last_header self.now) (find (is_named primary system) self.now.waiting) }
    {
        let found = self
            .waiting
            .iter()
            .find(|waiting| waiting.is_named(primary, system))?;
        Some(self.last_header(&found.message))
    }

    /// How many of the waiting messages are without the W bit.
    pub fn without_wait(&self) -> usize
        ensures { result ≡ count_by (λ waiting. not waiting.message.wait) self.now.waiting }
    {
        self.waiting
            .iter()
            .filter(|waiting| !waiting.message.wait)
            .count()
    }

    /// How many messages wait.
    pub fn len(&self) -> usize
        ensures len { result ≡ length self.now.waiting }
        ensures few { result ≤ 128 }
        ensures is_outgoing { IsOutgoing self.now }
    {
        self.waiting.len()
    }

    // Where in the queue the message stands that `remove` would take out.
    fn place_of(&self, primary: bool, system: u32) -> Option<usize>
        ensures { result ≡ position (is_named primary system) self.now.waiting }
    {
        self.waiting
            .iter()
            .position(|waiting| waiting.is_named(primary, system))
    }

    // Where in the queue the message stands that `recall` would take out.
    fn source_of(&self, header: &Header) -> Option<usize>
        ensures { IsLastPlace (is_source_of self.now header.now) self.now.waiting result }
    {
        let mut left = self.waiting.len();
        'places: while left > 0 {
            left -= 1;
            if self.is_source_of(&self.waiting[left], header) {
                return Some(left);
            }
        }
        None
    }

    // Whether the block with this header is the one of the message that went last.
    fn is_source_of(&self, waiting: &Waiting, header: &Header) -> bool
        requires { MessageFits waiting.now.message }
        ensures { result ≡ is_source_of self.now header.now waiting.now }
    {
        let newest = waiting.message.header(self.side, self.device, waiting.gone);
        same_header(&newest, header)
    }

    /// The header of a message's last block.
    pub fn last_header(&self, message: &Message) -> Header
        requires { MessageFits message.now }
        ensures { result ≡ header_of self.now.side self.now.device message.now (block_count message.now) }
    {
        message.header(self.side, self.device, message.block_count())
    }
}
