//! A message as a value, and its blocks by their numbers.

ghost use Rattle.std.specs.Prelude.{◌≡◌, ◌+◌, ◌<◌, ◌≤◌, ◌↔◌, length, IsTrue};
ghost use Rattle.block_codec.specs.Block.{IsBlock};
ghost use Rattle.block_codec.specs.Protocol.{most_blocks};
ghost use Rattle.message_flow.specs.Blocks.{block_count, header_of, numbered_block};
ghost use Rattle.message_flow.specs.Message.{MessageFits, is_primary};

use block_codec::{Block, Header, LONGEST_BODY, LONGEST_TEXT};
use gl_base::{Row, Side};

/// A message: its stream and function, whether its sender awaits a reply, its system bytes and its text.
#[derive(Debug, Drop)]
pub struct Message {
    /// The stream, below 128 where the message fits.
    pub stream: u8,
    /// The function within the stream: odd in a primary message, even in a secondary one.
    pub function: u8,
    /// The W bit: the sender awaits a reply.
    pub wait: bool,
    /// The system bytes, as one number.
    pub system: u32,
    /// The text: at most 7,995,148 bytes where the message fits.
    pub body: Row<u8>,
}

impl Message {
    /// Whether the stream has its seven bits, and 32,767 blocks of 244 bytes hold the text.
    pub fn fits(&self) -> bool
        ensures { IsTrue result ↔ MessageFits self.now }
    {
        self.stream < 0x80 && self.body.len() <= LONGEST_TEXT as usize
    }

    // Whether it is a primary message: its function is odd.
    pub(crate) fn is_primary(&self) -> bool
        ensures { result ≡ is_primary self.now }
    {
        self.function % 2 == 1
    }

    // How many blocks carry the message.
    pub(crate) fn block_count(&self) -> u16
        requires { MessageFits self.now }
        ensures count { result ≡ block_count self.now }
        ensures some { 1 ≤ result }
        ensures few { result ≤ most_blocks }
    {
        self.body.len().div_ceil(LONGEST_BODY).max(1) as u16
    }

    // The header of the block of this number.
    pub(crate) fn header(&self, side: Side, device: u16, number: u16) -> Header
        requires { MessageFits self.now }
        ensures { result ≡ header_of side device self.now number }
    {
        Header {
            from_equipment: side == Side::Equipment,
            device,
            wait: self.wait,
            stream: self.stream,
            function: self.function,
            last: number == self.block_count(),
            number,
            system: self.system,
        }
    }

    // The block of this number.
    pub(crate) fn block(&self, side: Side, device: u16, number: u16) -> Block
        requires fits { MessageFits self.now }
        requires device { device < 32768 }
        requires first { 1 ≤ number }
        requires last { number ≤ block_count self.now }
        ensures value { result ≡ numbered_block side device self.now number }
        ensures is_block { IsBlock result }
    {
        let start = LONGEST_BODY * (usize::from(number) - 1);
        let rest = self.body.as_slice().split_at(start).1;
        let body = rest.split_at(LONGEST_BODY.min(rest.len())).0;
        Block::new(self.header(side, device, number), body).unwrap()
    }
}
