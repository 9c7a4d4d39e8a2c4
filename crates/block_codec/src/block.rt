//! A block as a value. Its parts are private, so that none is made whose header or body fits no frame.

ghost use Rattle.std.specs.Prelude.{◌≡◌, ◌≤◌, ◌↔◌, length, IsSome, IfSome};
ghost use Rattle.block_codec.specs.Block.{IsBlock};
ghost use Rattle.block_codec.specs.Header.{Fits};
ghost use Rattle.block_codec.specs.Protocol.{longest_body};

use crate::Header;
use crate::protocol::LONGEST_BODY;
use arrayvec::ArrayVec;
use std::marker::Model;

/// A block of a message: a header that fits and at most 244 bytes of the message's text.
#[derive(Drop, Debug)]
pub struct Block {
    header: Header,
    body: ArrayVec<u8, LONGEST_BODY>,
}

impl Model for Block {
    ghost use Rattle.block_codec.specs.Block.{BlockView, IsBlock};

    ghost Value = { BlockView };

    ghost view = { λ inside. record { header = inside.header; body = inside.body.items } };

    ghost invariant = { λ inside. IsBlock (record { header = inside.header; body = inside.body.items }) };
}

impl Block {
    /// The block of this header and this body, if the header fits and the body is of 244 bytes or fewer. Else `None`.
    pub fn new(header: Header, body: &[u8]) -> Option<Block>
        ensures variant { IsSome result ↔ (Fits header × (length body.now ≤ longest_body)) }
        ensures some { IfSome result (λ block. (block.header ≡ header) × (block.body ≡ body.now)) }
        ensures is_block { IfSome result (λ block. IsBlock block) }
    {
        if !header.fits() {
            return None;
        }
        let mut items = ArrayVec::new();
        items.try_extend_from_slice(body).ok()?;
        Some(Block {
            header,
            body: items,
        })
    }

    /// The header.
    pub fn header(&self) -> Header
        ensures value { result ≡ self.now.header }
        ensures is_block { IsBlock self.now }
    {
        self.header
    }

    /// The body.
    pub fn body(&self) -> &[u8]
        ensures value { result.now ≡ self.now.body }
        ensures is_block { IsBlock self.now }
    {
        self.body.as_slice()
    }
}
