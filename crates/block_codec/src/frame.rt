//! The bytes of a block on the line, both ways: `frame_of` writes them, `block_of` reads them or names their first
//! fault.

ghost use Rattle.std.specs.Prelude.{◌≡◌, ◌≤◌, length, IfOk, IfErr};
ghost use Rattle.std.specs.Int.{w16, from_be_bytes, to_be_bytes};
ghost use Rattle.block_codec.specs.Block.{BlockView, IsBlock};
ghost use Rattle.block_codec.specs.Fault.{fault_of};
ghost use Rattle.block_codec.specs.Frame.{IsSplit, checksum, counted_bytes, frame_bytes};
ghost use Rattle.block_codec.specs.Protocol.{header_length, longest_frame, most_counted};
ghost use Rattle.block_codec.specs.declared.frame.BlockFault.{BlockFault};

use crate::protocol::{HEADER_LENGTH, LONGEST_FRAME, MOST_COUNTED};
use crate::{Block, Header};
use arrayvec::ArrayVec;

/// The bytes of a block on the line, from the length byte to the checksum.
pub type Frame = ArrayVec<u8, LONGEST_FRAME>;

/// Why bytes are no frame.
#[derive(Clone, Copy, Debug, PartialEq, Eq)]
pub enum BlockFault {
    /// The length byte, which is outside 10 to 254.
    Length(u8),
    /// The bytes end before the frame does, at this number of bytes.
    Short { at: usize },
    /// The frame ends at this number of bytes, and more came.
    Long { at: usize },
    /// The checksum that came and that of the header and body that came.
    Sum { got: u16, want: u16 },
}

/// The frame of a block: length byte, header, body and checksum, 13 bytes more than the body.
pub fn frame_of(block: &Block) -> Frame
    ensures { result.items ≡ frame_bytes block.now }
{
    let header = block.header().to_bytes();
    let body = block.body();
    let mut frame = Frame::new();
    frame.push((HEADER_LENGTH + body.len()) as u8);
    frame.try_extend_from_slice(&header).unwrap();
    frame.try_extend_from_slice(body).unwrap();
    let sum = sum_of(&frame.as_slice()[1..]);
    frame.try_extend_from_slice(&sum.to_be_bytes()).unwrap();
    frame
}

/// The block whose frame these bytes are, all of them.
///
/// Else the first of these tests that fails names the fault. There is a first byte (`Short` at 0). Its value n is from
/// 10 to 254 (`Length`). Exactly n + 2 bytes follow it: a missing one is `Short` at the place behind the last byte, the
/// first that is too many is `Long` at its own place. The last two of them are the checksum of the n others (`Sum`).
pub fn block_of(bytes: &[u8]) -> Result<Block, BlockFault>
    ensures ok { IfOk result (λ block. IsBlock block × (bytes.now ≡ frame_bytes block)) }
    ensures every { (block : BlockView) → IsBlock block → bytes.now ≡ frame_bytes block → result ≡ Ok block }
    ensures fault { IfErr result (λ fault. fault_of bytes.now ≡ Some fault) }
    ensures refused { (fault : BlockFault) → fault_of bytes.now ≡ Some fault → result ≡ Err fault }
{
    let (counted, sent) = parts_of(bytes)?;
    let want = sum_of(counted);
    let got = number_of(sent);
    if got == want {
        Ok(block_from(counted))
    } else {
        Err(BlockFault::Sum { got, want })
    }
}

// The bytes that the length byte counts, and the two of the checksum behind them.
fn parts_of(bytes: &[u8]) -> Result<(&[u8], &[u8]), BlockFault>
    ensures ok { IfOk result (λ parts. IsSplit bytes.now parts.0.now parts.1.now) }
    ensures fault { IfErr result (λ fault. fault_of bytes.now ≡ Some fault) }
{
    let Some((&length, rest)) = bytes.split_first() else {
        return Err(BlockFault::Short { at: 0 });
    };
    let counted = length as usize;
    if !(HEADER_LENGTH..=MOST_COUNTED).contains(&counted) {
        return Err(BlockFault::Length(length));
    }
    let end = counted + 2;
    if rest.len() < end {
        return Err(BlockFault::Short { at: bytes.len() });
    }
    if rest.len() > end {
        return Err(BlockFault::Long { at: end + 1 });
    }
    Ok(rest.split_at(counted))
}

// The block of a header's ten bytes and the body behind them.
fn block_from(counted: &[u8]) -> Block
    requires header { header_length ≤ length counted.now }
    requires body { length counted.now ≤ most_counted }
    ensures is_block { IsBlock result }
    ensures counted { counted_bytes result ≡ counted.now }
{
    let (header, body) = counted.split_first_chunk().unwrap();
    Block::new(Header::from_bytes(header), body).unwrap()
}

// The checksum of these bytes: 257 bytes, as many as a frame has, do not yet sum up to 65,536.
fn sum_of(bytes: &[u8]) -> u16
    requires { length bytes.now ≤ longest_frame }
    ensures { result ≡ checksum bytes.now }
{
    bytes.iter().map(|byte| u16::from(*byte)).sum()
}

// The number that two bytes hold, high byte first.
fn number_of(bytes: &[u8]) -> u16
    requires { length bytes.now ≡ 2 }
    ensures number { result ≡ from_be_bytes w16 bytes.now }
    ensures bytes { to_be_bytes w16 result ≡ bytes.now }
{
    u16::from_be_bytes([bytes[0], bytes[1]])
}
