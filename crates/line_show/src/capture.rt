//! Where the pieces of a capture end, which are frames and characters, and where it breaks.

ghost use Rattle.std.specs.Prelude.{◌≡◌, ◌+◌, ◌<◌, ◌≤◌, ℕ, drop, length, slice_index, take, None, IfSome};
ghost use Rattle.line_show.specs.Capture.{EndsAs, IsFrontAt, IsRead, break_of, front_frame, is_character, piece_bytes, piece_of};
ghost use Rattle.line_show.specs.declared.capture.Ending.TheVariants as endings;

use block_codec::{ACK, Block, BlockFault, ENQ, EOT, NAK, SHORTEST_FRAME};

/// A broken frame of a capture. A short one is named at the capture's length, another at its first byte.
#[derive(Clone, Copy, Debug, PartialEq, Eq)]
pub enum Break {
    /// The length byte is outside 10 to 254.
    Length { at: usize, length: u8 },
    /// The capture ends within the frame.
    Short { at: usize },
    /// The sum that was found isn't the one that the frame wants.
    Sum { at: usize, want: u16, found: u16 },
}

/// How the pieces of a capture end.
#[derive(Clone, Copy, Debug, PartialEq, Eq)]
pub enum Ending {
    /// With the capture.
    Whole,
    /// At a broken frame.
    Broken(Break),
}

/// The bytes in front that are a frame where one is there: as many as the first byte announces, or what there is.
pub(crate) fn front_frame(bytes: &[u8], first: u8) -> &[u8]
    requires { first ≡ slice_index bytes.now 0 }
    ensures { result.now ≡ front_frame bytes.now }
{
    first_bytes(bytes, first as usize + 3)
}

/// How many bytes the piece takes that stands in front: 13 to 257 for a frame, 1 for a character.
pub(crate) fn piece_size(front: &Result<Block, BlockFault>) -> usize
    ensures size { (first : ℕ) → result ≡ length (piece_bytes (piece_of first front.now)) }
    ensures some { 1 ≤ result }
    ensures few { result ≤ 257 }
{
    match front {
        Ok(block) => SHORTEST_FRAME + block.body().len(),
        Err(_) => 1,
    }
}

/// The break at a place of the capture, where what is in front was read as no frame, and is no character either.
pub(crate) fn break_at(
    capture: &[u8],
    at: usize,
    first: u8,
    front: &Result<Block, BlockFault>,
) -> Option<Break>
    requires within { at < length capture.now }
    requires first { first ≡ slice_index (drop at capture.now) 0 }
    requires read { IsRead (drop at capture.now) front.now }
    ensures broken { IfSome result (λ found. EndsAs at (drop at capture.now) (endings.Broken found)) }
    ensures piece { result ≡ None → IsFrontAt at capture.now (piece_of first front.now) }
{
    match front {
        Ok(_) => None,
        Err(_) if is_character(first) => None,
        Err(BlockFault::Length(length)) => Some(Break::Length {
            at,
            length: *length,
        }),
        Err(BlockFault::Short { .. }) => Some(Break::Short { at: capture.len() }),
        Err(BlockFault::Sum { got, want }) => Some(Break::Sum {
            at,
            want: *want,
            found: *got,
        }),
        Err(BlockFault::Long { .. }) => unreachable!(
            "no more bytes were taken than the length byte says"
        ),
    }
}

// Whether it is ENQ, EOT, ACK or NAK.
fn is_character(byte: u8) -> bool
    ensures { result ≡ is_character byte }
{
    byte == ENQ || byte == EOT || byte == ACK || byte == NAK
}

// The first n bytes, or all where there are fewer.
fn first_bytes(bytes: &[u8], n: usize) -> &[u8]
    ensures { result.now ≡ take n bytes.now }
{
    if n < bytes.len() {
        let (front, _) = bytes.split_at(n);
        front
    } else {
        bytes
    }
}
