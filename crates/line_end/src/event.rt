//! The phases of an end, why it refuses a frame, and what its calls tell.

use block_codec::Block;

/// Where an end is in the transfer of a block.
#[derive(Clone, Copy, Debug, PartialEq, Eq)]
pub enum Phase {
    /// Nothing is under way.
    Idle,
    /// It has asked to send, and awaits EOT.
    AwaitEot,
    /// It has sent its frame, and awaits ACK.
    AwaitAck,
    /// It has granted the line, and awaits the length byte.
    AwaitLength,
    /// It gathers the characters of a frame.
    Gathering,
    /// It lets a bad frame pass until the line is quiet.
    Settling,
}

/// Why a frame was refused.
#[derive(Clone, Copy, Debug, PartialEq, Eq)]
pub enum LineCause {
    /// This length byte is outside 10 to 254.
    Length(u8),
    /// The checksum that came is not that of the header and body that came.
    Sum { got: u16, want: u16 },
    /// The next character did not come within T1.
    T1,
    /// No length byte came within T2.
    T2,
}

/// What a call of an end tells.
#[derive(Drop, Debug)]
pub enum LineEvent {
    /// Nothing.
    Nothing,
    /// This block came whole, and was acknowledged.
    Arrived(Block),
    /// The held block was acknowledged.
    Sent,
    /// The last try to send the held block failed.
    Failed,
    /// A frame was refused.
    Refused(LineCause),
}
