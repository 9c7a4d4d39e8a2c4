//! The numbers of SEMI E4 that the layers above need as well: the characters of the handshake, and lengths.

/// The character of the handshake that asks to send a block.
pub const ENQ: u8 = 0x05;
/// The one that grants it.
pub const EOT: u8 = 0x04;
/// The one that says that a good block came.
pub const ACK: u8 = 0x06;
/// The one that says that a bad one came.
pub const NAK: u8 = 0x15;

/// How many bytes a header has.
pub const HEADER_LENGTH: usize = 10;
/// How many bytes a body has at most.
pub const LONGEST_BODY: usize = 244;
/// The highest length byte, that of a block with the longest body.
pub const MOST_COUNTED: usize = 254;
/// How many bytes the frame of a block without a body has.
pub const SHORTEST_FRAME: usize = 13;
/// How many bytes the frame of a block with the longest body has.
pub const LONGEST_FRAME: usize = 257;

/// How many blocks a message has at most.
pub const MOST_BLOCKS: u16 = 32_767;
/// How many bytes of text these carry.
pub const LONGEST_TEXT: u32 = 7_995_148;
