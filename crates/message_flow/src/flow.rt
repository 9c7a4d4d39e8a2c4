//! What an arrived block may be, by all that came before it.

use crate::Message;
use secs_items::BodyCheck;

/// What an arrived block is.
#[derive(Debug, Drop)]
pub enum Flow {
    /// A block of a message of which more blocks are to come.
    Part,
    /// The last block of this message, and the check of its whole text.
    Whole(Message, BodyCheck),
    /// The block that came last, once more.
    Duplicate,
    /// A block of the receiver's own side or of another device: the first two bytes of its header, as one number.
    Foreign(u16),
    /// A block whose number does not follow.
    Unexpected,
    /// A block with which its message would have more bytes than the receiver takes.
    TooLong,
    /// The first of several blocks where 16 messages are open.
    Crowded,
}
