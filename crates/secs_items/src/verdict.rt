//! What there is to say of bytes that are to be one item, or none.

use crate::item_fault::ItemFault;

/// What a `BodyCheck` says of the bytes that it was fed.
#[derive(Clone, Copy, Debug, PartialEq, Eq)]
pub enum Verdict {
    /// There are none.
    Empty,
    /// They spell an item.
    Whole,
    /// They have this fault first.
    Broken(ItemFault),
}
