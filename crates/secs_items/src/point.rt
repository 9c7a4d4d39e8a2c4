//! Where reading stands between two bytes.

use crate::item_fault::ItemFault;
use crate::kind::Kind;

/// What the next byte is. `at` is the place of the item's format byte, `high` the number in the length bytes so far.
#[derive(Clone, Copy, Debug)]
pub(crate) enum Point {
    /// A format byte.
    Format,
    /// The first of three length bytes.
    Three { at: u32, kind: Kind },
    /// The first of two length bytes, or the second of three.
    Two { at: u32, kind: Kind, high: u8 },
    /// The last length byte.
    One { at: u32, kind: Kind, high: u16 },
    /// Content, with so many bytes of it behind the next.
    Content { more: u32 },
    /// None may follow.
    Whole,
    /// It changes nothing: the first fault was met.
    Broken(ItemFault),
}
