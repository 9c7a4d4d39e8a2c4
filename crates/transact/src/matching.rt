//! When a secondary answers a primary: one test, for the open transactions and for primaries that wait to go out.

ghost use Rattle.std.specs.Prelude.{◌≡◌};
ghost use Rattle.transact.specs.Matching.{matches};

use block_codec::Header;

/// Whether a secondary answers a primary, by their headers: system bytes and stream agree, the secondary has no W bit
/// and the other R bit, and its function is the primary's plus one, or 0. That the primary has the W bit isn't asked.
pub fn matches(primary: &Header, secondary: &Header) -> bool
    ensures { result ≡ matches primary.now secondary.now }
{
    let next = u16::from(primary.function) + 1;
    secondary.system == primary.system
        && secondary.stream == primary.stream
        && !secondary.wait
        && secondary.from_equipment != primary.from_equipment
        && (u16::from(secondary.function) == next || secondary.function == 0)
}
