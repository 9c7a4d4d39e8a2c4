//! When two blocks are of one message, or are the same block: what assembly and queue find messages by.

ghost use Rattle.std.specs.Prelude.{◌≡◌};
ghost use Rattle.message_flow.specs.Key.{same_header, same_key};

use block_codec::Header;

/// Whether two blocks are of one message: all of the headers agrees but E bit and block number.
pub(crate) fn same_key(a: &Header, b: &Header) -> bool
    ensures { result ≡ same_key a.now b.now }
{
    a.from_equipment == b.from_equipment
        && a.device == b.device
        && a.stream == b.stream
        && a.wait == b.wait
        && a.function == b.function
        && a.system == b.system
}

/// Whether two headers have the same ten bytes.
pub(crate) fn same_header(a: &Header, b: &Header) -> bool
    ensures { result ≡ same_header a.now b.now }
{
    same_key(a, b) && a.last == b.last && a.number == b.number
}
