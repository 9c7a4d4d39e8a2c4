//! One open transaction, and the tests by which it is found.

ghost use Rattle.std.specs.Prelude.{◌≡◌};
ghost use Rattle.transact.specs.Transactions.{has_system, is_answered_by, is_due};

use crate::matching::matches;
use block_codec::Header;

/// An open transaction: the header of its primary, what the sender keeps of it, and when T3 runs out, if T3 runs.
#[derive(Clone, Copy, Debug)]
pub(crate) struct Begun<K> {
    pub(crate) header: Header,
    pub(crate) kind: K,
    pub(crate) deadline: Option<u64>,
}

impl<K: Copy> Begun<K> {
    // Whether its primary has these system bytes.
    pub(crate) fn has_system(&self, system: u32) -> bool
        ensures { result ≡ has_system system self.now }
    {
        self.header.system == system
    }

    // Whether a header is of an answer to its primary.
    pub(crate) fn is_answered_by(&self, header: &Header) -> bool
        ensures { result ≡ is_answered_by header.now self.now }
    {
        matches(&self.header, header)
    }

    // Whether T3 has run out.
    pub(crate) fn is_due(&self, now: u64) -> bool
        ensures { result ≡ is_due now self.now }
    {
        match self.deadline {
            Some(deadline) => deadline <= now,
            None => false,
        }
    }
}
