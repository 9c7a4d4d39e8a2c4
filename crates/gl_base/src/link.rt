//! A connection to a peer, as the layers above know it.

ghost use Rattle.std.specs.Prelude.{◌≡◌, ℕ, ◌<◌, ◌^◌, Option, length};
ghost use Rattle.gl_base.specs.Connections.{Connected, connected_as};
ghost use Rattle.gl_base.specs.Events.{moment_after};
ghost use Rattle.gl_base.specs.Link.{HasLinkCause, HasPollCause, IsTimely, IsToldAnswer, LinkContents, LinkHealth};
ghost use Rattle.gl_base.specs.Link.{Transmits, told_after_poll};

use crate::side::Side;

/// What a connecting or a sending came to.
#[derive(Clone, Copy, Debug, PartialEq, Eq)]
pub enum LinkAnswer {
    Done,
    /// A fault, which the link has counted.
    Failed,
}

/// What a poll came to. Moments are milliseconds since the connection.
#[derive(Clone, Copy, Debug, PartialEq, Eq)]
pub enum LinkIn {
    /// This character came, at this moment.
    Char(u8, u64),
    /// No character came up to this moment.
    Quiet(u64),
    /// The peer ended the connection.
    Closed,
    /// A fault, which the link has counted.
    Failed,
}

/// An entry of a link's list: a poll that didn't fail, with the moment asked and its answer, or a sent character.
#[derive(Clone, Copy, Debug, PartialEq, Eq)]
pub enum LinkEntry {
    Polled { until: u64, answer: LinkIn },
    Sent(u8),
}

/// A connection to a peer: characters come and go, and a clock runs.
pub trait Link {
    /// The link's list so far and the answers still to come, where it tells them: in memory it does, over a real
    /// object it doesn't. No call changes whether it tells.
    ghost told: { Self → Option LinkContents };

    /// The moment of the last answer that had one, and 0 before the first since the connection.
    ghost moment: { Self → ℕ };

    /// How many faults were counted, whether no call can fail but for want of room, and for how many more entries
    /// there is room for sure, 0 over a real object. The count rises by one where a call fails, and stands at every
    /// other call and at 2^64 - 1.
    ghost health: { Self → LinkHealth };

    /// For how many connections it was asked, and the last one's address, where it was to listen, or to call.
    ghost connected: { Self → Connected };

    /// Listens as the equipment, or calls as the host, until the peer is there. It was asked for one connection more,
    /// and the clock begins anew, also where this fails; the list and the answers to come stay. It needs no room.
    fn connect(&mut self, side: Side, address: &str) -> LinkAnswer
        ensures same { told self.new ≡ told self.old }
        ensures moment { moment self.new ≡ 0 }
        ensures connected { connected self.new ≡ connected_as side address.now (connected self.old) }
        ensures cause { HasLinkCause (health self.old) (health self.new) 0 result };

    /// Waits for a character, up to the moment `until` or a shorter time. A poll that fails takes no answer and adds
    /// no entry, and leaves the clock; each other one adds one entry.
    fn poll(&mut self, until: u64) -> LinkIn
        requires { until < 2 ^ 62 }
        ensures next { IsToldAnswer (told self.old) result }
        ensures told { told self.new ≡ told_after_poll until result (told self.old) }
        ensures time { IsTimely until (moment self.old) result }
        ensures moment { moment self.new ≡ moment_after (moment self.old) result }
        ensures connected { connected self.new ≡ connected self.old }
        ensures cause { HasPollCause (health self.old) (health self.new) result };

    /// Sends all characters, or where it fails a part from the front that isn't all of them. Each adds one entry.
    /// The answers to come and the clock stay.
    fn send(&mut self, bytes: &[u8]) -> LinkAnswer
        requires { 0 < length bytes.now }
        ensures told { Transmits (told self.old) bytes.now (told self.new) result }
        ensures moment { moment self.new ≡ moment self.old }
        ensures connected { connected self.new ≡ connected self.old }
        ensures cause { HasLinkCause (health self.old) (health self.new) (length bytes.now) result };
}
