//! For which connections a link was asked, which clauses say of each run over one.

ghost use Rattle.std.specs.Prelude.{◌≡◌};
ghost use Rattle.gl_base.specs.Connections.{connected_as, not_connected};

use crate::last_address::LastAddress;
use crate::side::Side;
use std::marker::Model;

/// How many connections were asked for, and the last one's side and address.
#[derive(Debug, Drop)]
pub struct Connections {
    count: u64,
    last: LastAddress,
}

impl Model for Connections {
    ghost use Rattle.gl_base.specs.Connections.{Connected};

    ghost Value = { Connected };

    ghost view = { λ c. record {
      count = c.count;
      listened_at = c.last.listened_at;
      called = c.last.called;
    } };
}

impl Connections {
    /// None yet.
    pub fn none() -> Connections
        ensures { result ≡ not_connected }
    {
        Connections {
            count: 0,
            last: LastAddress::none(),
        }
    }

    /// One more is asked for.
    pub fn add(&mut self, side: Side, address: &str)
        ensures { self.new ≡ connected_as side address.now self.old }
    {
        self.count = self.count.saturating_add(1);
        match side {
            Side::Equipment => self.last = LastAddress::listening(address.as_bytes()),
            Side::Host => self.last = LastAddress::calling(address.as_bytes()),
        }
    }
}
