//! One place of the queue: its message, and how many blocks have gone.

ghost use Rattle.std.specs.Prelude.{◌≡◌};
ghost use Rattle.message_flow.specs.Waiting.{is_named};

use crate::Message;

/// A message that waits to go out, and how many of its blocks have gone.
#[derive(Debug, Drop)]
pub(crate) struct Waiting {
    pub(crate) message: Message,
    pub(crate) gone: u16,
}

impl Waiting {
    // Whether it is a primary message or not, as asked, and has these system bytes.
    pub(crate) fn is_named(&self, primary: bool, system: u32) -> bool
        ensures { result ≡ is_named primary system self.now }
    {
        self.message.is_primary() == primary && self.message.system == system
    }
}
