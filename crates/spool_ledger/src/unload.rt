//! An unload as a value: the message under way, with its text where it waits for a grant, and how many were confirmed.

ghost use Rattle.std.specs.Prelude.{◌≡◌, ◌≤◌, length};
ghost use Rattle.block_codec.specs.Protocol.{longest_text};

use gl_base::Row;
use std::marker::Model;

/// The text of a message that waits for its grant: one that blocks can carry.
#[derive(Debug, Drop)]
pub struct WaitingText {
    body: Row<u8>,
}

impl Model for WaitingText {
    ghost use Rattle.std.specs.Prelude.{◌≤◌, ℕ, List, length};
    ghost use Rattle.std.specs.Coded.{coded_list, coded_ℕ};
    ghost use Rattle.block_codec.specs.Protocol.{longest_text};

    ghost Value = { List ℕ };

    ghost coded = { coded_list coded_ℕ };

    ghost view = { λ inside. inside.body };

    ghost invariant = { λ inside. length inside.body ≤ longest_text };
}

impl WaitingText {
    /// A text that is short enough.
    pub fn new(body: Row<u8>) -> WaitingText
        requires { length body ≤ longest_text }
        ensures { result ≡ body }
    {
        WaitingText { body }
    }

    /// Its bytes.
    pub fn into_body(self) -> Row<u8>
        ensures body { result ≡ self }
        ensures short { length result ≤ longest_text }
    {
        self.body
    }
}

/// A message of the spool that is under way to the host.
#[derive(Debug, Drop)]
pub(crate) struct Tried {
    pub(crate) number: u64,
    /// Its text, where it waits for its grant.
    pub(crate) waiting: Option<WaitingText>,
}

/// An unload that runs.
#[derive(Debug, Drop)]
pub(crate) struct Unload {
    /// The message that was taken up, and whose reply is awaited.
    pub(crate) tried: Option<Tried>,
    /// How many messages were confirmed.
    pub(crate) confirmed: u64,
}
