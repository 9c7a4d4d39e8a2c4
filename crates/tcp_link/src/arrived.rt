//! The characters that one read has brought, which are handed out one a poll.

ghost use Rattle.std.specs.Prelude.{◌≡◌, []};
ghost use Rattle.std.specs.Io.KnownBytes.{Keeps, prepend_known};
ghost use Rattle.tcp_link.specs.Arrived.{IsNextOf};

use std::io;
use std::io::Read;
use std::marker::Model;

/// The characters of one read that weren't handed out yet.
#[derive(Drop)]
pub(crate) struct Arrived {
    bytes: [u8; 256],
    taken: usize,
    count: usize,
}

impl Model for Arrived {
    ghost use Rattle.std.specs.Prelude.{ℕ, ◌≤◌, List, drop, take};

    ghost Value = { List ℕ };

    ghost view = { λ a. drop a.taken (take a.count a.bytes) };

    ghost invariant = { λ a. (a.taken ≤ a.count) × (a.count ≤ 256) };
}

impl Arrived {
    pub(crate) fn none() -> Arrived
        ensures { result ≡ [] }
    {
        Arrived {
            bytes: [0; 256],
            taken: 0,
            count: 0,
        }
    }

    /// The character that came first, if there is one.
    pub(crate) fn next(&mut self) -> Option<u8>
        ensures { IsNextOf self.old result self.new }
    {
        if self.taken == self.count {
            return None;
        }
        let character = self.bytes[self.taken];
        self.taken += 1;
        Some(character)
    }

    /// Takes what one read gives, in place of what there was, and says how many characters these are.
    pub(crate) fn fill<S: Read>(&mut self, from: &mut S) -> io::Result<usize>
        ensures { Keeps (S.remaining from.old) (prepend_known self.new (S.remaining from.new)) }
    {
        self.taken = 0;
        self.count = 0;
        match from.read(&mut self.bytes) {
            Ok(count) => {
                self.count = count;
                Ok(count)
            }
            Err(error) => Err(error),
        }
    }
}
