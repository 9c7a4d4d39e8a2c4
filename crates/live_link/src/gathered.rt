//! The bytes of one read, which are taken one by one or looked at together.

ghost use Rattle.std.specs.Prelude.{◌≡◌, []};
ghost use Rattle.std.specs.Io.KnownBytes.{Keeps, prepend_known};
ghost use Rattle.live_link.specs.Arrived.{IsNextOf};
ghost use Rattle.std.specs.IoError.{error_kind};
ghost use Rattle.live_link.specs.Looks.{look_of_kind};

use std::io;
use std::io::{ErrorKind, Read};
use std::marker::Model;

/// What a look for bytes came to.
#[derive(Clone, Copy)]
pub(crate) enum Look {
    /// Some came.
    Came,
    /// None is there yet.
    Nothing,
    /// No more will come.
    Ended,
    Failed,
}

/// The bytes of one read that weren't taken yet.
#[derive(Drop)]
pub(crate) struct Gathered {
    bytes: [u8; 4096],
    taken: usize,
    count: usize,
}

impl Model for Gathered {
    ghost use Rattle.std.specs.Prelude.{ℕ, ◌≤◌, List, drop, take};

    ghost Value = { List ℕ };

    ghost view = { λ a. drop a.taken (take a.count a.bytes) };

    ghost invariant = { λ a. (a.taken ≤ a.count) × (a.count ≤ 4096) };
}

impl Gathered {
    pub(crate) fn none() -> Gathered
        ensures { result ≡ [] }
    {
        Gathered {
            bytes: [0; 4096],
            taken: 0,
            count: 0,
        }
    }

    pub(crate) fn clear(&mut self)
        ensures { self.new ≡ [] }
    {
        self.taken = 0;
        self.count = 0;
    }

    /// The byte that came first, if there is one.
    pub(crate) fn next(&mut self) -> Option<u8>
        ensures { IsNextOf self.old result self.new }
    {
        if self.taken == self.count {
            return None;
        }
        let byte = self.bytes[self.taken];
        self.taken += 1;
        Some(byte)
    }

    /// Whether the last read may have left some: it filled its room, and nothing was taken since.
    pub(crate) fn is_full(&self) -> bool {
        self.count - self.taken == self.bytes.len()
    }

    /// All of them.
    pub(crate) fn as_slice(&self) -> &[u8]
        ensures { result.now ≡ self.now }
    {
        &self.bytes[self.taken..self.count]
    }

    /// Takes what one read gives, in place of what there was.
    pub(crate) fn fill<S: Read>(&mut self, from: &mut S) -> Look
        ensures { Keeps (S.remaining from.old) (prepend_known self.new (S.remaining from.new)) }
    {
        match self.read(from) {
            Ok(0) => Look::Ended,
            Ok(_) => Look::Came,
            Err(error) => look_of(&error),
        }
    }

    // The same, and how many bytes it has given.
    fn read<S: Read>(&mut self, from: &mut S) -> io::Result<usize>
        ensures { Keeps (S.remaining from.old) (prepend_known self.new (S.remaining from.new)) }
    {
        self.taken = 0;
        self.count = 0;
        match from.read(&mut self.bytes) {
            Ok(count) => {
                self.count = count;
                Ok(count)
            }
            Err(error) => Err(error),
        }
    }
}

// What a read means that has given nothing: one that was interrupted, or would wait, is made again.
fn look_of(error: &io::Error) -> Look
    ensures { result ≡ look_of_kind (error_kind error.now) }
{
    match error.kind() {
        ErrorKind::Interrupted | ErrorKind::WouldBlock => Look::Nothing,
        _ => Look::Failed,
    }
}
