//! What bytes come from, as the layers above know it.

ghost use Rattle.std.specs.Prelude.{◌<◌, ℕ, List, Option, length};
ghost use Rattle.gl_base.specs.Source.{HasReadCause, Reads, SourceHealth, TakesWithin};

/// What a read came to.
#[derive(Clone, Copy, Debug, PartialEq, Eq)]
pub enum ReadAnswer {
    /// So many bytes, from the front of what was left, stand at the front of the buffer.
    Took(usize),
    /// Nothing is left.
    End,
    /// A fault, which the source has counted. Nothing was taken.
    Failed,
}

/// Something that bytes come from.
pub trait Source {
    /// The bytes that are left, where the source tells them: in memory it does, over a real object it doesn't.
    ghost left: { Self → Option (List ℕ) };

    /// How many faults were counted, and whether no read can fail any more, which no real object says.
    /// The count rises by one where a call fails, and stands at every other call and at 2^64 - 1.
    ghost health: { Self → SourceHealth };

    /// Takes at least one byte where one is left, and at most as many as `into` has.
    fn read(&mut self, into: &mut [u8]) -> ReadAnswer
        requires { 0 < length into.old }
        ensures within { TakesWithin (length into.old) result }
        ensures bytes { Reads (left self.old) (left self.new) into.new result }
        ensures cause { HasReadCause (health self.old) (health self.new) result };
}
