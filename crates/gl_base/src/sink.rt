//! What bytes go to, as the layers above know it.

ghost use Rattle.std.specs.Prelude.{◌<◌, ℕ, List, Option, length};
ghost use Rattle.gl_base.specs.Sink.{HasWriteCause, SinkHealth, Writes, WritesWithin};

/// What a write came to.
#[derive(Clone, Copy, Debug, PartialEq, Eq)]
pub enum WriteAnswer {
    /// So many bytes, from the front, were appended.
    Took(usize),
    /// A fault, which the sink has counted. Nothing was appended.
    Failed,
}

/// Something that bytes go to.
pub trait Sink {
    /// What was appended, where the sink tells it: in memory it does, over a real object it doesn't.
    ghost received: { Self → Option (List ℕ) };

    /// How many faults were counted, and for how many more bytes there is room for sure, 0 over a real
    /// object. The count rises by one where a call fails, and stands at every other call and at 2^64 - 1.
    ghost health: { Self → SinkHealth };

    /// Appends at least one byte.
    fn write(&mut self, bytes: &[u8]) -> WriteAnswer
        requires { 0 < length bytes.now }
        ensures within { WritesWithin (length bytes.now) result }
        ensures bytes { Writes (received self.old) bytes.now (received self.new) result }
        ensures cause { HasWriteCause (health self.old) (health self.new) (length bytes.now) result };
}
