//! Anything that the system writes to as a `Sink`: standard output, and standard error.

ghost use Rattle.std.specs.Prelude.{◌≡◌, ◌<◌, length, None};
ghost use Rattle.std.specs.Option.{option_map};
ghost use Rattle.gl_base.specs.Faults.{Rose};
ghost use Rattle.gl_base.specs.declared.sink.WriteAnswer.{WriteAnswer};
ghost use Rattle.gl_base.specs.Sink.{HasWriteCause, SinkHealth, Writes, WritesWithin};
ghost use Rattle.system_io.specs.Passing.{WritesOn};

use gl_base::{Sink, WriteAnswer};
use std::io;
use std::io::Write;

/// A real object to write to, which tells nothing of its bytes and counts its faults.
#[derive(Drop)]
pub struct Writing<W> {
    inner: W,
    faults: u64,
    reason: Option<io::Error>,
}

impl<W> Writing<W> {
    /// No fault yet.
    pub fn new(inner: W) -> Writing<W>
        ensures { result ≡ record { inner = inner; faults = 0; reason = None } }
    {
        Writing {
            inner,
            faults: 0,
            reason: None,
        }
    }

    /// Why the last write failed that did.
    pub fn reason(&self) -> Option<&io::Error>
        ensures { option_map (λ reason. reason.now) result ≡ self.now.reason }
    {
        self.reason.as_ref()
    }
}

impl<W> Writing<W> {
    // Counts a fault.
    fn fail(&mut self, reason: Option<io::Error>) -> WriteAnswer
        ensures failed { result ≡ WriteAnswer.Failed }
        ensures rose { Rose self.old.faults self.new.faults }
        ensures inner { self.new.inner ≡ self.old.inner }
    {
        self.faults = self.faults.saturating_add(1);
        self.reason = reason;
        WriteAnswer::Failed
    }
}

impl<W: Write> Sink for Writing<W> {
    ghost received = { λ _. None };

    ghost health = { λ s. record { faults = s.faults; room = 0 } };

    // Where the object takes no byte, a fault is counted, as at an error.
    fn write(&mut self, bytes: &[u8]) -> WriteAnswer
        requires { 0 < length bytes.now }
        ensures within { WritesWithin (length bytes.now) result }
        ensures bytes { Writes None bytes.now None result }
        ensures cause { HasWriteCause
            (record { faults = self.old.faults; room = 0 })
            (record { faults = self.new.faults; room = 0 })
            (length bytes.now)
            result }
        ensures passed { WritesOn (W.contents self.old.inner) (W.contents self.new.inner) bytes.now result }
    {
        match self.inner.write(bytes) {
            Ok(n) if n > 0 => WriteAnswer::Took(n),
            Ok(_) => self.fail(None),
            Err(error) => self.fail(Some(error)),
        }
    }
}

#[cfg(test)]
mod tests {
    use super::*;
    use std::test::Fail;

    #[test]
    fn writes_what_the_object_takes(rt: HostRuntime) -> Result<(), Fail> {
        let mut room = [0; 3];
        let mut writing = Writing::new(room.as_mut_slice());
        assert_eq!(rt; writing.write(b"ab"), WriteAnswer::Took(2));
        assert_eq!(rt; writing.write(b"cd"), WriteAnswer::Took(1));
        assert_eq!(rt; writing.write(b"d"), WriteAnswer::Failed);
        assert_eq!(rt; writing.faults, 1);
        assert_eq!(rt; room.as_slice(), b"abc".as_slice());
        Ok(())
    }
}
