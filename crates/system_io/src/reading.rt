//! Anything that the system reads from as a `Source`: standard input, or an open file.

ghost use Rattle.std.specs.Prelude.{◌≡◌, ◌<◌, false, length, None};
ghost use Rattle.gl_base.specs.Source.{HasReadCause, Reads, SourceHealth, TakesWithin};
ghost use Rattle.system_io.specs.Passing.{ReadsOn};

use gl_base::{ReadAnswer, Source};
use std::io;
use std::io::Read;

/// A real object to read from, which tells nothing of its bytes and counts its faults.
#[derive(Drop)]
pub struct Reading<R> {
    inner: R,
    faults: u64,
    reason: Option<io::Error>,
}

impl<R> Reading<R> {
    /// No fault yet.
    pub fn new(inner: R) -> Reading<R>
        ensures { result ≡ record { inner = inner; faults = 0; reason = None } }
    {
        Reading {
            inner,
            faults: 0,
            reason: None,
        }
    }

    /// Why the last read failed that did. It is told once.
    pub fn take_reason(&mut self) -> Option<io::Error>
        ensures told { result ≡ self.old.reason }
        ensures once { self.new.reason ≡ None }
    {
        self.reason.take()
    }
}

impl<R: Read> Source for Reading<R> {
    ghost left = { λ _. None };

    ghost health = { λ s. record { faults = s.faults; reliable = false } };

    fn read(&mut self, into: &mut [u8]) -> ReadAnswer
        requires { 0 < length into.old }
        ensures within { TakesWithin (length into.old) result }
        ensures bytes { Reads None None into.new result }
        ensures cause { HasReadCause
            (record { faults = self.old.faults; reliable = false })
            (record { faults = self.new.faults; reliable = false })
            result }
        ensures passed { ReadsOn (R.remaining self.old.inner) (R.remaining self.new.inner) into.new result }
    {
        match self.inner.read(into) {
            Ok(0) => ReadAnswer::End,
            Ok(n) => ReadAnswer::Took(n),
            Err(error) => {
                self.faults = self.faults.saturating_add(1);
                self.reason = Some(error);
                ReadAnswer::Failed
            }
        }
    }
}

#[cfg(test)]
mod tests {
    use super::*;
    use std::test::Fail;

    #[test]
    fn reads_what_the_object_has(rt: HostRuntime) -> Result<(), Fail> {
        let mut reading = Reading::new(b"ab".as_slice());
        let mut into = [0; 8];
        assert_eq!(rt; reading.read(&mut into), ReadAnswer::Took(2));
        assert_eq!(rt; &into[..2], b"ab".as_slice());
        assert_eq!(rt; reading.read(&mut into), ReadAnswer::End);
        assert_eq!(rt; reading.faults, 0);
        Ok(())
    }
}
