//! A source in memory: it tells what is left, and fails where it was planned.

ghost use Rattle.std.specs.Prelude.{◌≡◌, ◌<◌, [], length, Some};
ghost use Rattle.gl_base.specs.Calls.{no_calls};
ghost use Rattle.gl_base.specs.Source.{HasReadCause, Reads, TakesWithin};
ghost use Rattle.gl_base.specs.MemSource.{after_read, answer_to_read, buffer_after, source_health};

use crate::calls::Calls;
use crate::row::Row;
use crate::source::{ReadAnswer, Source};
use std::marker::Model;

/// Bytes in memory as a source. The calls whose numbers it was given fail, all of them and no others.
#[derive(Debug, Drop)]
pub struct MemSource {
    bytes: Row<u8>,
    taken: usize,
    calls: Calls,
}

impl Model for MemSource {
    ghost use Rattle.std.specs.Prelude.{◌≤◌, drop, length};
    ghost use Rattle.gl_base.specs.MemSource.{SourceState};

    ghost Value = { SourceState };

    ghost view = { λ s. record { left = drop s.taken s.bytes; calls = s.calls } };

    ghost invariant = { λ s. s.taken ≤ length s.bytes };
}

impl MemSource {
    /// A source of these bytes that never fails.
    pub fn new(bytes: Row<u8>) -> MemSource
        ensures { result ≡ record { left = bytes; calls = no_calls [] } }
    {
        let fails = bytes.empty();
        MemSource::failing(bytes, fails)
    }

    /// A source of these bytes that fails at the reads with these numbers, counted from 1.
    pub fn failing(bytes: Row<u8>, fails: Row<u32>) -> MemSource
        ensures { result ≡ record { left = bytes; calls = no_calls fails } }
    {
        MemSource {
            bytes,
            taken: 0,
            calls: Calls::new(fails),
        }
    }
}

impl Source for MemSource {
    ghost left = { λ s. Some s.left };

    ghost health = { source_health };

    fn read(&mut self, into: &mut [u8]) -> ReadAnswer
        requires { 0 < length into.old }
        ensures within { TakesWithin (length into.old) result }
        ensures bytes { Reads (Some self.old.left) (Some self.new.left) into.new result }
        ensures cause { HasReadCause (source_health self.old) (source_health self.new) result }
        ensures answer { result ≡ answer_to_read (length into.old) self.old }
        ensures buffer { into.new ≡ buffer_after self.old into.old result }
        ensures state { self.new ≡ after_read (length into.old) self.old }
    {
        if self.calls.begin() {
            self.calls.fail();
            return ReadAnswer::Failed;
        }
        let left = &self.bytes.as_slice()[self.taken..];
        if left.is_empty() {
            return ReadAnswer::End;
        }
        let n = left.len().min(into.len());
        into[..n].copy_from_slice(&left[..n]);
        self.taken += n;
        ReadAnswer::Took(n)
    }
}
