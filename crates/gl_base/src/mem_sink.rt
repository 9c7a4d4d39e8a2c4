//! A sink in memory: it tells what it got, and fails where it was planned or has no room.

ghost use Rattle.std.specs.Prelude.{◌≡◌, ◌<◌, [], length, IfOk, Some};
ghost use Rattle.gl_base.specs.Calls.{no_calls};
ghost use Rattle.gl_base.specs.Sink.{HasWriteCause, Writes, WritesWithin};
ghost use Rattle.gl_base.specs.MemSink.{after_write, answer_to_write, sink_health};

use crate::calls::Calls;
use crate::no_memory::NoMemory;
use crate::row::Row;
use crate::sink::{Sink, WriteAnswer};
use std::alloc::Global;
use std::marker::Model;

/// A bounded piece of memory as a sink. The calls whose numbers it was given fail, and those whose bytes have no
/// room; no others do. It takes all its memory when it is made.
#[derive(Debug, Drop)]
pub struct MemSink {
    bytes: Vec<u8>,
    room: usize,
    calls: Calls,
}

impl Model for MemSink {
    ghost use Rattle.std.specs.Prelude.{◌≤◌, vec_capacity, vec_len};
    ghost use Rattle.gl_base.specs.MemSink.{SinkState};

    ghost Value = { SinkState };

    ghost view = { λ s. record { received = s.bytes.items; room = s.room; calls = s.calls } };

    ghost invariant = { λ s. (vec_len s.bytes ≤ s.room) × (s.room ≤ vec_capacity s.bytes) };
}

impl MemSink {
    /// An empty sink for `room` bytes that fails at a write past them alone.
    pub fn new(alloc: Global, room: usize) -> Result<MemSink, NoMemory>
        ensures { IfOk result (λ sink. sink ≡ record { received = []; room = room; calls = no_calls [] }) }
    {
        MemSink::failing(alloc, room, Row::new(alloc))
    }

    /// An empty sink for `room` bytes that fails at the writes with these numbers, counted from 1, too.
    pub fn failing(alloc: Global, room: usize, fails: Row<u32>) -> Result<MemSink, NoMemory>
        ensures { IfOk result (λ sink. sink ≡ record { received = []; room = room; calls = no_calls fails }) }
    {
        let bytes = Vec::with_capacity(alloc, room)?;
        Ok(MemSink {
            bytes,
            room,
            calls: Calls::new(fails),
        })
    }

    /// What was appended.
    pub fn bytes(&self) -> &[u8]
        ensures { result.now ≡ self.now.received }
    {
        self.bytes.as_slice()
    }
}

impl Sink for MemSink {
    ghost received = { λ s. Some s.received };

    ghost health = { sink_health };

    fn write(&mut self, bytes: &[u8]) -> WriteAnswer
        requires { 0 < length bytes.now }
        ensures within { WritesWithin (length bytes.now) result }
        ensures bytes { Writes (Some self.old.received) bytes.now (Some self.new.received) result }
        ensures cause { HasWriteCause (sink_health self.old) (sink_health self.new) (length bytes.now) result }
        ensures answer { result ≡ answer_to_write bytes.now self.old }
        ensures state { self.new ≡ after_write bytes.now self.old }
    {
        let failing = self.calls.begin();
        if failing
            || bytes.len() > self.room - self.bytes.len()
            || self.bytes.extend_from_slice(bytes).is_err()
        {
            self.calls.fail();
            return WriteAnswer::Failed;
        }
        WriteAnswer::Took(bytes.len())
    }
}
