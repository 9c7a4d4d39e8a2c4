//! The line of a row of commands that is open still, as its bytes come.

ghost use Rattle.std.specs.Prelude.{◌≡◌, false, not, IfOk, OnErr, OnOk};
ghost use Rattle.gl_base.specs.Faults.{one_more};
ghost use Rattle.line_schedule.specs.Reading.{is_passed_over};
ghost use Rattle.live_commands.specs.Coming.{TakesLine, at_start, closed, kept, with_bytes};
ghost use Rattle.live_commands.specs.Commands.{AsksFits, asked_by};

use crate::asks::{Asks, LINE_LIMIT, asked_by};
use gl_base::NoMemory;
use line_schedule::{is_passed_over, place_of};
use std::alloc::Global;
use std::marker::Model;

/// The line that is open, of a longer one 1 MiB and a byte, behind so many that counted. It takes all its memory when
/// it is made.
#[derive(Drop)]
pub(crate) struct OpenLine {
    number: u64,
    bytes: Vec<u8>,
}

impl Model for OpenLine {
    ghost use Rattle.std.specs.Prelude.{◌+◌, ◌≤◌, vec_capacity, vec_len};
    ghost use Rattle.live_commands.specs.Coming.{Standing};
    ghost use Rattle.live_commands.specs.Commands.{line_limit};

    ghost Value = { Standing };

    ghost view = { λ l. record { number = l.number; line = l.bytes.items } };

    ghost invariant = { λ l. (vec_len l.bytes ≤ line_limit + 1) × (line_limit + 1 ≤ vec_capacity l.bytes) };
}

impl OpenLine {
    /// No byte has come yet.
    pub(crate) fn new(alloc: Global) -> Result<OpenLine, NoMemory>
        ensures { IfOk result (λ line. line ≡ at_start) }
    {
        Ok(OpenLine {
            number: 0,
            bytes: Vec::with_capacity(alloc, LINE_LIMIT + 1)?,
        })
    }

    /// Takes the bytes up to the end of the line, and tells how many these are; or all of them, where it doesn't end.
    pub(crate) fn take(&mut self, bytes: &[u8]) -> Option<usize>
        ensures { TakesLine self.old bytes.now self.new result }
    {
        match place_of(b'\n', bytes) {
            Some(at) => {
                self.keep(&bytes[..at]);
                Some(at + 1)
            }
            None => {
                self.keep(bytes);
                None
            }
        }
    }

    /// Whether the line counts, if it ends here: it isn't passed over.
    pub(crate) fn counts(&self) -> bool
        ensures { result ≡ not (is_passed_over self.now.line) }
    {
        !is_passed_over(&self.bytes)
    }

    /// The line ends here.
    pub(crate) fn close(&mut self)
        ensures { self.new ≡ closed self.old }
    {
        if self.counts() {
            self.number = self.number.saturating_add(1);
        }
        self.bytes.clear();
    }

    /// The line ends here, and counts: its number, and what it asks for. Where memory runs out it stays open.
    pub(crate) fn read(&mut self, alloc: Global) -> Result<(u64, Asks), NoMemory>
        requires { is_passed_over self.old.line ≡ false }
        ensures number { IfOk result (λ read. read.0 ≡ one_more self.old.number) }
        ensures asked { IfOk result (λ read. read.1 ≡ asked_by self.old.line) }
        ensures fits { IfOk result (λ read. AsksFits read.1) }
        ensures closed { OnOk result (self.new ≡ closed self.old) }
        ensures open { OnErr result (self.new ≡ self.old) }
    {
        let asks = asked_by(alloc, &self.bytes)?;
        self.close();
        Ok((self.number, asks))
    }

    // Keeps more bytes.
    fn keep(&mut self, bytes: &[u8])
        ensures new { self.new ≡ with_bytes bytes.now self.old }
        ensures kept { kept self.old.line ≡ self.old.line }
    {
        let room = LINE_LIMIT + 1 - self.bytes.len();
        let fitting = room.min(bytes.len());
        self.bytes.extend_from_slice(&bytes[..fitting]).unwrap();
    }
}
