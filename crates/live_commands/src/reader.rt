//! A row of commands, read as its bytes come in parts.

ghost use Rattle.std.specs.Prelude.{◌≡◌, ◌<◌, ◌≤◌, drop, false, length, true, None, IfOk, OnErr};
ghost use Rattle.live_commands.specs.Coming.{GoesThrough, IsNextOf, asked_left, at_start, behind_left, reads_on};
ghost use Rattle.live_commands.specs.Coming.{asked_at_end, closed};
ghost use Rattle.live_commands.specs.Commands.{FitsIfAny};

use crate::asks::Asks;
use crate::open_line::OpenLine;
use gl_base::NoMemory;
use std::alloc::Global;
use std::marker::Model;

/// Reads a row of commands as its bytes come in parts, each line as it ends. It takes all its memory when it is made,
/// but for what a line asks for.
#[derive(Drop)]
pub struct CommandReader {
    line: OpenLine,
    // the open line counts, and ends behind so many bytes of the part
    found: bool,
    taken: usize,
}

impl Model for CommandReader {
    ghost use Rattle.std.specs.Prelude.{◌≡◌, false, true};
    ghost use Rattle.line_schedule.specs.Reading.{is_passed_over};
    ghost use Rattle.live_commands.specs.Coming.{Reading};

    ghost Value = { Reading };

    ghost view = { λ r. record { here = r.line; found = r.found; taken = r.taken } };

    ghost invariant = { λ r. r.found ≡ true → is_passed_over r.line.line ≡ false };
}

impl CommandReader {
    /// No byte has come yet.
    pub fn new(alloc: Global) -> Result<CommandReader, NoMemory>
        ensures { IfOk result (λ reader. reader ≡ reads_on at_start) }
    {
        Ok(CommandReader {
            line: OpenLine::new(alloc)?,
            found: false,
            taken: 0,
        })
    }

    /// Begins to read a part that has come, behind one that was read to its end. Tells whether a line that isn't passed
    /// over ends in it.
    pub fn begin(&mut self, part: &[u8]) -> bool
        requires { self.old.found ≡ false }
        ensures through { GoesThrough self.old.here part.now self.new part.now }
        ensures found { result ≡ self.new.found }
    {
        self.taken = 0;
        self.find(part);
        self.found
    }

    /// The next line that ends in the part: its number, and what it asks for. Where memory runs out it is still to be
    /// read.
    pub fn next(&mut self, alloc: Global, part: &[u8]) -> Result<Option<(u64, Asks)>, NoMemory>
        ensures next { IfOk result (λ next. IsNextOf
            (asked_left self.old part.now)
            next
            (asked_left self.new part.now)) }
        ensures fits { IfOk result FitsIfAny }
        ensures stands { behind_left self.new part.now ≡ behind_left self.old part.now }
        ensures last { IfOk result (λ next. next ≡ None → self.new ≡ self.old) }
        ensures through { IfOk result (λ next. next ≡ None → self.new.found ≡ false) }
        ensures kept { OnErr result (self.new ≡ self.old) }
    {
        if !self.found {
            return Ok(None);
        }
        let read = self.line.read(alloc)?;
        self.found = false;
        self.find(part);
        Ok(Some(read))
    }

    /// Behind all parts the line that is open ends. Tells whether it is still to be read.
    pub fn end(&mut self, part: &[u8]) -> bool
        requires { self.old.found ≡ false }
        ensures asked { asked_left self.new part.now ≡ asked_at_end self.old.here }
        ensures stands { behind_left self.new part.now ≡ closed self.old.here }
        ensures found { result ≡ self.new.found }
    {
        self.taken = part.len();
        if self.line.counts() {
            self.found = true;
        } else {
            self.line.close();
        }
        self.found
    }

    /// Passes over all lines of the part that are still to be read.
    pub fn skip(&mut self, part: &[u8])
        ensures found { self.new.found ≡ false }
        ensures stands { self.new.here ≡ behind_left self.old part.now }
    {
        'lines: while self.found {
            self.found = false;
            self.line.close();
            self.find(part);
        }
    }

    // Takes bytes of the part up to the end of the next line that counts, or all of them.
    fn find(&mut self, part: &[u8])
        requires { self.old.found ≡ false }
        ensures through { GoesThrough self.old.here (drop self.old.taken part.now) self.new part.now }
        ensures further { self.new.found ≡ true → self.old.taken < self.new.taken }
        ensures within { self.new.found ≡ true → self.new.taken ≤ length part.now }
    {
        'lines: loop {
            let Some(taken) = self.line.take(behind(part, self.taken)) else {
                self.taken = part.len();
                return;
            };
            self.taken += taken;
            if self.line.counts() {
                self.found = true;
                return;
            }
            self.line.close();
        }
    }
}

// What stands behind so many bytes.
fn behind(bytes: &[u8], count: usize) -> &[u8]
    ensures { result.now ≡ drop count bytes.now }
{
    if count < bytes.len() {
        &bytes[count..]
    } else {
        &[]
    }
}
