//! Input that is read as it comes.

ghost use Rattle.std.specs.Prelude.{◌≡◌, [], true, false};
ghost use Rattle.std.specs.Io.KnownBytes.{Keeps, prepend_known};
ghost use Rattle.live_link.specs.Waits.{brings};

use crate::gathered::{Gathered, Look};
use crate::watch::{Watch, Watched};
use std::io;
use std::io::Read;
use std::os::fd::AsRawFd;

/// Input that is read as it comes: a pipe, a terminal or a file. Each answer of a wait over it comes with the bytes
/// that had come by then and that no answer before brought.
#[derive(Drop)]
pub struct LiveInput<I> {
    source: I,
    bytes: Gathered,
    ended: bool,
    // it has ended, or another peer is at the line, or none is any more, with the last answer
    news: bool,
    wait: Wait,
    faults: u64,
}

// How it is waited for.
#[derive(Clone, Copy)]
enum Wait {
    /// It isn't yet.
    NotYet,
    /// By a wait that watches it.
    Watched,
    /// It can't be, and is always ready.
    Never,
}

impl<I> LiveInput<I> {
    /// Nothing was read yet.
    pub fn new(source: I) -> LiveInput<I>
        ensures bytes { result.bytes ≡ [] }
        ensures ended { result.ended ≡ false }
    {
        LiveInput {
            source,
            bytes: Gathered::none(),
            ended: false,
            news: false,
            wait: Wait::NotYet,
            faults: 0,
        }
    }

    /// Input that has ended already.
    pub(crate) fn ended(source: I) -> LiveInput<I>
        ensures bytes { result.bytes ≡ [] }
        ensures ended { result.ended ≡ true }
    {
        LiveInput {
            source,
            bytes: Gathered::none(),
            ended: true,
            news: false,
            wait: Wait::NotYet,
            faults: 0,
        }
    }

    /// The bytes that came with the last answer.
    pub fn came(&self) -> &[u8]
        ensures { result.now ≡ self.now.bytes }
    {
        self.bytes.as_slice()
    }

    /// Whether it has ended: no byte comes any more.
    pub fn has_ended(&self) -> bool
        ensures { result ≡ self.now.ended }
    {
        self.ended
    }

    /// How many reads have failed. With each the wait over it fails.
    pub fn faults(&self) -> u64
        ensures { result ≡ self.now.faults }
    {
        self.faults
    }

    /// Whether something came with the last answer.
    pub(crate) fn brings(&self) -> bool
        ensures { result ≡ brings self.now.bytes self.now.news }
    {
        !self.bytes.as_slice().is_empty() || self.news
    }

    /// Nothing has come yet with the next answer.
    pub(crate) fn begin(&mut self)
        ensures bytes { self.new.bytes ≡ [] }
        ensures news { self.new.news ≡ false }
        ensures source { self.new.source ≡ self.old.source }
        ensures ended { self.new.ended ≡ self.old.ended }
    {
        self.bytes.clear();
        self.news = false;
    }

    /// There is news of the line.
    pub(crate) fn tell(&mut self)
        ensures bytes { self.new.bytes ≡ self.old.bytes }
        ensures source { self.new.source ≡ self.old.source }
        ensures ended { self.new.ended ≡ self.old.ended }
    {
        self.news = true;
    }
}

impl<I: Read + AsRawFd> LiveInput<I> {
    /// Has it watched before its first wait, and anew where the last wait has found it ready, as long as it hasn't
    /// ended. Tells whether it can't be waited for, and is always ready.
    pub(crate) fn watch(&mut self, watch: &Watch) -> io::Result<bool>
        ensures bytes { self.new.bytes ≡ self.old.bytes }
        ensures source { self.new.source ≡ self.old.source }
    {
        if self.ended {
            return Ok(false);
        }
        let is_due = match self.wait {
            Wait::NotYet => true,
            Wait::Watched => watch.is_ready(Watched::Input),
            Wait::Never => false,
        };
        if is_due {
            self.wait = if watch.add(self.source.as_raw_fd(), Watched::Input)? {
                Wait::Watched
            } else {
                Wait::Never
            };
        }
        Ok(matches!(self.wait, Wait::Never))
    }

    /// Reads what is there. Tells whether that could be done.
    pub(crate) fn take(&mut self) -> bool
        requires { self.old.bytes ≡ [] }
        ensures { Keeps
            (I.remaining self.old.source)
            (prepend_known self.new.bytes (I.remaining self.new.source)) }
    {
        match self.bytes.fill(&mut self.source) {
            Look::Came | Look::Nothing => true,
            Look::Ended => {
                self.ended = true;
                self.news = true;
                true
            }
            Look::Failed => {
                self.faults = self.faults.saturating_add(1);
                false
            }
        }
    }
}
