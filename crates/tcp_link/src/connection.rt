//! A connection to a peer: its polls, by reads that wait or don't, at moments of the reads that never go back.

ghost use Rattle.std.specs.Prelude.{◌≡◌, [], IfSome};
ghost use Rattle.std.specs.Io.KnownBytes.{Keeps, prepend_known};
ghost use Rattle.gl_base.specs.Events.{IsMomentFrom};
ghost use Rattle.gl_base.specs.Link.{IsTimely};
ghost use Rattle.tcp_link.specs.Arrived.{HandsOut, IsDue, LooksOn};
ghost use Rattle.tcp_link.specs.Looks.{look_of};

use crate::arrived::Arrived;
use gl_base::LinkIn;
use std::io;
use std::io::{ErrorKind, Read};
use std::net::OpenStream;
use std::time::{Clock, Duration, Instant};

/// What a look for characters came to.
#[derive(Clone, Copy)]
pub(crate) enum Look {
    /// Some may be there now: it has to be looked again.
    Again,
    /// None came in the time that was given.
    Nothing,
    /// The peer ended the connection.
    Ended,
    Failed,
}

/// A connection to the peer, and when it began.
#[derive(Drop)]
pub(crate) struct Connection<S> {
    pub(crate) stream: S,
    start: Instant,
    arrived: Arrived,
    // the moment behind the read that brought what has arrived
    came: u64,
}

// The longest time of one wait, in milliseconds. A longer one is made of several.
const LONGEST_WAIT: u64 = 3_600_000;

// How many seconds a sending may wait for a peer that takes no characters.
const LONGEST_SENDING: u64 = 10;

impl<S: Read + OpenStream> Connection<S> {
    /// A connection over this stream, which begins now. Each character is sent at once, without waiting for more.
    pub(crate) fn begin<C: Clock>(stream: S, clock: &C) -> io::Result<Connection<S>>
    where
        S: Drop,
    {
        stream.set_nodelay(true)?;
        stream.set_write_timeout(Some(Duration::from_secs(LONGEST_SENDING)))?;
        let start = Instant::now(clock)?;
        Ok(Connection {
            stream,
            start,
            arrived: Arrived::none(),
            came: 0,
        })
    }

    /// Waits for the next character up to the moment `until`. `before` is the moment of the last answer. A character's
    /// moment is that of the read that brought it, however much later it is asked for.
    pub(crate) fn poll<C: Clock>(&mut self, clock: &C, before: u64, until: u64) -> LinkIn
        ensures time { IsTimely until before result }
        ensures due { IsDue until result }
        ensures order { HandsOut
            (prepend_known self.old.arrived (S.remaining self.old.stream))
            (prepend_known self.new.arrived (S.remaining self.new.stream))
            result }
    {
        'looks: for _ in 0..u64::MAX {
            if let Some(answer) = self.look(clock, before, until) {
                return answer;
            }
        }
        LinkIn::Failed
    }

    // The answer of one look; none where it has to be looked again.
    fn look<C: Clock>(&mut self, clock: &C, before: u64, until: u64) -> Option<LinkIn>
        ensures time { IfSome result (IsTimely until before) }
        ensures due { IfSome result (IsDue until) }
        ensures order { LooksOn
            (prepend_known self.old.arrived (S.remaining self.old.stream))
            (prepend_known self.new.arrived (S.remaining self.new.stream))
            result }
    {
        let came = self.came.max(before);
        if came >= 1 << 62 {
            return Some(LinkIn::Failed);
        }
        if let Some(character) = self.arrived.next() {
            return Some(LinkIn::Char(character, came));
        }
        let Some(now) = self.moment(clock, before) else {
            return Some(LinkIn::Failed);
        };
        match look_of(&self.read_within(until.saturating_sub(now))) {
            Look::Nothing if until <= now => Some(LinkIn::Quiet(now)),
            Look::Nothing => None,
            Look::Again => {
                if self.date(clock, before) {
                    None
                } else {
                    Some(LinkIn::Failed)
                }
            }
            Look::Ended => Some(LinkIn::Closed),
            Look::Failed => Some(LinkIn::Failed),
        }
    }

    // What has arrived came by now. It answers whether the clock could tell.
    fn date<C: Clock>(&mut self, clock: &C, before: u64) -> bool
        ensures arrived { self.new.arrived ≡ self.old.arrived }
        ensures stream { self.new.stream ≡ self.old.stream }
    {
        match self.moment(clock, before) {
            Some(moment) => {
                self.came = moment;
                true
            }
            None => false,
        }
    }

    // The moment by the clock, no earlier than the one before; none where the clock can't be read or is past all
    // moments.
    fn moment<C: Clock>(&self, clock: &C, before: u64) -> Option<u64>
        ensures { IfSome result (IsMomentFrom before) }
    {
        let passed = self.start.elapsed(clock).ok()?;
        let moment = u64::try_from(passed.as_millis()).ok()?.max(before);
        if moment < 1 << 62 { Some(moment) } else { None }
    }

    // Reads what is there, or what comes first within so many milliseconds.
    fn read_within(&mut self, wait: u64) -> io::Result<usize>
        requires { self.old.arrived ≡ [] }
        ensures { Keeps
            (S.remaining self.old.stream)
            (prepend_known self.new.arrived (S.remaining self.new.stream)) }
    {
        if wait == 0 {
            return self.read_now();
        }
        let longest = Duration::from_millis(wait.min(LONGEST_WAIT));
        self.stream.set_read_timeout(Some(longest))?;
        self.arrived.fill(&mut self.stream)
    }

    // Reads what is there, without waiting. The shortest time limit of the system is no such look.
    fn read_now(&mut self) -> io::Result<usize>
        requires { self.old.arrived ≡ [] }
        ensures { Keeps
            (S.remaining self.old.stream)
            (prepend_known self.new.arrived (S.remaining self.new.stream)) }
    {
        self.stream.set_nonblocking(true)?;
        let count = self.arrived.fill(&mut self.stream);
        self.stream.set_nonblocking(false)?;
        count
    }
}

// What a read's answer means. A connection that was reset was ended by the peer, or by its system.
fn look_of(answer: &io::Result<usize>) -> Look
    ensures { result ≡ look_of answer.now }
{
    match answer {
        Ok(0) => Look::Ended,
        Ok(_) => Look::Again,
        Err(error) => match error.kind() {
            ErrorKind::Interrupted => Look::Again,
            ErrorKind::WouldBlock => Look::Nothing,
            ErrorKind::ConnectionReset => Look::Ended,
            _ => Look::Failed,
        },
    }
}
