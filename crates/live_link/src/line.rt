//! Where peers call, and the one that has called last: the wait over both and over input by the side.

ghost use Rattle.std.specs.Prelude.{◌≡◌, ◌≢◌, [], IfSome, None};
ghost use Rattle.std.specs.Io.KnownBytes.{Keeps, prepend_known};
ghost use Rattle.gl_base.specs.Events.{IsMomentFrom};
ghost use Rattle.gl_base.specs.declared.link.LinkIn.TheVariants as link;
ghost use Rattle.live_link.specs.Waits.{IsAnswerAt, IsTimelyWith, brings};

use crate::gathered::{Gathered, Look};
use crate::live_input::LiveInput;
use crate::watch::{Watch, Watched};
use gl_base::LinkIn;
use std::io;
use std::io::{ErrorKind, Read, Write};
use std::net::{OpenListener, OpenStream, SocketAddr};
use std::os::fd::AsRawFd;
use std::time::{Clock, Instant};

/// A peer that has called, and from where.
#[derive(Drop)]
struct Peer<S> {
    stream: S,
    address: SocketAddr,
}

/// Where peers call, the one that has called last and is still there, and when all of it began.
#[derive(Drop)]
pub(crate) struct Line<L, S> {
    pub(crate) listener: L,
    peer: Option<Peer<S>>,
    watch: Watch,
    start: Instant,
    arrived: Gathered,
    // the moment behind the read that brought what has arrived
    came: u64,
    // the last wait's read has taken all of the peer's characters, and more may come
    emptied: bool,
}

impl<L: OpenListener<Stream = S> + AsRawFd, S: Read + Write + OpenStream + AsRawFd + Drop> Line<
    L,
    S,
> {
    /// A line to whoever calls, which begins now.
    pub(crate) fn begin<C: Clock>(listener: L, watch: Watch, clock: &C) -> io::Result<Line<L, S>>
    where
        L: Drop,
    {
        listener.set_nonblocking(true)?;
        watch.add(listener.as_raw_fd(), Watched::Calls)?;
        let start = Instant::now(clock)?;
        Ok(Line {
            listener,
            peer: None,
            watch,
            start,
            arrived: Gathered::none(),
            came: 0,
            emptied: false,
        })
    }

    /// From where the peer has called that is at the line, if one is.
    pub(crate) fn caller(&self) -> Option<SocketAddr> {
        match &self.peer {
            Some(peer) => Some(peer.address),
            None => None,
        }
    }

    /// Sends characters to the peer. Those that it doesn't take are lost.
    pub(crate) fn send(&mut self, characters: &[u8]) {
        if let Some(peer) = &mut self.peer {
            let _ = peer.stream.write_all(characters);
        }
    }

    /// Waits for the peer's next character, or for input, or for news of the line, up to the moment `until`. `before`
    /// is the moment of the last answer.
    pub(crate) fn wait<I: Read + AsRawFd, C: Clock>(
        &mut self,
        input: &mut LiveInput<I>,
        clock: &C,
        before: u64,
        until: u64,
    ) -> LinkIn
        ensures time { IsTimelyWith (brings input.new.bytes input.new.news) until before result }
        ensures open { result ≢ link.Closed }
        ensures input { Keeps
            (I.remaining input.old.source)
            (prepend_known input.new.bytes (I.remaining input.new.source)) }
    {
        input.begin();
        'looks: for _ in 0..u64::MAX {
            if let Some(answer) = self.look(input, clock, before, until) {
                return answer;
            }
        }
        LinkIn::Failed
    }

    // The answer of one look; none where it has to be looked again.
    fn look<I: Read + AsRawFd, C: Clock>(
        &mut self,
        input: &mut LiveInput<I>,
        clock: &C,
        before: u64,
        until: u64,
    ) -> Option<LinkIn>
        requires { input.old.bytes ≡ [] }
        ensures time { IfSome result (IsTimelyWith (brings input.new.bytes input.new.news) until before) }
        ensures open { IfSome result (λ answer. answer ≢ link.Closed) }
        ensures input { Keeps
            (I.remaining input.old.source)
            (prepend_known input.new.bytes (I.remaining input.new.source)) }
        ensures none { result ≡ None → input.new.bytes ≡ [] }
    {
        let came = self.came.max(before);
        if came >= 1 << 62 {
            return Some(LinkIn::Failed);
        }
        if let Some(character) = self.arrived.next() {
            return Some(LinkIn::Char(character, came));
        }
        let Some(now) = self.moment(clock, before) else {
            return Some(LinkIn::Failed);
        };
        if self.attend(input, until.saturating_sub(now)).is_err() {
            return Some(LinkIn::Failed);
        }
        let Some(then) = self.moment(clock, now) else {
            return Some(LinkIn::Failed);
        };
        self.came = then;
        self.answer(input.brings() || until <= now, then)
    }

    // What there is to answer at a moment: a character, or that none has come where that is to be said.
    fn answer(&mut self, ends: bool, now: u64) -> Option<LinkIn>
        ensures { IsAnswerAt ends now result }
    {
        match self.arrived.next() {
            Some(character) => Some(LinkIn::Char(character, now)),
            None if ends => Some(LinkIn::Quiet(now)),
            None => None,
        }
    }

    // Waits for so many milliseconds, or until there is a peer that calls, a character, or input, and takes what is
    // there.
    fn attend<I: Read + AsRawFd>(&mut self, input: &mut LiveInput<I>, wait: u64) -> io::Result<()>
        requires { input.old.bytes ≡ [] }
        ensures { Keeps
            (I.remaining input.old.source)
            (prepend_known input.new.bytes (I.remaining input.new.source)) }
    {
        let at_once = self.watch_anew(input)?;
        self.watch.wait(if at_once { 0 } else { wait })?;
        if self.watch.is_ready(Watched::Calls) {
            self.accept(input)?;
        } else if self.watch.is_ready(Watched::Characters) {
            self.receive(input);
        }
        if (at_once || self.watch.is_ready(Watched::Input)) && !input.take() {
            return Err(io::Error::from(ErrorKind::Other));
        }
        Ok(())
    }

    // Watches anew what the last wait has found ready, but for a peer of which no character is left, and the input
    // before its first wait. Tells whether that can't be waited for, and is always ready.
    fn watch_anew<I: Read + AsRawFd>(&mut self, input: &mut LiveInput<I>) -> io::Result<bool>
        ensures bytes { input.new.bytes ≡ input.old.bytes }
        ensures source { input.new.source ≡ input.old.source }
    {
        if self.watch.is_ready(Watched::Calls) {
            self.watch.add(self.listener.as_raw_fd(), Watched::Calls)?;
        }
        if let Some(peer) = &self.peer
            && self.watch.is_ready(Watched::Characters)
            && !self.emptied
        {
            self.watch
                .add(peer.stream.as_raw_fd(), Watched::Characters)?;
        }
        self.emptied = false;
        input.watch(&self.watch)
    }

    // Takes a peer that calls, in place of the one before.
    fn accept<I>(&mut self, input: &mut LiveInput<I>) -> io::Result<()>
        ensures bytes { input.new.bytes ≡ input.old.bytes }
        ensures source { input.new.source ≡ input.old.source }
    {
        match self.listener.accept() {
            Ok((stream, address)) => {
                stream.set_nonblocking(true)?;
                stream.set_nodelay(true)?;
                self.watch.add(stream.as_raw_fd(), Watched::Characters)?;
                self.peer = Some(Peer { stream, address });
                input.tell();
                Ok(())
            }
            // (one that has gone meanwhile)
            Err(error) => match error.kind() {
                ErrorKind::WouldBlock | ErrorKind::Interrupted | ErrorKind::ConnectionAborted => {
                    Ok(())
                }
                _ => Err(error),
            },
        }
    }

    // Reads the peer's characters. One that has ended, or failed, is no peer any more.
    fn receive<I>(&mut self, input: &mut LiveInput<I>)
        ensures bytes { input.new.bytes ≡ input.old.bytes }
        ensures source { input.new.source ≡ input.old.source }
    {
        let Some(peer) = &mut self.peer else {
            return;
        };
        match self.arrived.fill(&mut peer.stream) {
            // (what comes behind a read that didn't fill its room is a change, which the next wait finds)
            Look::Came => {
                self.emptied = !self.arrived.is_full()
                    && !self.watch.has_ended(Watched::Characters);
            }
            Look::Nothing => {}
            Look::Ended | Look::Failed => {
                self.peer = None;
                input.tell();
            }
        }
    }

    // The moment by the clock, no earlier than the one before; none where the clock can't be read or is past all
    // moments.
    fn moment<C: Clock>(&self, clock: &C, before: u64) -> Option<u64>
        ensures { IfSome result (IsMomentFrom before) }
    {
        let passed = self.start.elapsed(clock).ok()?;
        let moment = u64::try_from(passed.as_millis()).ok()?.max(before);
        if moment < 1 << 62 { Some(moment) } else { None }
    }
}
