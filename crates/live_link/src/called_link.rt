//! The calls of a link by a line to whoever calls, over any system that has connections; its test has a real one.

ghost use Rattle.std.specs.Prelude.{◌≡◌, ◌≢◌, ◌<◌, ◌≤◌, ◌^◌, IfOk, None, length};
ghost use Rattle.std.specs.Option.{option_map};
ghost use Rattle.std.specs.Io.KnownBytes.{Keeps, prepend_known};
ghost use Rattle.gl_base.specs.Connections.{connected_as, not_connected};
ghost use Rattle.gl_base.specs.Events.{moment_after};
ghost use Rattle.gl_base.specs.Faults.{Rose};
ghost use Rattle.gl_base.specs.Link.{HasLinkCause, HasPollCause, IsTimely, IsToldAnswer, Transmits, told_after_poll};
ghost use Rattle.gl_base.specs.declared.link.LinkAnswer.{LinkAnswer};
ghost use Rattle.gl_base.specs.declared.link.LinkIn.TheVariants as link;
ghost use Rattle.live_link.specs.Waits.{CountsWait, IsTimelyWith, brings, called_health};

use crate::line::Line;
use crate::live_input::LiveInput;
use crate::watch::{Watch, room};
use gl_base::{Connections, Link, LinkAnswer, LinkIn, NoMemory, Side};
use mio::Events;
use std::alloc::Global;
use std::io;
use std::io::{ErrorKind, Read, Write};
use std::net::{Net, OpenListener, OpenStream, SocketAddr, TcpListener};
use std::os::fd::{AsRawFd, RawFd};
use std::time::Clock;

/// A line over TCP to whoever calls, as a link of the equipment, which tells nothing of its characters. It listens for
/// good, and its clock begins with that. A peer that calls takes the line from the one before. While nobody is there
/// nothing comes, and what is sent is lost; so is what a peer doesn't take. That a peer goes is no fault and ends
/// nothing, so a poll never answers `Closed`. Its moments are those of the system's clock, of a character behind the
/// read that brought it. It counts its faults: an address that can't be listened at, a clock that can't be read, a
/// wait that fails, and a poll or a sending before it listens.
#[derive(Drop)]
pub struct CalledLink<R: Net> {
    system: R,
    // room for what a wait finds, until it listens
    room: Option<Events>,
    line: Option<Line<R::Listener, R::Stream>>,
    moment: u64,
    faults: u64,
    reason: Option<io::Error>,
    connections: Connections,
}

// No input.
#[derive(Drop)]
struct Nothing;

impl Read for Nothing {
    fn read(&mut self, _buf: &mut [u8]) -> io::Result<usize> {
        Ok(0)
    }
}

impl AsRawFd for Nothing {
    fn as_raw_fd(&self) -> RawFd {
        -1
    }
}

impl<R: Net + Clock> CalledLink<R> {
    /// It doesn't listen yet.
    pub fn new(alloc: Global, system: R) -> Result<CalledLink<R>, NoMemory>
    where
        R: Drop,
        ensures faults { IfOk result (λ link. link.faults ≡ 0) }
        ensures connections { IfOk result (λ link. link.connections ≡ not_connected) }
    {
        Ok(CalledLink {
            system,
            room: Some(room(alloc)?),
            line: None,
            moment: 0,
            faults: 0,
            reason: None,
            connections: Connections::none(),
        })
    }

    /// The moment of the last answer.
    pub fn moment(&self) -> u64
        ensures { result ≡ self.now.moment }
    {
        self.moment
    }

    /// Why it can't listen, where it was asked to and can't.
    pub fn reason(&self) -> Option<&io::Error>
        ensures { option_map (λ reason. reason.now) result ≡ self.now.reason }
    {
        self.reason.as_ref()
    }

    /// Fails a wait over it that has looked in vain as often as can be counted.
    pub fn give_up(&mut self) -> LinkIn
        ensures failed { result ≡ link.Failed }
        ensures rose { Rose self.old.faults self.new.faults }
        ensures connections { self.new.connections ≡ self.old.connections }
        ensures moment { self.new.moment ≡ self.old.moment }
    {
        self.faults = self.faults.saturating_add(1);
        LinkIn::Failed
    }

    /// From where the peer has called that is at the line, if one is.
    pub fn caller(&self) -> Option<SocketAddr> {
        match &self.line {
            Some(line) => line.caller(),
            None => None,
        }
    }

    /// Waits for a character, up to the moment `until`, and meanwhile for input and for news of the line: that another
    /// peer is there, or none any more. What has come of these by the answer is with the input. A quiet time that
    /// brings something may be of the moment before.
    pub fn wait<I: Read + AsRawFd>(&mut self, input: &mut LiveInput<I>, until: u64) -> LinkIn
        ensures time { IsTimelyWith (brings input.new.bytes input.new.news) until self.old.moment result }
        ensures open { result ≢ link.Closed }
        ensures moment { self.new.moment ≡ moment_after self.old.moment result }
        ensures connected { self.new.connections ≡ self.old.connections }
        ensures count { CountsWait self.old.faults self.new.faults result }
        ensures input { Keeps
            (I.remaining input.old.source)
            (prepend_known input.new.bytes (I.remaining input.new.source)) }
    {
        let answer = waited(&mut self.line, input, &self.system, self.moment, until);
        self.moment = moment_of(self.moment, answer);
        self.faults = faults_of(self.faults, answer);
        answer
    }

    // Listens at an address, such as `127.0.0.1:5000`.
    fn listen(&mut self, address: &str) -> io::Result<Line<R::Listener, R::Stream>>
        ensures faults { self.new.faults ≡ self.old.faults }
        ensures connections { self.new.connections ≡ self.old.connections }
        ensures moment { self.new.moment ≡ self.old.moment }
    {
        let Some(room) = self.room.take() else {
            return Err(io::Error::from(ErrorKind::AlreadyExists));
        };
        let listener = TcpListener::bind(&self.system, address)?;
        let watch = Watch::new(&self.system, room)?;
        Line::begin(listener, watch, &self.system)
    }

    // Counts a fault.
    fn fail(&mut self) -> LinkAnswer
        ensures failed { result ≡ LinkAnswer.Failed }
        ensures rose { Rose self.old.faults self.new.faults }
        ensures connections { self.new.connections ≡ self.old.connections }
        ensures moment { self.new.moment ≡ self.old.moment }
    {
        self.faults = self.faults.saturating_add(1);
        LinkAnswer::Failed
    }
}

impl<R: Net + Clock> Link for CalledLink<R> {
    ghost told = { λ _. None };

    ghost moment = { λ s. s.moment };

    ghost health = { λ s. called_health s.faults };

    ghost connected = { λ s. s.connections };

    // It calls nobody.
    fn connect(&mut self, side: Side, address: &str) -> LinkAnswer {
        self.connections.add(side, address);
        self.moment = 0;
        match side {
            Side::Equipment => match self.listen(address) {
                Ok(line) => {
                    self.line = Some(line);
                    LinkAnswer::Done
                }
                Err(error) => {
                    self.reason = Some(error);
                    self.fail()
                }
            },
            Side::Host => self.fail(),
        }
    }

    fn poll(&mut self, until: u64) -> LinkIn
        requires { until < 2 ^ 62 }
        ensures next { IsToldAnswer None result }
        ensures told { None ≡ told_after_poll until result None }
        ensures time { IsTimely until self.old.moment result }
        ensures moment { self.new.moment ≡ moment_after self.old.moment result }
        ensures connected { self.new.connections ≡ self.old.connections }
        ensures cause { HasPollCause (called_health self.old.faults) (called_health self.new.faults) result }
        ensures open { result ≢ link.Closed }
    {
        let mut nothing = LiveInput::ended(Nothing);
        let before = self.moment;
        'waits: for _ in 0..u64::MAX {
            match self.wait(&mut nothing, until) {
                // (news of the line)
                LinkIn::Quiet(moment) if moment < until && moment == before => {}
                answer => return answer,
            }
        }
        self.give_up()
    }

    fn send(&mut self, bytes: &[u8]) -> LinkAnswer
        requires { 0 < length bytes.now }
        ensures told { Transmits None bytes.now None result }
        ensures moment { self.new.moment ≡ self.old.moment }
        ensures connected { self.new.connections ≡ self.old.connections }
        ensures cause { HasLinkCause
            (called_health self.old.faults)
            (called_health self.new.faults)
            (length bytes.now)
            result }
    {
        match &mut self.line {
            Some(line) => {
                line.send(bytes);
                LinkAnswer::Done
            }
            None => self.fail(),
        }
    }
}

// The answer of a line, if there is one.
fn waited<L, S, I, C>(
    line: &mut Option<Line<L, S>>,
    input: &mut LiveInput<I>,
    clock: &C,
    before: u64,
    until: u64,
) -> LinkIn
where
    L: OpenListener<Stream = S> + AsRawFd,
    S: Read + Write + OpenStream + AsRawFd + Drop,
    I: Read + AsRawFd,
    C: Clock,
    ensures time { IsTimelyWith (brings input.new.bytes input.new.news) until before result }
    ensures open { result ≢ link.Closed }
    ensures input { Keeps
        (I.remaining input.old.source)
        (prepend_known input.new.bytes (I.remaining input.new.source)) }
{
    match line {
        Some(line) => line.wait(input, clock, before, until),
        None => {
            input.begin();
            LinkIn::Failed
        }
    }
}

// The moment of the last answer.
fn moment_of(before: u64, answer: LinkIn) -> u64
    ensures { result ≡ moment_after before answer }
{
    match answer {
        LinkIn::Char(_, moment) | LinkIn::Quiet(moment) => moment,
        LinkIn::Closed | LinkIn::Failed => before,
    }
}

// The count of faults behind an answer.
fn faults_of(before: u64, answer: LinkIn) -> u64
    ensures { CountsWait before result answer }
{
    match answer {
        LinkIn::Failed => before.saturating_add(1),
        LinkIn::Char(_, _) | LinkIn::Quiet(_) | LinkIn::Closed => before,
    }
}

#[cfg(test)]
mod tests {
    use super::*;
    use std::net::TcpStream;
    use std::test::Fail;

    // The next character that comes.
    fn next_character<R: Net + Clock>(link: &mut CalledLink<R>) -> Option<u8> {
        for _ in 0..100 {
            match link.poll(9_000) {
                LinkIn::Char(character, _) => return Some(character),
                // (news of the line)
                LinkIn::Quiet(moment) if moment < 9_000 => {}
                _ => return None,
            }
        }
        None
    }

    // A link that listens, and where it does.
    fn listening<R: Net + Clock + Drop>(
        alloc: Global,
        system: R,
    ) -> Result<(CalledLink<R>, SocketAddr), Fail> {
        let mut link = CalledLink::new(alloc, system)?;
        let LinkAnswer::Done = link.connect(Side::Equipment, "127.0.0.1:0") else {
            return Err(Fail::from("it doesn't listen"));
        };
        let Some(line) = &link.line else {
            return Err(Fail::from("it has no line"));
        };
        let address = line.listener.local_addr()?;
        Ok((link, address))
    }

    #[test]
    fn callers_come_and_go(rt: HostRuntime) -> Result<(), Fail> {
        let (mut link, address) = listening(rt.alloc(), &rt)?;
        let mut none = LiveInput::ended(Nothing);
        assert_eq!(rt; link.caller(), None);
        assert_eq!(rt; link.send(b"lost"), LinkAnswer::Done);
        assert!(rt; matches!(link.poll(20), LinkIn::Quiet(moment) if moment >= 20));

        let mut first = TcpStream::connect(&rt, address)?;
        first.write_all(b"ab")?;
        assert_eq!(rt; next_character(&mut link), Some(b'a'));
        assert_eq!(rt; link.caller(), Some(first.local_addr()?));

        let mut second = TcpStream::connect(&rt, address)?;
        assert_eq!(rt; next_character(&mut link), Some(b'b'));
        assert!(rt; matches!(link.wait(&mut none, 9_000), LinkIn::Quiet(moment) if moment < 9_000));
        assert_eq!(rt; link.caller(), Some(second.local_addr()?));
        assert_eq!(rt; link.send(b"c"), LinkAnswer::Done);
        let mut character = [0; 1];
        second.read_exact(&mut character)?;
        assert_eq!(rt; character, *b"c");
        assert_eq!(rt; first.read(&mut character)?, 0);

        drop(second);
        assert!(rt; matches!(link.wait(&mut none, 9_000), LinkIn::Quiet(moment) if moment < 9_000));
        assert_eq!(rt; link.caller(), None);
        assert_eq!(rt; link.faults, 0);
        Ok(())
    }

    #[test]
    fn input_ends_a_wait(rt: HostRuntime) -> Result<(), Fail> {
        let (mut link, _) = listening(rt.alloc(), &rt)?;
        let listener = TcpListener::bind(&rt, "127.0.0.1:0")?;
        let mut software = TcpStream::connect(&rt, listener.local_addr()?)?;
        let (source, _) = listener.accept()?;
        let mut input = LiveInput::new(source);

        software.write_all(b"stop\n")?;
        assert!(rt;
            matches!(link.wait(&mut input, 9_000), LinkIn::Quiet(moment) if moment < 9_000)
        );
        assert_eq!(rt; input.came(), b"stop\n".as_slice());
        assert!(rt; matches!(link.wait(&mut input, 1), LinkIn::Quiet(moment) if moment >= 1));
        assert!(rt; input.came().is_empty());

        drop(software);
        assert!(rt;
            matches!(link.wait(&mut input, 9_000), LinkIn::Quiet(moment) if moment < 9_000)
        );
        assert!(rt; input.has_ended());
        let later = link.moment.min(60_000) + 20;
        assert!(rt;
            matches!(link.wait(&mut input, later), LinkIn::Quiet(moment) if moment >= later)
        );
        assert_eq!(rt; input.faults(), 0);
        Ok(())
    }
}
