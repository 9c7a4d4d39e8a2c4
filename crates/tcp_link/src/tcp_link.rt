//! The calls of a link by those of the system, over any system that has connections; its test has a real one.

ghost use Rattle.std.specs.Prelude.{◌≡◌, ◌<◌, ◌^◌, IsSome, None, OnOk, length};
ghost use Rattle.gl_base.specs.Connections.{connected_as, not_connected};
ghost use Rattle.gl_base.specs.Events.{moment_after};
ghost use Rattle.gl_base.specs.Faults.{Rose};
ghost use Rattle.gl_base.specs.Link.{HasLinkCause, HasPollCause, IsTimely, IsToldAnswer, Transmits, told_after_poll};
ghost use Rattle.gl_base.specs.declared.link.LinkAnswer.{LinkAnswer};
ghost use Rattle.tcp_link.specs.Arrived.{IsDue};
ghost use Rattle.tcp_link.specs.TcpLink.{Counts, CountsPoll, Polls, Sends, answer_of, tcp_health};

use crate::connection::Connection;
use gl_base::{Connections, Link, LinkAnswer, LinkIn, Side};
use std::io;
use std::io::{ErrorKind, Read, Write};
use std::net::{Net, OpenListener, OpenStream, TcpListener, TcpStream};
use std::time::Clock;

/// A connection over TCP as a link, which tells nothing of its characters. The equipment listens and accepts one peer,
/// the host calls. Its moments are those of the system's clock, of a character behind the read that brought it. It
/// counts its faults: a connection that can't be made, a clock that can't be read, a read or a write that fails, and a
/// poll or a sending without a connection. A peer that is gone is no fault of a poll, also where the system says that
/// the connection was reset.
#[derive(Drop)]
pub struct TcpLink<R: Net> {
    system: R,
    listener: Option<R::Listener>,
    connection: Option<Connection<R::Stream>>,
    moment: u64,
    faults: u64,
    connections: Connections,
}

impl<R: Net + Clock> TcpLink<R> {
    /// No connection yet.
    pub fn new(system: R) -> TcpLink<R>
        ensures faults { result.faults ≡ 0 }
        ensures connections { result.connections ≡ not_connected }
    {
        TcpLink {
            system,
            listener: None,
            connection: None,
            moment: 0,
            faults: 0,
            connections: Connections::none(),
        }
    }

    /// Listens at an address, such as `127.0.0.1:5000`. `connect` does it for the equipment, and then accepts.
    pub fn listen(&mut self, address: &str) -> LinkAnswer
        ensures count { Counts self.old.faults self.new.faults result }
        ensures connections { self.new.connections ≡ self.old.connections }
        ensures moment { self.new.moment ≡ self.old.moment }
        ensures ready { result ≡ LinkAnswer.Done → IsSome self.new.listener }
    {
        match TcpListener::bind(&self.system, address) {
            Ok(listener) => {
                self.listener = Some(listener);
                LinkAnswer::Done
            }
            Err(_) => self.fail(),
        }
    }

    /// Waits for a peer that calls where it listens, and then listens no more. The clock begins anew.
    pub fn accept(&mut self) -> LinkAnswer
        ensures count { Counts self.old.faults self.new.faults result }
        ensures connections { self.new.connections ≡ self.old.connections }
        ensures moment { self.new.moment ≡ 0 }
        ensures ready { result ≡ LinkAnswer.Done → IsSome self.new.connection }
    {
        let stream = match self.listener.take() {
            Some(listener) => accepted(&listener),
            None => Err(io::Error::from(ErrorKind::NotConnected)),
        };
        self.begin(stream)
    }

    // Goes on with this stream, in place of what there was.
    fn begin(&mut self, stream: io::Result<R::Stream>) -> LinkAnswer
        ensures count { Counts self.old.faults self.new.faults result }
        ensures connections { self.new.connections ≡ self.old.connections }
        ensures moment { self.new.moment ≡ 0 }
        ensures ready { result ≡ LinkAnswer.Done → IsSome self.new.connection }
    {
        self.moment = 0;
        self.connection = None;
        let begun = match stream {
            Ok(stream) => Connection::begin(stream, &self.system),
            Err(error) => Err(error),
        };
        match begun {
            Ok(connection) => {
                self.connection = Some(connection);
                LinkAnswer::Done
            }
            Err(_) => self.fail(),
        }
    }

    // The link's answer where the system gave this one, which is counted where it is a fault.
    fn counts<T>(&mut self, answer: &io::Result<T>) -> LinkAnswer
        ensures answer { result ≡ answer_of answer.now }
        ensures count { Counts self.old.faults self.new.faults result }
        ensures connections { self.new.connections ≡ self.old.connections }
        ensures moment { self.new.moment ≡ self.old.moment }
        ensures connection { self.new.connection ≡ self.old.connection }
    {
        match answer {
            Ok(_) => LinkAnswer::Done,
            Err(_) => self.fail(),
        }
    }

    // Counts a fault.
    fn fail(&mut self) -> LinkAnswer
        ensures failed { result ≡ LinkAnswer.Failed }
        ensures rose { Rose self.old.faults self.new.faults }
        ensures connections { self.new.connections ≡ self.old.connections }
        ensures moment { self.new.moment ≡ self.old.moment }
        ensures connection { self.new.connection ≡ self.old.connection }
    {
        self.faults = self.faults.saturating_add(1);
        LinkAnswer::Failed
    }
}

impl<R: Net + Clock> Link for TcpLink<R> {
    ghost told = { λ _. None };

    ghost moment = { λ s. s.moment };

    ghost health = { λ s. tcp_health s.faults };

    ghost connected = { λ s. s.connections };

    fn connect(&mut self, side: Side, address: &str) -> LinkAnswer {
        self.connections.add(side, address);
        match side {
            Side::Equipment => match self.listen(address) {
                LinkAnswer::Done => self.accept(),
                LinkAnswer::Failed => {
                    self.moment = 0;
                    self.connection = None;
                    LinkAnswer::Failed
                }
            },
            Side::Host => {
                let stream = TcpStream::connect(&self.system, address);
                self.begin(stream)
            }
        }
    }

    fn poll(&mut self, until: u64) -> LinkIn
        requires { until < 2 ^ 62 }
        ensures next { IsToldAnswer None result }
        ensures told { None ≡ told_after_poll until result None }
        ensures time { IsTimely until self.old.moment result }
        ensures moment { self.new.moment ≡ moment_after self.old.moment result }
        ensures connected { self.new.connections ≡ self.old.connections }
        ensures cause { HasPollCause (tcp_health self.old.faults) (tcp_health self.new.faults) result }
        ensures due { IsDue until result }
        ensures order { Polls R.Stream.remaining self.old.connection self.new.connection result }
    {
        let answer = polled(&mut self.connection, &self.system, self.moment, until);
        self.moment = moment_of(self.moment, answer);
        self.faults = faults_of(self.faults, answer);
        answer
    }

    fn send(&mut self, bytes: &[u8]) -> LinkAnswer
        requires { 0 < length bytes.now }
        ensures told { Transmits None bytes.now None result }
        ensures moment { self.new.moment ≡ self.old.moment }
        ensures connected { self.new.connections ≡ self.old.connections }
        ensures cause { HasLinkCause
            (tcp_health self.old.faults)
            (tcp_health self.new.faults)
            (length bytes.now)
            result }
        ensures sent { result ≡ LinkAnswer.Done →
            Sends R.Stream.contents self.old.connection self.new.connection bytes.now }
    {
        let answer = sent(&mut self.connection, bytes);
        self.counts(&answer)
    }
}

// The answer of a connection, if there is one.
fn polled<S: Read + OpenStream, C: Clock>(
    connection: &mut Option<Connection<S>>,
    clock: &C,
    before: u64,
    until: u64,
) -> LinkIn
    ensures time { IsTimely until before result }
    ensures due { IsDue until result }
    ensures order { Polls S.remaining connection.old connection.new result }
{
    match connection {
        Some(connection) => connection.poll(clock, before, until),
        None => LinkIn::Failed,
    }
}

// Sends all characters over a connection, if there is one.
fn sent<S: Write>(connection: &mut Option<Connection<S>>, bytes: &[u8]) -> io::Result<()>
    ensures { OnOk result (Sends S.contents connection.old connection.new bytes.now) }
{
    match connection {
        Some(connection) => connection.stream.write_all(bytes),
        None => Err(io::Error::from(ErrorKind::NotConnected)),
    }
}

// The stream to a peer that calls.
fn accepted<L: OpenListener>(listener: &L) -> io::Result<L::Stream> {
    let (stream, _) = listener.accept()?;
    Ok(stream)
}

// The moment of the last answer.
fn moment_of(before: u64, answer: LinkIn) -> u64
    ensures { result ≡ moment_after before answer }
{
    match answer {
        LinkIn::Char(_, moment) | LinkIn::Quiet(moment) => moment,
        LinkIn::Closed | LinkIn::Failed => before,
    }
}

// The count of faults behind an answer.
fn faults_of(before: u64, answer: LinkIn) -> u64
    ensures { CountsPoll before result answer }
{
    match answer {
        LinkIn::Failed => before.saturating_add(1),
        LinkIn::Char(_, _) | LinkIn::Quiet(_) | LinkIn::Closed => before,
    }
}

#[cfg(test)]
mod tests {
    use super::*;
    use std::alloc::Global;
    use std::test::Fail;

    fn has_come(answer: LinkIn, wanted: u8) -> bool {
        matches!(answer, LinkIn::Char(character, _) if character == wanted)
    }

    fn is_quiet<R: Net + Clock>(link: &mut TcpLink<R>, until: u64) -> bool
        requires { until < 2 ^ 62 }
    {
        matches!(link.poll(until), LinkIn::Quiet(moment) if until <= moment)
    }

    /// A tool and its host, connected.
    fn connect<R: Net + Clock>(
        alloc: Global,
        equipment: &mut TcpLink<R>,
        host: &mut TcpLink<R>,
    ) -> Result<bool, Fail> {
        let listens = equipment.listen("127.0.0.1:0");
        let Some(listener) = &equipment.listener else {
            return Err(Fail::from("it doesn't listen"));
        };
        let address = format!(in alloc; "{}", listener.local_addr()?)?;
        let called = host.connect(Side::Host, address.as_str());
        Ok([listens, called, equipment.accept()] == [LinkAnswer::Done; 3])
    }

    #[test]
    fn carries_characters_both_ways(rt: HostRuntime) -> Result<(), Fail> {
        let mut equipment = TcpLink::new(&rt);
        let mut host = TcpLink::new(&rt);
        assert_eq!(rt; equipment.poll(0), LinkIn::Failed);
        assert!(rt; connect(rt.alloc(), &mut equipment, &mut host)?);
        assert_eq!(rt; host.send(b"\x05ab"), LinkAnswer::Done);
        assert!(rt; has_come(equipment.poll(9_000), 5));
        assert_eq!(rt; equipment.send(b"\x04"), LinkAnswer::Done);
        assert!(rt; has_come(host.poll(9_000), 4));
        assert!(rt; has_come(equipment.poll(0), b'a'));
        assert!(rt; has_come(equipment.poll(0), b'b'));
        let limit = equipment.moment.min(60_000) + 30;
        assert!(rt; is_quiet(&mut equipment, 0));
        assert!(rt; is_quiet(&mut equipment, limit));
        assert!(rt; is_quiet(&mut equipment, limit));
        assert_eq!(rt; host.send(b"c"), LinkAnswer::Done);
        drop(host);
        assert!(rt; has_come(equipment.poll(9_000), b'c'));
        assert_eq!(rt; equipment.poll(9_000), LinkIn::Closed);
        assert_eq!(rt; equipment.faults, 1);
        Ok(())
    }

    #[test]
    fn characters_have_the_moment_of_their_read(rt: HostRuntime) -> Result<(), Fail> {
        let mut equipment = TcpLink::new(&rt);
        let mut host = TcpLink::new(&rt);
        assert!(rt; connect(rt.alloc(), &mut equipment, &mut host)?);
        assert_eq!(rt; host.send(b"abc"), LinkAnswer::Done);
        let LinkIn::Char(b'a', moment) = equipment.poll(9_000) else {
            return Err(Fail::from("the first character hasn't come"));
        };
        for character in *b"bc" {
            let limit = host.moment.min(60_000) + 30;
            assert!(rt; is_quiet(&mut host, limit));
            assert_eq!(rt; equipment.poll(9_000), LinkIn::Char(character, moment));
        }
        let limit = moment.min(60_000) + 60;
        assert!(rt; is_quiet(&mut equipment, limit));
        Ok(())
    }
}
