//! A link in memory: it gives stated events, lists what passes, and fails where it was planned.

ghost use Rattle.std.specs.Prelude.{◌≡◌, ◌≤◌, ◌<◌, ◌+◌, ◌^◌, [], ◌++◌, drop, length, IfOk, Some};
ghost use Rattle.std.specs.Prelude.{vec_capacity, vec_len};
ghost use Rattle.gl_base.specs.Connections.{connected_as};
ghost use Rattle.gl_base.specs.Events.{AreLinkEvents, moment_after};
ghost use Rattle.gl_base.specs.Link.{HasLinkCause, HasPollCause, IsTimely, IsToldAnswer, Transmits};
ghost use Rattle.gl_base.specs.Link.{entries_of, told_after_poll};
ghost use Rattle.gl_base.specs.MemLink.{after_connect, after_poll, after_send};
ghost use Rattle.gl_base.specs.MemLink.{answer_to_connect, answer_to_poll, answer_to_send};
ghost use Rattle.gl_base.specs.MemLink.{link_contents, link_health, link_start, next_event};

use crate::calls::Calls;
use crate::connections::Connections;
use crate::link::{Link, LinkAnswer, LinkEntry, LinkIn};
use crate::no_memory::NoMemory;
use crate::row::Row;
use crate::side::Side;
use std::alloc::Global;
use std::marker::Model;

/// A link in memory that gives stated events, one a poll, whatever moment is asked for, and then is closed for good.
/// The calls whose numbers it was given fail, and those whose entries have no room; no others do. It takes all its
/// memory when it is made.
#[derive(Debug, Drop)]
pub struct MemLink {
    events: Row<LinkIn>,
    taken: usize,
    entries: Vec<LinkEntry>,
    room: usize,
    moment: u64,
    calls: Calls,
    connections: Connections,
}

impl Model for MemLink {
    ghost use Rattle.std.specs.Prelude.{◌≤◌, drop, length, vec_capacity, vec_len};
    ghost use Rattle.gl_base.specs.Events.{AreEventsFrom};
    ghost use Rattle.gl_base.specs.MemLink.{LinkState};

    ghost Value = { LinkState };

    ghost view = { λ s. record {
      left = drop s.taken s.events;
      entries = s.entries.items;
      room = s.room;
      moment = s.moment;
      calls = s.calls;
      connected = s.connections;
    } };

    ghost invariant = { λ s.
        (s.taken ≤ length s.events)
        × (vec_len s.entries ≤ s.room)
        × (s.room ≤ vec_capacity s.entries)
        × AreEventsFrom s.moment (drop s.taken s.events) };
}

impl MemLink {
    /// A link that gives these events and has room for a list of `room` entries. A call fails only for want of room.
    pub fn new(alloc: Global, events: Row<LinkIn>, room: usize) -> Result<MemLink, NoMemory>
        requires { AreLinkEvents events }
        ensures { IfOk result (λ link. link ≡ link_start events room []) }
    {
        MemLink::failing(alloc, events, room, Row::new(alloc))
    }

    /// The same, but the calls with these numbers, counted from 1, fail too.
    pub fn failing(
        alloc: Global,
        events: Row<LinkIn>,
        room: usize,
        fails: Row<u32>,
    ) -> Result<MemLink, NoMemory>
        requires { AreLinkEvents events }
        ensures { IfOk result (λ link. link ≡ link_start events room fails) }
    {
        let entries = Vec::with_capacity(alloc, room)?;
        Ok(MemLink {
            events,
            taken: 0,
            entries,
            room,
            moment: 0,
            calls: Calls::new(fails),
            connections: Connections::none(),
        })
    }

    /// The link's list.
    pub fn entries(&self) -> &[LinkEntry]
        ensures { result.now ≡ self.now.entries }
    {
        self.entries.as_slice()
    }
}

impl Link for MemLink {
    ghost told = { λ s. Some (link_contents s) };

    ghost moment = { λ s. s.moment };

    ghost health = { link_health };

    ghost connected = { λ s. s.connected };

    #[tactic(auto, using(crate::proofs::Events::after_connection))]
    fn connect(&mut self, side: Side, address: &str) -> LinkAnswer
        ensures same { Some (link_contents self.new) ≡ Some (link_contents self.old) }
        ensures moment { self.new.moment ≡ 0 }
        ensures connected { self.new.connected ≡ connected_as side address.now self.old.connected }
        ensures cause { HasLinkCause (link_health self.old) (link_health self.new) 0 result }
        ensures answer { result ≡ answer_to_connect self.old }
        ensures state { self.new ≡ after_connect side address.now self.old }
    {
        self.moment = 0;
        self.connections.add(side, address);
        if self.calls.begin() {
            self.calls.fail();
            return LinkAnswer::Failed;
        }
        LinkAnswer::Done
    }

    fn poll(&mut self, until: u64) -> LinkIn
        requires { until < 2 ^ 62 }
        ensures next { IsToldAnswer (Some (link_contents self.old)) result }
        ensures told { Some (link_contents self.new) ≡ told_after_poll until result (Some (link_contents self.old)) }
        ensures time { IsTimely until self.old.moment result }
        ensures moment { self.new.moment ≡ moment_after self.old.moment result }
        ensures connected { self.new.connected ≡ self.old.connected }
        ensures cause { HasPollCause (link_health self.old) (link_health self.new) result }
        ensures answer { result ≡ answer_to_poll self.old }
        ensures state { self.new ≡ after_poll until self.old }
    {
        let failing = self.calls.begin();
        let (answer, taken) = next_of(&self.events, self.taken);
        let entry = LinkEntry::Polled { until, answer };
        if failing || self.entries.len() == self.room || self.entries.push(entry).is_err() {
            self.calls.fail();
            return LinkIn::Failed;
        }
        self.taken = taken;
        self.moment = moment_of(self.moment, answer);
        answer
    }

    fn send(&mut self, bytes: &[u8]) -> LinkAnswer
        requires { 0 < length bytes.now }
        ensures told { Transmits (Some (link_contents self.old)) bytes.now (Some (link_contents self.new)) result }
        ensures moment { self.new.moment ≡ self.old.moment }
        ensures connected { self.new.connected ≡ self.old.connected }
        ensures cause { HasLinkCause (link_health self.old) (link_health self.new) (length bytes.now) result }
        ensures answer { result ≡ answer_to_send bytes.now self.old }
        ensures state { self.new ≡ after_send bytes.now self.old }
    {
        let failing = self.calls.begin();
        if failing || bytes.len() > self.room - self.entries.len() {
            self.calls.fail();
            return LinkAnswer::Failed;
        }
        put_sent(&mut self.entries, bytes);
        LinkAnswer::Done
    }
}

// The event that comes next behind so many that are taken, and how many are taken with it.
#[tactic(auto, using(crate::proofs::Events::drop_next))]
fn next_of(events: &Row<LinkIn>, taken: usize) -> (LinkIn, usize)
    requires { taken ≤ length events.now }
    ensures event { result.0 ≡ next_event (drop taken events.now) }
    ensures within { result.1 ≤ length events.now }
    ensures left { drop result.1 events.now ≡ drop 1 (drop taken events.now) }
{
    let events = events.as_slice();
    let (_, left) = events.split_at(taken);
    let event = left.first().copied().unwrap_or(LinkIn::Closed);
    (event, (taken + 1).min(events.len()))
}

// The moment of the last answer.
fn moment_of(before: u64, answer: LinkIn) -> u64
    ensures { result ≡ moment_after before answer }
{
    match answer {
        LinkIn::Char(_, moment) | LinkIn::Quiet(moment) => moment,
        LinkIn::Closed | LinkIn::Failed => before,
    }
}

// Notes the characters in a list that has room for them.
fn put_sent(entries: &mut Vec<LinkEntry>, bytes: &[u8])
    requires { vec_len entries.old + length bytes.now ≤ vec_capacity entries.old }
    ensures items { entries.new.items ≡ entries.old.items ++ entries_of bytes.now }
    ensures len { vec_len entries.new ≡ vec_len entries.old + length bytes.now }
    ensures capacity { vec_capacity entries.old ≤ vec_capacity entries.new }
{
    for byte in bytes {
        entries.push(LinkEntry::Sent(*byte)).unwrap();
    }
}
