//! A link in memory: its events, its room, and the calls that fail.

use gl_base::{Link, LinkAnswer, LinkEntry, LinkIn, MemLink, NoMemory, Row, Side};
use std::alloc::Global;
use std::test::Fail;

// A character at 0 and a quiet time up to 10, and the call of this number fails.
fn link_failing(alloc: Global, room: usize, number: u32) -> Result<MemLink, NoMemory> {
    let events = Row::of(alloc, &[LinkIn::Char(5, 0), LinkIn::Quiet(10)])?;
    let fails = Row::of(alloc, &[number])?;
    MemLink::failing(alloc, events, room, fails)
}

// What a connecting, a poll and a sending come to.
fn three_answers<L: Link>(link: &mut L) -> (LinkAnswer, LinkIn, LinkAnswer) {
    let connected = link.connect(Side::Host, "");
    let polled = link.poll(7);
    let sent = link.send(b"a");
    (connected, polled, sent)
}

fn is_answered(
    alloc: Global,
    room: usize,
    number: u32,
    answers: (LinkAnswer, LinkIn, LinkAnswer),
) -> bool {
    match link_failing(alloc, room, number) {
        Ok(mut link) => three_answers(&mut link) == answers,
        Err(NoMemory) => false,
    }
}

#[test]
fn a_link_fails_at_its_calls_and_past_its_room(rt: HostRuntime) -> Result<(), Fail> {
    let (alloc, first) = (rt.alloc(), LinkIn::Char(5, 0));
    let (done, failed) = (LinkAnswer::Done, LinkAnswer::Failed);
    assert!(rt; is_answered(alloc, 2, 1, (failed, first, done)));
    assert!(rt; is_answered(alloc, 2, 2, (done, LinkIn::Failed, done)));
    assert!(rt; is_answered(alloc, 2, 3, (done, first, failed)));
    assert!(rt; is_answered(alloc, 2, 4, (done, first, done)));
    assert!(rt; is_answered(alloc, 1, 4, (done, first, failed)));
    assert!(rt; is_answered(alloc, 0, 4, (done, LinkIn::Failed, failed)));
    Ok(())
}

fn gives<L: Link>(link: &mut L, answers: &[LinkIn]) -> bool {
    for answer in answers {
        if link.poll(7) != *answer {
            return false;
        }
    }
    true
}

fn noted(answer: LinkIn) -> LinkEntry {
    LinkEntry::Polled { until: 7, answer }
}

#[test]
fn a_link_gives_its_events_and_is_closed(rt: HostRuntime) -> Result<(), Fail> {
    let (first, second) = (LinkIn::Char(5, 0), LinkIn::Quiet(10));
    let mut link = link_failing(rt.alloc(), 5, 2)?;
    assert!(rt; gives(&mut link, &[first, LinkIn::Failed, second]));
    assert_eq!(rt; link.send(b"a"), LinkAnswer::Done);
    assert!(rt; gives(&mut link, &[LinkIn::Closed, LinkIn::Closed]));
    assert_eq!(rt;
        link.entries(),
        [
            noted(first),
            noted(second),
            LinkEntry::Sent(97),
            noted(LinkIn::Closed),
            noted(LinkIn::Closed),
        ]
        .as_slice()
    );
    Ok(())
}

#[test]
fn a_link_without_events_is_closed(rt: HostRuntime) -> Result<(), Fail> {
    let mut link = MemLink::new(rt.alloc(), Row::new(rt.alloc()), 1)?;
    assert_eq!(rt; link.poll(0), LinkIn::Closed);
    assert_eq!(rt; link.poll(0), LinkIn::Failed);
    Ok(())
}
