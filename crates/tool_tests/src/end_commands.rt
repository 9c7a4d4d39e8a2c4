//! `message_end`: what an end does for each command of its core, and what it notes of that.

ghost use Rattle.std.specs.Prelude.{IfSome};
ghost use Rattle.message_end.specs.Calls.{FitsLine};

use arrayvec::ArrayVec;
use block_codec::Header;
use gl_base::{Row, Side};
use line_end::{LinePlan, Times};
use message_end::{MessageEnd, Stop, Unsent};
use message_flow::StepOut;
use std::alloc::Global;
use std::test::Fail;
use transact::Match;

// Device 1, T3 and T4 of 45 seconds.
const PLAN: LinePlan = LinePlan {
    device: 1,
    times: Times {
        t1: 500,
        t2: 10_000,
        rty: 3,
    },
    t3: 45_000,
    t4: 45_000,
    max_body: 4_096,
};

const ENQ: u8 = 0x05;

const EOT: u8 = 0x04;

const ACK: u8 = 0x06;

// S1F3 W with system bytes 0 and a text of two bytes, and a reply to it.
const ASKED: [u8; 15] = [
    0x0C, 0x00, 0x01, 0x81, 0x03, 0x80, 0x01, 0x00, 0x00, 0x00, 0x00, 0x01, 0x00, 0x01, 0x07,
];

const REPLIED: [u8; 15] = [
    0x0C, 0x80, 0x01, 0x01, 0x04, 0x80, 0x01, 0x00, 0x00, 0x00, 0x00, 0x01, 0x00, 0x01, 0x08,
];

const REPLY: Header = Header {
    from_equipment: true,
    device: 1,
    wait: false,
    stream: 1,
    function: 4,
    last: true,
    number: 1,
    system: 0,
};

fn nothing_yet(alloc: Global) -> StepOut {
    StepOut {
        line: ArrayVec::new(),
        notes: Row::new(alloc),
    }
}

// S1F3 with a text of two bytes, as a primary of kind 7.
fn unsent(alloc: Global) -> Option<Unsent<u8>>
    ensures { IfSome result FitsLine }
{
    let body = Row::of(alloc, &[1, 0]).ok()?;
    Some(Unsent {
        stream: 1,
        function: 3,
        kind: Some(7),
        body,
    })
}

fn sends(alloc: Global, end: &mut MessageEnd<u8>, out: &mut StepOut) -> bool {
    match unsent(alloc) {
        Some(unsent) => end.primary(alloc, unsent, out) == Ok(true),
        None => false,
    }
}

fn offers(end: &mut MessageEnd<u8>, out: &mut StepOut, wanted: &[u8]) -> bool {
    out.line.clear();
    end.offer(0, out);
    out.line.as_slice() == wanted
}

// Whether an end takes these characters, and writes these at the last one.
fn takes(
    alloc: Global,
    end: &mut MessageEnd<u8>,
    characters: &[u8],
    out: &mut StepOut,
    wanted: &[u8],
) -> bool {
    for &character in characters {
        out.line.clear();
        if end.take(alloc, character, 0, out).is_err() {
            return false;
        }
    }
    out.line.as_slice() == wanted
}

fn notes(out: &StepOut, place: usize, text: &[u8]) -> bool {
    match out.notes.as_slice().get(place) {
        Some(note) => note.text.as_slice() == text,
        None => false,
    }
}

// A host's question goes out and is answered. T3 runs from its acknowledgement on.
fn is_answered(alloc: Global) -> bool {
    let mut out = nothing_yet(alloc);
    let Ok(mut host) = MessageEnd::new(alloc, Side::Host, &PLAN, 0, 0x1_0000_0000) else {
        return false;
    };
    sends(alloc, &mut host, &mut out)
        && offers(&mut host, &mut out, &[ENQ])
        && takes(alloc, &mut host, &[EOT], &mut out, &ASKED)
        && takes(alloc, &mut host, &[ACK], &mut out, &[])
        && host.deadline() == Some(45_000)
        && takes(alloc, &mut host, &[ENQ], &mut out, &[EOT])
        && takes(alloc, &mut host, &REPLIED, &mut out, &[ACK])
        && host.answer(alloc, &REPLY, &mut out) == Ok(Match::Reply(7))
        && host.deadline().is_none()
        && notes(&out, 0, b"sent S1F3 W 00000000 0100")
        && notes(&out, 1, b"rx S1F4 00000000 0100")
}

// A reply comes while the question is held, since its acknowledgement was lost: the question goes out no more.
fn is_silent(alloc: Global) -> bool {
    let mut out = nothing_yet(alloc);
    let Ok(mut host) = MessageEnd::new(alloc, Side::Host, &PLAN, 0, 0x1_0000_0000) else {
        return false;
    };
    sends(alloc, &mut host, &mut out)
        && offers(&mut host, &mut out, &[ENQ])
        && takes(alloc, &mut host, &[ENQ], &mut out, &[EOT])
        && host.held().is_some()
        && takes(alloc, &mut host, &REPLIED, &mut out, &[ACK])
        && host.held().is_none()
        && offers(&mut host, &mut out, &[])
        && host.deadline() == Some(45_000)
        && host.give_up(alloc, &REPLY, &mut out).is_ok()
        && host.open() == 0
        && notes(&out, 2, b"t3 S1F3 W 00000000")
}

// The equipment replies once.
fn replies(alloc: Global) -> bool {
    let mut out = nothing_yet(alloc);
    let Ok(mut equipment) = MessageEnd::new(alloc, Side::Equipment, &PLAN, 0, 4_096) else {
        return false;
    };
    takes(alloc, &mut equipment, &[ENQ], &mut out, &[EOT])
        && takes(alloc, &mut equipment, &ASKED, &mut out, &[ACK])
        && equipment.abort(alloc, &mut out).is_ok()
        && equipment.reply(alloc, Row::new(alloc), &mut out).is_ok()
        && equipment.len() == 1
        && notes(&out, 0, b"rx S1F3 W 00000000 0100")
        && notes(&out, 1, b"sent S1F0 00000000 -")
        && equipment.remove(false, 0)
        && equipment.drop_front().is_none()
}

// One number is drawn by itself, and is that of the primary sent under it.
fn spends_numbers(alloc: Global) -> bool {
    let mut out = nothing_yet(alloc);
    let Ok(mut end) = MessageEnd::new(alloc, Side::Equipment, &PLAN, 5, 1) else {
        return false;
    };
    let (Some(first), Some(second)) = (unsent(alloc), unsent(alloc)) else {
        return false;
    };
    end.draw(&mut out) == Ok(5)
        && end.drawn_primary(alloc, first, &mut out) == Ok(true)
        && end.primary(alloc, second, &mut out) == Err(Stop::NumbersSpent)
        && notes(&out, 0, b"sent S1F3 W 00000005 0100")
        && end.drop_due(alloc, 0, &mut out) == Ok(None)
        && end.expire(alloc, 0, &mut out) == Ok(None)
        && end.end(5) == Some(7)
}

// A question ends before it goes out, and nothing is noted of that.
fn ends_unnoted(alloc: Global) -> bool {
    let mut out = nothing_yet(alloc);
    let Ok(mut host) = MessageEnd::new(alloc, Side::Host, &PLAN, 0, 0x1_0000_0000) else {
        return false;
    };
    if !sends(alloc, &mut host, &mut out) {
        return false;
    }
    let Some(primary) = host.end_first() else {
        return false;
    };
    primary.0.system == 0
        && primary.1 == 7
        && host.open() == 0
        && host.len() == 0
        && out.notes.as_slice().len() == 1
        && host.end_first().is_none()
}

#[test]
fn asks_and_is_answered(rt: HostRuntime) -> Result<(), Fail> {
    assert!(rt; is_answered(rt.alloc()));
    Ok(())
}

#[test]
fn is_silent_after_a_reply(rt: HostRuntime) -> Result<(), Fail> {
    assert!(rt; is_silent(rt.alloc()));
    Ok(())
}

#[test]
fn replies_once(rt: HostRuntime) -> Result<(), Fail> {
    assert!(rt; replies(rt.alloc()));
    Ok(())
}

#[test]
fn draws_a_number_by_itself(rt: HostRuntime) -> Result<(), Fail> {
    assert!(rt; spends_numbers(rt.alloc()));
    Ok(())
}

#[test]
fn ends_without_a_note(rt: HostRuntime) -> Result<(), Fail> {
    assert!(rt; ends_unnoted(rt.alloc()));
    Ok(())
}
