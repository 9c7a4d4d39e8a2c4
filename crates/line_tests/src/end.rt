//! Block transfer at one end: every character and every deadline in each phase, and whole exchanges.

ghost use Rattle.std.specs.Prelude.{◌<◌, ◌^◌};

use crate::end_rows::{CHARACTERS, Case, DEADLINES, Deadline, Ends, Row, Tells, Waits, Writes};
use Call::{Cancel, Resume, Send, Take, Tick};
use Writes::{Frame, One, Quiet};
use block_codec::{Block, Header, block_of, frame_of};
use gl_base::Side;
use line_end::{Chars, LineCause, LineEnd, LineEvent, Phase, Times};
use std::process::Abort;

const TIMES: Times = Times {
    t1: 500,
    t2: 10_000,
    rty: 3,
};

const ENQ: u8 = 0x05;

const EOT: u8 = 0x04;

const ACK: u8 = 0x06;

const NAK: u8 = 0x15;

// S1F1 from the host to device 0, with W: one block without a body.
const ARE_YOU_THERE: [u8; 13] = [
    0x0A, 0x00, 0x00, 0x81, 0x01, 0x80, 0x01, 0x00, 0x00, 0x00, 0x01, 0x01, 0x04,
];

const SIDES: [Side; 2] = [Side::Equipment, Side::Host];

fn told_by(event: &LineEvent) -> Tells {
    match event {
        LineEvent::Nothing => Tells::Nothing,
        LineEvent::Arrived(block) if frame_of(block).as_slice() == ARE_YOU_THERE.as_slice() => {
            Tells::Arrived
        }
        LineEvent::Arrived(_) => Tells::Other,
        LineEvent::Sent => Tells::Sent,
        LineEvent::Failed => Tells::Failed,
        LineEvent::Refused(LineCause::Length(9)) => Tells::Length,
        LineEvent::Refused(LineCause::Length(_)) => Tells::Other,
        LineEvent::Refused(LineCause::Sum { got, want }) if *got == 0x0105 && *want == 0x0104 => {
            Tells::Sum
        }
        LineEvent::Refused(LineCause::Sum { .. }) => Tells::Other,
        LineEvent::Refused(LineCause::T1) => Tells::T1,
        LineEvent::Refused(LineCause::T2) => Tells::T2,
    }
}

// Whether these are the characters that a row says.
fn is_written(out: &[u8], writes: Writes) -> bool {
    match writes {
        Quiet => out.is_empty(),
        One(byte) => out == [byte].as_slice(),
        Frame => out == ARE_YOU_THERE.as_slice(),
    }
}

#[derive(Clone, Copy, Debug)]
enum Call {
    Send,
    Resume,
    Cancel,
    Take(u8),
    Tick,
}

// A call at its moment, and what it leaves.
type Step = (u32, Call, Writes, Phase, Tells);

// Makes the call where it may be made; `out` has what it made the end write.
fn make(end: &mut LineEnd, call: Call, now: u64, out: &mut Chars) -> LineEvent
    requires { now < 2 ^ 32 }
{
    out.clear();
    match call {
        Send if end.can_send() => {
            if let Ok(block) = block_of(&ARE_YOU_THERE) {
                end.send(block, now, out);
            }
            LineEvent::Nothing
        }
        Resume if end.phase() == Phase::Idle && end.holds() => {
            end.resume(now, out);
            LineEvent::Nothing
        }
        Cancel if end.phase() == Phase::Idle && end.holds() => {
            end.cancel();
            LineEvent::Nothing
        }
        Take(byte) => end.take(byte, now, out),
        Tick => end.tick(now, out),
        Send | Resume | Cancel => LineEvent::Failed,
    }
}

// Whether the call leaves what the step says.
fn goes(end: &mut LineEnd, step: &Step) -> bool {
    let mut out = Chars::new();
    let event = make(end, step.1, u64::from(step.0), &mut out);
    is_written(out.as_slice(), step.2) && end.phase() == step.3 && told_by(&event) == step.4
}

// The first step that goes otherwise.
fn first_wrong(end: &mut LineEnd, steps: &[Step]) -> Option<Step> {
    for step in steps {
        if !goes(end, step) {
            return Some(*step);
        }
    }
    None
}

fn take_all(end: &mut LineEnd, bytes: &[u8], now: u32) {
    let mut out = Chars::new();
    for byte in bytes {
        let _event = make(end, Take(*byte), u64::from(now), &mut out);
    }
}

// Whether a slave that holds a block of its own, since it has yielded, may come into this case.
fn may_hold(case: Case) -> bool {
    match case {
        Case::Idle
        | Case::AwaitLength
        | Case::Gathering
        | Case::Last
        | Case::Settling
        | Case::WrongSum => true,
        Case::AwaitEot | Case::LastEot | Case::AwaitAck | Case::LastAck => false,
    }
}

// What brings an end into a case that doesn't hold a block, or has just been given one.
fn bytes_to(case: Case) -> &'static [u8] {
    match case {
        Case::Idle | Case::AwaitEot => &[],
        Case::LastEot => &[EOT, NAK, EOT, NAK, EOT, NAK],
        Case::AwaitAck => &[EOT],
        Case::LastAck => &[EOT, NAK, EOT, NAK, EOT, NAK, EOT],
        Case::AwaitLength => &[ENQ],
        Case::Gathering => &[ENQ, 0x0A, 0x00],
        Case::Last => &[
            ENQ, 0x0A, 0x00, 0x00, 0x81, 0x01, 0x80, 0x01, 0x00, 0x00, 0x00, 0x01, 0x01,
        ],
        Case::Settling => &[ENQ, 0x09],
        Case::WrongSum => &[
            ENQ, 0x0A, 0x00, 0x00, 0x81, 0x01, 0x80, 0x01, 0x00, 0x00, 0x00, 0x01, 0x01, 0x05,
        ],
    }
}

// An end that came into a case at moment 1,000; a slave may hold a block of its own meanwhile, for which it has asked
// before.
fn end_at(side: Side, case: Case, holds: bool) -> LineEnd {
    let mut end = LineEnd::new(side, TIMES);
    let mut out = Chars::new();
    if holds || !may_hold(case) {
        let _event = make(&mut end, Send, 1_000, &mut out);
    }
    if holds && case == Case::Idle {
        take_all(&mut end, &[ENQ], 1_000);
        take_all(&mut end, &ARE_YOU_THERE, 1_000);
    } else {
        take_all(&mut end, bytes_to(case), 1_000);
    }
    end
}

fn row_of(side: Side, case: Case, byte: u8) -> Option<Row> {
    CHARACTERS.iter().copied().find(|row| {
        row.0 == case
            && (row.1 == Ends::Both || side == Side::Host)
            && row.2.0 <= byte
            && byte <= row.2.1
    })
}

fn deadline_of(waits: Waits, before: Option<u64>, now: u32) -> Option<u64> {
    match waits {
        Waits::Never => None,
        Waits::AsBefore => before,
        Waits::For(time) => u64::from(now).checked_add(time),
    }
}

// Whether the end makes this call so, and holds its block on unless that was sent or has failed.
fn goes_holding(end: &mut LineEnd, step: &Step) -> bool {
    let held = end.holds();
    let lets_go = step.4 == Tells::Sent || step.4 == Tells::Failed;
    goes(end, step) && end.holds() == (held && !lets_go)
}

// Whether the end does in this case, at moment 2,000, what the row of the character says.
fn follows_its_row(side: Side, case: Case, holds: bool, byte: u8) -> bool {
    let Some((_, _, _, writes, phase, waits, told)) = row_of(side, case, byte) else {
        return false;
    };
    let mut end = end_at(side, case, holds);
    let before = end.deadline();
    end.holds() == (holds || !may_hold(case))
        && goes_holding(&mut end, &(2_000, Take(byte), writes, phase, told))
        && end.deadline() == deadline_of(waits, before, 2_000)
}

// The first character at which it doesn't.
fn first_astray(side: Side, case: Case, holds: bool) -> Option<u8> {
    for byte in 0..=255u8 {
        if !follows_its_row(side, case, holds, byte) {
            return Some(byte);
        }
    }
    None
}

#[test]
fn each_character_in_each_phase(rt: HostRuntime) {
    let cases = [
        Case::Idle,
        Case::AwaitEot,
        Case::LastEot,
        Case::AwaitAck,
        Case::LastAck,
        Case::AwaitLength,
        Case::Gathering,
        Case::Last,
        Case::Settling,
        Case::WrongSum,
    ];
    for case in cases {
        for side in SIDES {
            let astray = first_astray(side, case, false);
            assert!(rt; astray.is_none(), "{side:?} {case:?} {astray:?}");
        }
        if may_hold(case) {
            let astray = first_astray(Side::Host, case, true);
            assert!(rt; astray.is_none(), "{case:?} {astray:?}, holding a block");
        }
    }
}

// Whether the end does nothing before its deadline, and at it, or so much later, what the row says.
fn waits_for_its_deadline(side: Side, row: &Deadline, holds: bool, late: u32) -> bool {
    let (case, due, writes, phase, waits, told) = *row;
    let mut end = end_at(side, case, holds);
    let before = end.phase();
    for early in [0, 1_000, due.saturating_sub(1)] {
        if !goes_holding(&mut end, &(early, Tick, Quiet, before, Tells::Nothing)) {
            return false;
        }
    }
    let now = due.saturating_add(late);
    end.deadline() == Some(u64::from(due))
        && goes_holding(&mut end, &(now, Tick, writes, phase, told))
        && end.deadline() == deadline_of(waits, None, now)
}

// Whether an idle end waits for nothing.
fn waits_for_nothing(side: Side, holds: bool) -> bool {
    let mut end = end_at(side, Case::Idle, holds);
    end.deadline().is_none()
        && goes_holding(
            &mut end,
            &(1_000_000, Tick, Quiet, Phase::Idle, Tells::Nothing),
        )
}

#[test]
fn each_deadline_in_each_phase(rt: HostRuntime) {
    for late in [0, 1, 100_000] {
        for row in &DEADLINES {
            for side in SIDES {
                assert!(rt;
                    waits_for_its_deadline(side, row, false, late),
                    "{side:?} {row:?} {late}"
                );
            }
            let holds = may_hold(row.0);
            assert!(rt;
                waits_for_its_deadline(Side::Host, row, holds, late),
                "{row:?} {holds} {late}"
            );
        }
    }
    assert!(rt; waits_for_nothing(Side::Equipment, false));
    assert!(rt; waits_for_nothing(Side::Host, false) && waits_for_nothing(Side::Host, true));
}

// An S6F11 from the equipment to its host.
const REPORT: Header = Header {
    from_equipment: true,
    device: 0,
    wait: true,
    stream: 6,
    function: 11,
    last: true,
    number: 1,
    system: 1,
};

// The longest text of a block, of ENQs.
static TEXT: [u8; 244] = [ENQ; 244];

// Whether the end gathers these characters, and says nothing of them.
fn gathers(end: &mut LineEnd, bytes: &[u8]) -> bool {
    for byte in bytes {
        if !goes(
            end,
            &(0, Take(*byte), Quiet, Phase::Gathering, Tells::Nothing),
        ) {
            return false;
        }
    }
    true
}

// Whether the block of this frame arrived.
fn is_arrived(event: &LineEvent, frame: &[u8]) -> bool {
    match event {
        LineEvent::Arrived(block) => frame_of(block).as_slice() == frame,
        _ => false,
    }
}

// Whether a block with this text arrives with its last character.
fn arrives(side: Side, text: &[u8]) -> bool {
    let Some(block) = Block::new(REPORT, text) else {
        return false;
    };
    let frame = frame_of(&block);
    let Some((last, front)) = frame.as_slice().split_last() else {
        return false;
    };
    let mut end = LineEnd::new(side, TIMES);
    let mut out = Chars::new();
    take_all(&mut end, &[ENQ], 0);
    if !gathers(&mut end, front) {
        return false;
    }
    let event = make(&mut end, Take(*last), 0, &mut out);
    is_arrived(&event, frame.as_slice())
        && is_written(out.as_slice(), One(ACK))
        && end.phase() == Phase::Idle
        && end.deadline().is_none()
}

// Whether it does with so many bytes of text.
fn arrives_with(side: Side, len: usize) -> bool {
    if len > TEXT.len() {
        return false;
    }
    arrives(side, TEXT.split_at(len).0)
}

#[test]
fn each_length_arrives_with_its_last_character(rt: HostRuntime) {
    for len in 0..245 {
        for side in SIDES {
            assert!(rt; arrives_with(side, len), "{side:?} {len}");
        }
    }
}

// A wrong sum, and a length byte out of range: told when the line has been quiet for T1.
#[test]
fn names_why_a_frame_is_refused(rt: HostRuntime) {
    let quiet = [
        (2_400, Take(0x05), Quiet, Phase::Settling, Tells::Nothing),
        (2_899, Tick, Quiet, Phase::Settling, Tells::Nothing),
        (2_900, Tick, One(NAK), Phase::Idle, Tells::Sum),
    ];
    let mut end = end_at(Side::Equipment, Case::Last, false);
    let wrong = first_wrong(&mut end, &quiet);
    assert!(rt; wrong.is_none(), "{wrong:?}");
    for length in [0, 255] {
        let mut end = end_at(Side::Host, Case::AwaitLength, false);
        take_all(&mut end, &[length, 0x55], 2_000);
        let mut out = Chars::new();
        let event = end.tick(2_500, &mut out);
        let cause = LineCause::Length(length);
        assert!(rt;
            matches!(event, LineEvent::Refused(why) if why == cause),
            "{event:?}"
        );
    }
}

// Both ends ask at moment 0: the slave yields, takes the master's block, and asks again. The master passes over the
// slave's ENQ.
#[test]
fn the_slave_yields(rt: HostRuntime) {
    let yields = [
        (0, Send, One(ENQ), Phase::AwaitEot, Tells::Nothing),
        (0, Take(ENQ), One(EOT), Phase::AwaitLength, Tells::Nothing),
    ];
    let asks_again = [
        (0, Take(0x04), One(ACK), Phase::Idle, Tells::Arrived),
        (0, Resume, One(ENQ), Phase::AwaitEot, Tells::Nothing),
        (9_999, Tick, Quiet, Phase::AwaitEot, Tells::Nothing),
        (10_000, Tick, One(ENQ), Phase::AwaitEot, Tells::Nothing),
    ];
    let master = [
        (0, Send, One(ENQ), Phase::AwaitEot, Tells::Nothing),
        (0, Take(ENQ), Quiet, Phase::AwaitEot, Tells::Nothing),
        (0, Take(EOT), Frame, Phase::AwaitAck, Tells::Nothing),
        (0, Take(ACK), Quiet, Phase::Idle, Tells::Sent),
    ];
    let mut host = LineEnd::new(Side::Host, TIMES);
    let wrong = first_wrong(&mut host, &yields);
    assert!(rt;
        wrong.is_none() && host.holds() && !host.can_send(),
        "{wrong:?}"
    );
    take_all(&mut host, &ARE_YOU_THERE[..12], 0);
    let wrong = first_wrong(&mut host, &asks_again);
    assert!(rt; wrong.is_none() && host.holds(), "{wrong:?}");
    let mut equipment = LineEnd::new(Side::Equipment, TIMES);
    let wrong = first_wrong(&mut equipment, &master);
    assert!(rt;
        wrong.is_none() && equipment.can_send() && !equipment.holds(),
        "{wrong:?}"
    );
}

// The deadline is looked at in a tick alone: a later character counts as long as none came.
#[test]
fn a_deadline_waits_for_its_tick(rt: HostRuntime) {
    let steps = [
        (0, Send, One(ENQ), Phase::AwaitEot, Tells::Nothing),
        (10_001, Take(EOT), Frame, Phase::AwaitAck, Tells::Nothing),
    ];
    let wrong = first_wrong(&mut LineEnd::new(Side::Equipment, TIMES), &steps);
    assert!(rt; wrong.is_none(), "{wrong:?}");
}

// Whether so many tries after the first begin with ENQ, where each frame is answered by NAK, or nothing is answered.
fn tries_again(end: &mut LineEnd, tries: u8, is_answered: bool) -> bool {
    for failed in 0..tries {
        if !fails(
            end,
            failed,
            is_answered,
            One(ENQ),
            Phase::AwaitEot,
            Tells::Nothing,
        ) {
            return false;
        }
    }
    true
}

// Whether a try fails so.
fn fails(
    end: &mut LineEnd,
    failed: u8,
    is_answered: bool,
    writes: Writes,
    phase: Phase,
    told: Tells,
) -> bool {
    let now = u32::from(failed) * 10_000;
    if is_answered {
        goes(
            end,
            &(now, Take(EOT), Frame, Phase::AwaitAck, Tells::Nothing),
        ) && goes(end, &(now, Take(NAK), writes, phase, told))
    } else {
        goes(end, &(now + 10_000, Tick, writes, phase, told))
    }
}

// With RTY r the block is tried r + 1 times.
fn gives_up(rty: u8, is_answered: bool) -> bool
    requires { rty < 32 }
{
    let mut end = LineEnd::new(Side::Host, Times { rty, ..TIMES });
    goes(
        &mut end,
        &(0, Send, One(ENQ), Phase::AwaitEot, Tells::Nothing),
    ) && tries_again(&mut end, rty, is_answered)
        && fails(
            &mut end,
            rty,
            is_answered,
            Quiet,
            Phase::Idle,
            Tells::Failed,
        )
        && end.can_send()
        && end.deadline().is_none()
}

#[test]
fn gives_up_after_the_last_try(rt: HostRuntime) {
    for rty in [0, 3, 31] {
        assert!(rt; gives_up(rty, false) && gives_up(rty, true), "{rty}");
    }
}

#[test]
fn a_yielded_block_may_be_dropped(rt: HostRuntime) {
    let yields = [
        (
            1_000,
            Take(ENQ),
            One(EOT),
            Phase::AwaitLength,
            Tells::Nothing,
        ),
        (11_000, Tick, One(NAK), Phase::Idle, Tells::T2),
    ];
    let mut host = end_at(Side::Host, Case::AwaitEot, false);
    let wrong = first_wrong(&mut host, &yields);
    assert!(rt; wrong.is_none() && host.holds(), "{wrong:?}");
    assert!(rt;
        host.held()
            .is_some_and(|header| header.stream == 1 && header.function == 1)
    );
    assert!(rt;
        goes(
            &mut host,
            &(11_000, Cancel, Quiet, Phase::Idle, Tells::Nothing)
        )
    );
    assert!(rt; host.can_send() && !host.holds() && host.held().is_none());
}
