ghost use Rattle.std.specs.Prelude.{◌≡◌, ◌<◌, ◌≤◌, ◌+◌, ◌^◌, length};

use super::*;
use Call::{Add, Asks, Change, Empty, Gather, Lose, Next, Refuses, Slips, Take};
use gl_base::Side;
use line_end::Phase;

// What is done on the way to the host.
#[derive(Clone, Copy, Debug)]
enum Call {
    // The equipment asks again at its deadline, and writes its frame.
    Asks,
    // It refuses a frame at its deadline, and asks for a block of its own.
    Refuses,
    // The next character.
    Next(Option<u8>),
    // The host takes it, and is in this phase then.
    Take(Phase),
    // It gathers so many.
    Gather(u8),
    Lose,
    Change(u32, u8),
    Add(u8),
    // The host loses its power.
    Empty,
    // Whether the next character makes a slip where T1 has run out or not, and of which frame.
    Slips(bool, Option<Option<u64>>),
}

// ENQ, and a frame of length 21, which is NAK.
const ASKED: [u8; 25] = [
    0x05, 0x15, 0x80, 0x00, 0x01, 0x0D, 0x80, 0x01, 0x00, 0x00, 0x00, 0x07, 0x01, 0x02, 0x41, 0x07,
    0x47, 0x45, 0x4D, 0x4C, 0x49, 0x4E, 0x45, 0x03, 0x62,
];

// NAK and ENQ.
const REFUSED: [u8; 2] = [0x15, 0x05];

// A frame arrives as it was written: its ENQ is none of its characters.
static WHOLE: [Call; 7] = [
    Asks,
    Next(Some(0x05)),
    Take(Phase::AwaitLength),
    Gather(23),
    Slips(false, None),
    Take(Phase::Idle),
    Next(None),
];

// A character is changed, and changed back.
static CHANGED_BACK: [Call; 6] = [
    Asks,
    Change(1, 0x16),
    Take(Phase::AwaitLength),
    Change(0, 0x15),
    Gather(23),
    Slips(false, None),
];

// The first character of the frame is lost, and an equal one added.
static REPLACED: [Call; 7] = [
    Asks,
    Take(Phase::AwaitLength),
    Lose,
    Add(0x15),
    Gather(23),
    Slips(true, None),
    Slips(false, Some(None)),
];

// A character of the body and the sum are changed. Only the last one makes the slip.
static CHANGED: [Call; 8] = [
    Asks,
    Take(Phase::AwaitLength),
    Change(20, 0x4F),
    Change(23, 0x63),
    Gather(22),
    Slips(false, None),
    Gather(1),
    Slips(false, Some(Some(0))),
];

// The number of the next frame goes on behind a power loss.
static NUMBERED: [Call; 8] = [
    Asks,
    Empty,
    Asks,
    Take(Phase::AwaitLength),
    Change(20, 0x4F),
    Change(23, 0x63),
    Gather(23),
    Slips(false, Some(Some(1))),
];

// Two control characters, with noise in front of them.
static CONTROLS: [Call; 7] = [
    Refuses,
    Next(Some(0x15)),
    Add(0x41),
    Next(Some(0x41)),
    Lose,
    Take(Phase::Idle),
    Next(Some(0x05)),
];

// Whether the call does what it should.
fn goes(ways: &mut Ways, call: Call) -> bool
    requires { ways.old.written < 2 ^ 61 }
    ensures { ways.new.written ≤ ways.old.written + 255 }
{
    match call {
        Asks => ways
            .step(Side::Equipment, false, Phase::AwaitAck, &ASKED)
            .is_ok(),
        Refuses => ways
            .step(Side::Equipment, false, Phase::AwaitEot, &REFUSED)
            .is_ok(),
        Next(byte) => ways.next(Side::Host) == byte
            && ways.is_under_way(Side::Host) == byte.is_some(),
        Take(phase) => ways.step(Side::Host, true, phase, &[]).is_ok(),
        Gather(count) => gathers(ways, count),
        Lose => {
            ways.lose(Side::Host);
            true
        }
        Change(place, byte) => {
            ways.change(Side::Host, place, byte);
            true
        }
        Add(byte) => ways.add(Side::Host, byte).is_ok(),
        Empty => {
            ways.empty(Side::Host);
            true
        }
        Slips(is_late, frame) => {
            ways.slip(Side::Host, Phase::Gathering, is_late)
                .map(|slip| slip.frame)
                == frame
        }
    }
}

fn gathers(ways: &mut Ways, count: u8) -> bool
    requires { ways.old.written < 2 ^ 61 }
    ensures { ways.new.written ≤ ways.old.written + count }
{
    'characters: for _ in 0..count {
        if ways.step(Side::Host, true, Phase::Gathering, &[]).is_err() {
            return false;
        }
    }
    true
}

// The first call that goes otherwise.
fn first_wrong(ways: &mut Ways, calls: &[Call]) -> Option<Call>
    requires written { ways.old.written ≡ 0 }
    requires few { length calls.now ≤ 8 }
{
    'calls: for call in calls {
        if !goes(ways, *call) {
            return Some(*call);
        }
    }
    None
}

#[test]
fn characters_keep_where_they_come_from(rt: HostRuntime) {
    for calls in [
        WHOLE.as_slice(),
        CHANGED_BACK.as_slice(),
        REPLACED.as_slice(),
        CHANGED.as_slice(),
        NUMBERED.as_slice(),
        CONTROLS.as_slice(),
    ] {
        let wrong = first_wrong(&mut Ways::new(rt.alloc()), calls);
        assert!(rt; wrong.is_none(), "{wrong:?}");
    }
}
