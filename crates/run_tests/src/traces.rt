//! Traces: those that the host of a world asks for, and one of `equipment` over a link.

ghost use Rattle.std.specs.Prelude.{IfOk};
ghost use Rattle.gl_base.specs.Events.{AreLinkEvents};

use crate::played_program::{FRONT, disk_with, words_of};
use crate::replay_and_make::{behind_first, is_replayed};
use crate::tool_runs::{EQUIPMENT, tool_ends_so};
use gl_base::{LinkEntry, LinkIn, MemLink, NoMemory, Row};
use std::alloc::Global;
use std::test::Fail;

/// Variable 1 is 7, and the tool is on-line.
const PLAN: &[u8] =
    b"[equipment]\ncontrol = \"remote\"\n[[variable]]\nvid = 1\nvalue = \"<U4 7>\"\n";

/// A schedule, and its trace behind the first message of the tool.
type Case = (&'static [u8], &'static str);

/// The host asks for traces in a world.
static WORLDS: [Case; 3] = [
    (TWO_SAMPLES, SEVEN_AND_NINE),
    (NONE_RUNS, NONE_RAN),
    (STARTS_ANEW, STARTED_ANEW),
];

/// Two samples, a second apart; a value is set between them.
const TWO_SAMPLES: &[u8] =
    b"settle\nhost send S2F23 W <L <U4 1> <A \"000001\"> <U4 2> <U4 2> <L <U4 1>>>\nsettle\n\
    wait 1000\ntool set 1 <U4 9>\nwait 1000\nsettle\n";

/// A period of sixty seconds, a group that is larger than the total, a variable that isn't there.
const NONE_RUNS: &[u8] =
    b"settle\nhost send S2F23 W <L <U4 1> <A \"000060\"> <U4 2> <U4 2> <L <U4 1>>>\nsettle\n\
    host send S2F23 W <L <U4 1> <A \"000001\"> <U4 2> <U4 3> <L <U4 1>>>\nsettle\n\
    host send S2F23 W <L <U4 1> <A \"000001\"> <U4 2> <U4 2> <L <U4 99>>>\nsettle\nwait 9000\n";

/// The tool loses its power between two samples.
const STARTS_ANEW: &[u8] =
    b"settle\nhost send S2F23 W <L <U4 1> <A \"000001\"> <U4 9> <U4 1> <L <U4 1>>>\nsettle\n\
    wait 1000\nsettle\ncut 1 old\nwait 500\nsettle\nwait 8000\n";

/// Both samples go in one S6F1. The host knows none, and aborts it.
const SEVEN_AND_NINE: &str =
    "0 H sent S2F23 W 00000000 0105B104000000014106303030303031B10400000002B104000000020101B10400000001\n\
    0 H tx 05\n\
    0 E tx 04\n\
    0 H tx 2E000082178001000000000105B104000000014106303030303031B10400000002B104000000020101B104000000010564\n\
    0 E rx S2F23 W 00000000 0105B104000000014106303030303031B10400000002B104000000020101B10400000001\n\
    0 E sent S2F24 00000000 210100\n\
    0 E tx 0605\n\
    0 H tx 04\n\
    0 E tx 0D80000218800100000000210100013D\n\
    0 H rx S2F24 00000000 210100\n\
    0 H tx 06\n\
    1000 E set 1\n\
    2000 E sent S6F1 W 00000001 0104B10400000001B1040000000241000102B10400000007B10400000009\n\
    2000 E tx 05\n\
    2000 H tx 04\n\
    2000 E tx 28800086018001000000010104B10400000001B1040000000241000102B10400000007B1040000000904B9\n\
    2000 H rx S6F1 W 00000001 0104B10400000001B1040000000241000102B10400000007B10400000009\n\
    2000 H sent S6F0 00000001 -\n\
    2000 H tx 0605\n\
    2000 E tx 04\n\
    2000 H tx 0A000006008001000000010088\n\
    2000 E rx S6F0 00000001 -\n\
    2000 E tx 06\n\
    2000 end\n";

/// Each is refused with a code of its own, and no sample is taken.
const NONE_RAN: &str =
    "0 H sent S2F23 W 00000000 0105B104000000014106303030303630B10400000002B104000000020101B10400000001\n\
    0 H tx 05\n\
    0 E tx 04\n\
    0 H tx 2E000082178001000000000105B104000000014106303030303630B10400000002B104000000020101B104000000010569\n\
    0 E rx S2F23 W 00000000 0105B104000000014106303030303630B10400000002B104000000020101B10400000001\n\
    0 E sent S2F24 00000000 210103\n\
    0 E tx 0605\n\
    0 H tx 04\n\
    0 E tx 0D800002188001000000002101030140\n\
    0 H rx S2F24 00000000 210103\n\
    0 H tx 06\n\
    0 H sent S2F23 W 00000001 0105B104000000014106303030303031B10400000002B104000000030101B10400000001\n\
    0 H tx 05\n\
    0 E tx 04\n\
    0 H tx 2E000082178001000000010105B104000000014106303030303031B10400000002B104000000030101B104000000010566\n\
    0 E rx S2F23 W 00000001 0105B104000000014106303030303031B10400000002B104000000030101B10400000001\n\
    0 E sent S2F24 00000001 210105\n\
    0 E tx 0605\n\
    0 H tx 04\n\
    0 E tx 0D800002188001000000012101050143\n\
    0 H rx S2F24 00000001 210105\n\
    0 H tx 06\n\
    0 H sent S2F23 W 00000002 0105B104000000014106303030303031B10400000002B104000000020101B10400000063\n\
    0 H tx 05\n\
    0 E tx 04\n\
    0 H tx 2E000082178001000000020105B104000000014106303030303031B10400000002B104000000020101B1040000006305C8\n\
    0 E rx S2F23 W 00000002 0105B104000000014106303030303031B10400000002B104000000020101B10400000063\n\
    0 E sent S2F24 00000002 210104\n\
    0 E tx 0605\n\
    0 H tx 04\n\
    0 E tx 0D800002188001000000022101040143\n\
    0 H rx S2F24 00000002 210104\n\
    0 H tx 06\n\
    9000 end\n";

/// No trace runs behind the start.
const STARTED_ANEW: &str =
    "0 H sent S2F23 W 00000000 0105B104000000014106303030303031B10400000009B104000000010101B10400000001\n\
    0 H tx 05\n\
    0 E tx 04\n\
    0 H tx 2E000082178001000000000105B104000000014106303030303031B10400000009B104000000010101B10400000001056A\n\
    0 E rx S2F23 W 00000000 0105B104000000014106303030303031B10400000009B104000000010101B10400000001\n\
    0 E sent S2F24 00000000 210100\n\
    0 E tx 0605\n\
    0 H tx 04\n\
    0 E tx 0D80000218800100000000210100013D\n\
    0 H rx S2F24 00000000 210100\n\
    0 H tx 06\n\
    1000 E sent S6F1 W 00000001 0104B10400000001B1040000000141000101B10400000007\n\
    1000 E tx 05\n\
    1000 H tx 04\n\
    1000 E tx 22800086018001000000010104B10400000001B1040000000141000101B1040000000703F9\n\
    1000 H rx S6F1 W 00000001 0104B10400000001B1040000000141000101B10400000007\n\
    1000 H sent S6F0 00000001 -\n\
    1000 H tx 0605\n\
    1000 E tx 04\n\
    1000 H tx 0A000006008001000000010088\n\
    1000 E rx S6F0 00000001 -\n\
    1000 E tx 06\n\
    1500 E power\n\
    1500 E start len=0 base=4096\n\
    1500 E comms WAIT-CRA\n\
    1500 E sent S1F13 W 00001000 0102410747454D4C494E45410131\n\
    1500 E tx 05\n\
    1500 H tx 04\n\
    1500 E tx 188000810D8001000010000102410747454D4C494E45410131045E\n\
    1500 H rx S1F13 W 00001000 0102410747454D4C494E45410131\n\
    1500 H sent S1F14 00001000 01022101000100\n\
    1500 H tx 0605\n\
    1500 E tx 04\n\
    1500 H tx 110000010E8001000010000102210100010000C6\n\
    1500 E rx S1F14 00001000 01022101000100\n\
    1500 E comms COMMUNICATING\n\
    1500 E tx 06\n\
    9500 end\n";

fn goes(alloc: Global, case: &Case) -> bool {
    let (schedule, rest) = *case;
    match (
        words_of(alloc, &["replay", "plan", "schedule"]),
        behind_first(alloc, rest),
    ) {
        (Ok(words), Ok(trace)) => {
            is_replayed(alloc, &words, PLAN, schedule, &(0, trace.as_str(), ""))
        }
        _ => false,
    }
}

#[test]
fn hosts_ask_for_traces(rt: HostRuntime) -> Result<(), Fail> {
    for case in &WORLDS {
        assert!(rt; goes(rt.alloc(), case));
    }
    Ok(())
}

/// The host lets the tool ask for communication, accepts, asks for three samples in one S6F1, and takes the answer.
const HEARD: &[u8] = &[
    0x04, 0x06, 0x05, 0x11, 0x00, 0x00, 0x01, 0x0E, 0x80, 0x01, 0x00, 0x00, 0x00, 0x00, 0x01, 0x02,
    0x21, 0x01, 0x00, 0x01, 0x00, 0x00, 0xB6, 0x05, 0x2E, 0x00, 0x00, 0x82, 0x17, 0x80, 0x01, 0x00,
    0x00, 0x00, 0x00, 0x01, 0x05, 0xB1, 0x04, 0x00, 0x00, 0x00, 0x01, 0x41, 0x06, 0x30, 0x30, 0x30,
    0x30, 0x30, 0x31, 0xB1, 0x04, 0x00, 0x00, 0x00, 0x03, 0xB1, 0x04, 0x00, 0x00, 0x00, 0x03, 0x01,
    0x01, 0xB1, 0x04, 0x00, 0x00, 0x00, 0x01, 0x05, 0x66, 0x04, 0x06,
];

/// The tool sets the variable between the first two samples, and at the moment of the second one.
const SETS: &[u8] = b"1500 set 1 <U4 8>\n2000 set 1 <U4 9>\n";

/// Each sample is of the value before its step's command.
const SAMPLED: &str = "0 E start len=0 base=0\n\
    0 E comms WAIT-CRA\n\
    0 E sent S1F13 W 00000000 0102410747454D4C494E45410131\n\
    0 E tx 05\n\
    0 E tx 188000810D8001000000000102410747454D4C494E45410131044E\n\
    0 E tx 04\n\
    0 E rx S1F14 00000000 01022101000100\n\
    0 E comms COMMUNICATING\n\
    0 E tx 06\n\
    0 E tx 04\n\
    0 E rx S2F23 W 00000000 0105B104000000014106303030303031B10400000003B104000000030101B10400000001\n\
    0 E sent S2F24 00000000 210100\n\
    0 E tx 0605\n\
    0 E tx 0D80000218800100000000210100013D\n\
    1500 E set 1\n\
    2000 E set 1\n\
    3000 E sent S6F1 W 00000001 0104B10400000001B1040000000341000103B10400000007B10400000008B10400000009\n\
    3000 E tx 05\n\
    3000 E closed\n";

/// What passes over the link at last: it waits for the next sample, or for a line of the script that comes before.
static WAITED: [LinkEntry; 6] = [
    LinkEntry::Polled {
        until: 1_000,
        answer: LinkIn::Quiet(1_000),
    },
    LinkEntry::Polled {
        until: 1_500,
        answer: LinkIn::Quiet(1_500),
    },
    LinkEntry::Polled {
        until: 2_000,
        answer: LinkIn::Quiet(2_000),
    },
    LinkEntry::Polled {
        until: 3_000,
        answer: LinkIn::Quiet(3_000),
    },
    LinkEntry::Sent(5),
    LinkEntry::Polled {
        until: 13_000,
        answer: LinkIn::Closed,
    },
];

/// These characters at moment 0, and then quiet times.
fn heard_and_quiet(alloc: Global, characters: &[u8]) -> Result<Row<LinkIn>, NoMemory>
    ensures { IfOk result (λ answers. AreLinkEvents answers) }
{
    let mut answers = Row::new(alloc);
    'characters: for byte in characters {
        answers.push(LinkIn::Char(*byte, 0))?;
    }
    let quiet = [
        LinkIn::Quiet(1_000),
        LinkIn::Quiet(1_500),
        LinkIn::Quiet(2_000),
        LinkIn::Quiet(3_000),
    ];
    answers.extend(&quiet)?;
    Ok(answers)
}

fn samples_over(alloc: Global, link: &mut MemLink) -> bool {
    match (
        words_of(alloc, EQUIPMENT),
        disk_with(alloc, &[FRONT, b""], 0),
    ) {
        (Ok(words), Some(mut disk)) => {
            let end = (0, SAMPLED, "");
            tool_ends_so(alloc, &words, PLAN, SETS, 0, &mut disk, link, &end)
                && link.entries().ends_with(&WAITED)
        }
        _ => false,
    }
}

fn samples(alloc: Global) -> bool {
    match heard_and_quiet(alloc, HEARD) {
        Ok(answers) => match MemLink::new(alloc, answers, 400) {
            Ok(mut link) => samples_over(alloc, &mut link),
            Err(NoMemory) => false,
        },
        Err(NoMemory) => false,
    }
}

#[test]
fn a_tool_samples_over_a_link(rt: HostRuntime) -> Result<(), Fail> {
    assert!(rt; samples(rt.alloc()));
    Ok(())
}
