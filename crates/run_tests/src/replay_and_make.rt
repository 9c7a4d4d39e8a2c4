//! `replay` of plans and schedules, and `make`.

use crate::played_program::{
    Bytes, End, Failing, TestFiles, TestInput, are_failing, are_refused, ends_so, output,
    pieces_of, words_of,
};
use crate::show_and_spell::LISTS_END;
use gl_base::NoMemory;
use std::alloc::Global;
use std::test::Fail;

/// A plan or a schedule, and how a replay of it ends.
type Case = (Bytes, End<'static>);

/// `replay` of a schedule over the empty plan.
static SCHEDULES: [Case; 7] = [
    ((b"", b"settle\n", 1, b""), (0, FIRST_MESSAGE, "")),
    ((b"", b"# all\n\nsettle", 1, b""), (0, FIRST_MESSAGE, "")),
    ((b"", b"wait 10000\n", 4, b""), (0, NO_ANSWER, "")),
    (
        (b"", b"wait 1\njump", 1, b""),
        (65, "", "gemline: 65 schedule line 2\n"),
    ),
    (
        (b"", b"wait 1\ncut 1 old\nwait 1", 1, b""),
        (0, STARTED_ANEW, ""),
    ),
    (
        (b"", b"\n", 131_072, b"settle"),
        (65, "", "gemline: 65 schedule line 131073\n"),
    ),
    (
        (b"", b"                ", 262_144, b" "),
        (65, "", "gemline: 65 file schedule longer\n"),
    ),
];

/// Schedules whose one line sets a variable to so many lists.
static LISTS: [Case; 2] = [
    (
        (
            b"tool set 1 ",
            b"<L ",
            64,
            b">>>>>>>>>>>>>>>>>>>>>>>>>>>>>>>>>>>>>>>>>>>>>>>>>>>>>>>>>>>>>>>>",
        ),
        (0, REFUSED, ""),
    ),
    (
        (b"tool set 1 ", b"<L ", 65, LISTS_END),
        (65, "", "gemline: 65 schedule line 1\n"),
    ),
];

/// Plans, and a schedule outside of the grammar.
static PLANS: [Case; 8] = [
    (
        (b"", b" ", 1, b""),
        (65, "", "gemline: 65 schedule line 1\n"),
    ),
    (
        (b"", b"                ", 65_536, b""),
        (65, "", "gemline: 65 schedule line 1\n"),
    ),
    (
        (b"", b"                ", 65_536, b" "),
        (65, "", "gemline: 65 file plan longer\n"),
    ),
    (
        (b"[line", b"", 1, b""),
        (65, "", "gemline: 65 plan  Syntax\n"),
    ),
    (
        (b"[line]\nrty = ", b"32", 1, b""),
        (65, "", "gemline: 65 plan line.rty Range\n"),
    ),
    (
        (b"[line]\nrty = ", b"true", 1, b""),
        (65, "", "gemline: 65 plan line.rty Kind\n"),
    ),
    (
        (b"", b"[[event]]\n", 1, b"name = \"Done\""),
        (65, "", "gemline: 65 plan event.ceid Missing\n"),
    ),
    (
        (b"", b"[[event]]\nceid = 1\n", 2, b""),
        (65, "", "gemline: 65 plan event.ceid Repeated\n"),
    ),
];

/// A key that has no meaning.
static OTHER_PLANS: [Case; 1] = [(
    (b"[host]\nenable = false\nslots = 1", b"", 1, b""),
    (65, "", "gemline: 65 plan host.slots Unknown\n"),
)];

/// Plans, and the schedule `settle`.
static SETTLED: [Case; 2] = [
    (
        (
            b"[equipment]\nenable = false\n[line]\ndevice = 1\n",
            b"",
            1,
            b"",
        ),
        (0, "0 E start len=0 base=0\n0 H start\n0 end\n", ""),
    ),
    (
        (
            b"[equipment]\nsoftrev = \"2\"\n[host]\nenable = false\n",
            b"",
            1,
            b"",
        ),
        (0, DROPPED, ""),
    ),
];

pub(crate) const FIRST_MESSAGE: &str = "0 E start len=0 base=0\n0 H start\n0 E comms WAIT-CRA\n\
    0 E sent S1F13 W 00000000 0102410747454D4C494E45410131\n0 E tx 05\n0 H tx 04\n\
    0 E tx 188000810D8001000000000102410747454D4C494E45410131044E\n\
    0 H rx S1F13 W 00000000 0102410747454D4C494E45410131\n0 H comms COMMUNICATING\n\
    0 H sent S1F14 00000000 01022101000100\n0 H tx 0605\n0 E tx 04\n\
    0 H tx 110000010E8001000000000102210100010000B6\n\
    0 E rx S1F14 00000000 01022101000100\n0 E comms COMMUNICATING\n0 E tx 06\n0 end\n";

/// A whole trace: that of the first message, which goes on so where that ends.
pub(crate) fn behind_first(alloc: Global, rest: &str) -> Result<String, NoMemory> {
    let front = match FIRST_MESSAGE.strip_suffix("0 end\n") {
        Some(front) => front,
        None => FIRST_MESSAGE,
    };
    let mut trace = String::from_str(alloc, front)?;
    trace.push_str(rest)?;
    Ok(trace)
}

/// The same with another SOFTREV, to a host that isn't enabled.
const DROPPED: &str = "0 E start len=0 base=0\n0 H start\n0 E comms WAIT-CRA\n\
    0 E sent S1F13 W 00000000 0102410747454D4C494E45410132\n0 E tx 05\n0 H tx 04\n\
    0 E tx 188000810D8001000000000102410747454D4C494E45410132044F\n\
    0 H rx S1F13 W 00000000 0102410747454D4C494E45410132\n0 H dropped S1F13 W\n0 H tx 06\n0 end\n";

const NO_ANSWER: &str = "0 E start len=0 base=0\n0 H start\n0 E comms WAIT-CRA\n\
    0 E sent S1F13 W 00000000 0102410747454D4C494E45410131\n0 E tx 05\n\
    10000 E tx 05\n20000 E tx 05\n30000 E tx 05\n40000 E failed S1F13 W 00000000\n\
    40000 E comms WAIT-DELAY\n40000 E spool ACTIVE\n40000 end\n";

/// Power is lost while the first character is on its way.
const STARTED_ANEW: &str = "0 E start len=0 base=0\n0 H start\n0 E comms WAIT-CRA\n\
    0 E sent S1F13 W 00000000 0102410747454D4C494E45410131\n0 E tx 05\n2 E power\n\
    2 E start len=0 base=4096\n2 E comms WAIT-CRA\n\
    2 E sent S1F13 W 00001000 0102410747454D4C494E45410131\n2 E tx 05\n2 end\n";

/// No variable is planned.
const REFUSED: &str = "0 E start len=0 base=0\n0 H start\n0 E comms WAIT-CRA\n\
    0 E sent S1F13 W 00000000 0102410747454D4C494E45410131\n0 E tx 05\n0 E refused\n0 end\n";

/// Whether `replay` over these files ends so.
pub(crate) fn is_replayed(
    alloc: Global,
    words: &[String],
    plan: &[u8],
    schedule: &[u8],
    end: &End,
) -> bool {
    let mut files = TestFiles {
        plan,
        schedule,
        fails: 0,
    };
    let mut input = TestInput {
        left: b"",
        step: 1,
        fails: 1,
    };
    ends_so(
        alloc,
        words,
        &mut files,
        &mut input,
        &mut output(alloc, 2000, 0),
        end,
    )
}

fn is_schedule(alloc: Global, words: &[String], case: &Case) -> bool {
    match pieces_of(alloc, &case.0) {
        Ok(schedule) => is_replayed(alloc, words, b"", schedule.as_slice(), &case.1),
        Err(NoMemory) => false,
    }
}

fn are_schedules(alloc: Global, words: &[String], cases: &[Case]) -> bool {
    for case in cases {
        if !is_schedule(alloc, words, case) {
            return false;
        }
    }
    true
}

fn is_plan(alloc: Global, words: &[String], schedule: &[u8], case: &Case) -> bool {
    match pieces_of(alloc, &case.0) {
        Ok(plan) => is_replayed(alloc, words, plan.as_slice(), schedule, &case.1),
        Err(NoMemory) => false,
    }
}

fn are_plans(alloc: Global, words: &[String], schedule: &[u8], cases: &[Case]) -> bool {
    for case in cases {
        if !is_plan(alloc, words, schedule, case) {
            return false;
        }
    }
    true
}

/// Whether the schedules and the plans are answered so.
fn are_answered(alloc: Global, words: &[String]) -> bool {
    are_schedules(alloc, words, &SCHEDULES)
        && are_schedules(alloc, words, &LISTS)
        && are_plans(alloc, words, b"jump", &PLANS)
        && are_plans(alloc, words, b"jump", &OTHER_PLANS)
        && are_plans(alloc, words, b"settle", &SETTLED)
}

#[test]
fn replay_answers_its_files(rt: HostRuntime) -> Result<(), Fail> {
    let words = words_of(rt.alloc(), &["replay", "plan", "schedule"])?;
    assert!(rt; are_answered(rt.alloc(), &words));
    Ok(())
}

/// What is written of rounds, of which neither input nor files are read.
static MADE: [Failing; 3] = [
    (
        &["make", "1"],
        b"",
        [1, 1, 0],
        (
            0,
            "rounds 1\nrx E 8 H 8\nreports 0\nstored 0\ngone 0\nstarts 2\n",
            "",
        ),
    ),
    (
        &["make", "0000000003"],
        b"",
        [1, 1, 0],
        (
            0,
            "rounds 3\nrx E 7 H 7\nreports 2\nstored 1\ngone 0\nstarts 1\n",
            "",
        ),
    ),
    (
        &["make", "1"],
        b"",
        [1, 1, 1],
        (73, "", "gemline: 73 write\n"),
    ),
];

/// Words of rounds that are refused.
static MAKE_WORDS: [&'static [&'static str]; 6] = [
    &["make"],
    &["make", "0"],
    &["make", "10001"],
    &["make", "00000000001"],
    &["make", "-1"],
    &["make", "1", "1"],
];

#[test]
fn rounds_are_made(rt: HostRuntime) -> Result<(), Fail> {
    let alloc = rt.alloc();
    assert!(rt; are_failing(alloc, &MADE));
    assert!(rt; are_refused(alloc, &MAKE_WORDS));
    Ok(())
}
