//! `host --journal` over a disk in memory and a link that the peer has closed, and `replay --journal`.

use crate::played_program::{
    AREA, End, FOURTH, FRONT, TestFiles, TestInput, disk_with, ends_over, ends_so, output, words_of,
};
use gl_base::{MemLink, Row};
use std::alloc::Global;
use std::test::Fail;

/// The first bytes of a journal of three slots and of its slot 1, which call of the disk and of the output fails, and
/// the end.
type Journaling = ([&'static [u8]; 2], u32, u32, End<'static>);

static JOURNALS: [Journaling; 5] = [
    (
        [FRONT, b""],
        0,
        0,
        (0, "0 H start len=0 base=0\n0 H closed\n", ""),
    ),
    (
        [FRONT, FOURTH],
        0,
        0,
        (0, "0 H start len=1 base=0\n0 H closed\n", ""),
    ),
    (
        [b"GLSPX", b""],
        0,
        1,
        (78, "", "gemline: 78 not a spool at 4\n"),
    ),
    ([FRONT, FOURTH], 1, 1, (74, "", "gemline: 74 disk\n")),
    ([FRONT, FOURTH], 0, 1, (73, "", "gemline: 73 write\n")),
];

/// Whether a host over such a journal ends so.
fn is_journaling(alloc: Global, case: &Journaling) -> bool {
    let (bytes, call, write, end) = *case;
    let (Ok(words), Some(mut disk), Ok(mut link)) = (
        words_of(alloc, &["host", "plan", "address", "--journal", "f"]),
        disk_with(alloc, &bytes, AREA),
        MemLink::new(alloc, Row::new(alloc), 300),
    ) else {
        return false;
    };
    disk.fail_at(call);
    let mut files = TestFiles {
        plan: b"",
        schedule: b"",
        fails: 0,
    };
    let mut input = TestInput {
        left: b"",
        step: 1,
        fails: 0,
    };
    ends_over(
        alloc,
        &words,
        &mut files,
        &mut input,
        &mut output(alloc, 2000, write),
        &mut disk,
        &mut link,
        &end,
    )
}

#[test]
fn journals_are_taken_up_before_the_line(rt: HostRuntime) -> Result<(), Fail> {
    for case in &JOURNALS {
        assert!(rt; is_journaling(rt.alloc(), case));
    }
    Ok(())
}

/// Words behind `replay`, a schedule, and the end.
type Replaying = (&'static [&'static str], &'static [u8], End<'static>);

const REPLAY: &[&str] = &["replay", "plan", "schedule", "--journal", "3"];

/// The host loses its power behind an event, and as it writes; without a journal no line says so.
static REPLAYS: [Replaying; 3] = [
    (
        REPLAY,
        b"hcut 1 old\nwait 1\n",
        (
            0,
            "0 E start len=0 base=0\n0 H start len=0 base=0\n0 E comms WAIT-CRA\n\
             0 E sent S1F13 W 00000000 0102410747454D4C494E45410131\n0 E tx 05\n1 H power\n\
             1 H start len=0 base=4096\n1 end\n",
            "",
        ),
    ),
    (
        REPLAY,
        b"hcut 1 new\nto H 1\n",
        (
            0,
            "0 E start len=0 base=0\n0 H start len=0 base=0\n0 E comms WAIT-CRA\n\
             0 E sent S1F13 W 00000000 0102410747454D4C494E45410131\n0 E tx 05\n0 H tx 04\n0 H power\n\
             0 H start len=0 base=4096\n0 end\n",
            "",
        ),
    ),
    (
        &["replay", "plan", "schedule"],
        b"hcut 1 old\nwait 1\n",
        (65, "", "gemline: 65 schedule line 1\n"),
    ),
];

/// Whether a replay ends so.
fn is_replaying(alloc: Global, case: &Replaying) -> bool {
    let (words, schedule, end) = *case;
    let Ok(words) = words_of(alloc, words) else {
        return false;
    };
    let mut files = TestFiles {
        plan: b"",
        schedule,
        fails: 0,
    };
    let mut input = TestInput {
        left: b"",
        step: 1,
        fails: 1,
    };
    ends_so(
        alloc,
        &words,
        &mut files,
        &mut input,
        &mut output(alloc, 2000, 0),
        &end,
    )
}

#[test]
fn hosts_lose_their_power_in_a_replay(rt: HostRuntime) -> Result<(), Fail> {
    for case in &REPLAYS {
        assert!(rt; is_replaying(rt.alloc(), case));
    }
    Ok(())
}
