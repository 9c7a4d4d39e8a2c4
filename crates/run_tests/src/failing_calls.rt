//! Each call of what is outside fails alone, in one run of every command: the status says what the call was of, and the
//! output has a front of the whole one.

use crate::played_program::{
    AREA, FOURTH, FRONT, TestFiles, TestInput, TestOutput, disk_with, output, words_of,
};
use crate::replay_and_make::FIRST_MESSAGE;
use crate::show_and_spell::{S1F1, S1F1_LINES};
use crate::tool_runs::{EQUIPMENT, ONE_TRY, STORED, STORES};
use gemline_app::gemline;
use gl_base::{LinkIn, MemLink, NoMemory, Row};
use std::alloc::Global;
use std::test::Fail;

/// What a call is of.
#[derive(Clone, Copy, Debug, PartialEq, Eq)]
enum Outside {
    Input,
    Files,
    Output,
    Disk,
    Link,
}

/// Words, a plan, what the input gives, the first bytes of a file of three slots and of its slot 1, and how many there
/// are behind the slots, the whole output, and how many calls are made of each.
type Run = (
    &'static [&'static str],
    &'static [u8],
    &'static [u8],
    [&'static [u8]; 2],
    u64,
    &'static str,
    [u32; 5],
);

static ALL: [Outside; 5] = [
    Outside::Input,
    Outside::Files,
    Outside::Output,
    Outside::Disk,
    Outside::Link,
];

/// The first S1F1 of a host that asks when nothing has come for ten seconds, until the peer closes the link.
const ASKED: &str = "0 H start\n10001 H sent S1F1 W 00000000 -\n10001 H tx 05\n10001 H closed\n";

static RUNS: [Run; 9] = [
    (
        &["show"],
        b"",
        &S1F1,
        [b"", b""],
        0,
        S1F1_LINES,
        [2, 0, 1, 0, 0],
    ),
    (
        &["spell"],
        b"",
        b"<U4 5>",
        [b"", b""],
        0,
        "B10400000005\n",
        [2, 0, 1, 0, 0],
    ),
    (
        &["spell", "--hex"],
        b"",
        b"B10400000005",
        [b"", b""],
        0,
        "<U4 5>\n",
        [2, 0, 1, 0, 0],
    ),
    (
        &["replay", "plan", "schedule"],
        b"",
        b"",
        [b"", b""],
        0,
        FIRST_MESSAGE,
        [0, 2, 1, 0, 0],
    ),
    (
        &["make", "1"],
        b"",
        b"",
        [b"", b""],
        0,
        "rounds 1\nrx E 8 H 8\nreports 0\nstored 0\ngone 0\nstarts 2\n",
        [0, 0, 1, 0, 0],
    ),
    (
        &["format", "SPOOL", "3"],
        b"",
        b"",
        [b"", b""],
        AREA,
        "formatted slots=3 bytes=540672\n",
        [0, 0, 1, 38, 0],
    ),
    (
        &["spool", "SPOOL"],
        b"",
        b"",
        [FRONT, FOURTH],
        0,
        "spool slots=3 mark=0 len=1\n4 S6F11 W 0100\n",
        [0, 0, 1, 7, 0],
    ),
    (
        EQUIPMENT,
        ONE_TRY,
        STORES,
        [FRONT, b""],
        0,
        STORED,
        [2, 1, 5, 20, 5],
    ),
    (
        &["host", "plan", "address"],
        b"",
        b"10001 send S1F1 W -\n",
        [b"", b""],
        0,
        ASKED,
        [2, 1, 3, 0, 5],
    ),
];

/// The number of the call that fails, where it is one of these.
fn fails_of(call: (Outside, u32), of: Outside) -> u32 {
    if call.0 == of { call.1 } else { 0 }
}

/// A link over which nothing comes until it is closed, and of which the call of this number fails.
fn silent_link(alloc: Global, fails: u32) -> Result<MemLink, NoMemory> {
    let answers = Row::of(alloc, &[LinkIn::Quiet(10_000), LinkIn::Quiet(10_001)])?;
    MemLink::failing(alloc, answers, 100, Row::of(alloc, &[fails])?)
}

/// The status of a run of which this call fails, its output and its errors.
fn ended(alloc: Global, run: &Run, call: (Outside, u32)) -> Option<(u8, TestOutput, TestOutput)> {
    let (words, plan, given, file, area, _, _) = *run;
    let words = words_of(alloc, words).ok()?;
    let mut disk = disk_with(alloc, &file, area)?;
    disk.fail_at(fails_of(call, Outside::Disk));
    let mut link = silent_link(alloc, fails_of(call, Outside::Link)).ok()?;
    let mut files = TestFiles {
        plan,
        schedule: b"settle",
        fails: fails_of(call, Outside::Files),
    };
    let mut input = TestInput {
        left: given,
        step: 65536,
        fails: fails_of(call, Outside::Input),
    };
    let mut out = output(alloc, 2000, fails_of(call, Outside::Output));
    let mut err = output(alloc, 100, 0);
    let status = gemline(
        alloc, &words, &mut files, &mut input, &mut out, &mut err, &mut disk, &mut link,
    );
    Some((status, out, err))
}

/// The status where a call of this fails, and what the line on the errors begins with.
fn told_of(of: Outside) -> (u8, &'static str) {
    match of {
        Outside::Input => (68, "gemline: 68 read\n"),
        Outside::Files => (66, "gemline: 66 file "),
        Outside::Output => (73, "gemline: 73 write\n"),
        Outside::Disk => (74, "gemline: 74 disk\n"),
        Outside::Link => (69, "gemline: 69 link\n"),
    }
}

/// How many of these calls fail so, one in a run, until a run is whole. None where one ends otherwise.
fn failing(alloc: Global, run: &Run, of: Outside) -> Option<u32> {
    let (wanted, line) = told_of(of);
    let whole = run.5.as_bytes();
    for failed in 0..100_u32 {
        let (status, out, err) = ended(alloc, run, (of, failed.saturating_add(1)))?;
        let out = out.bytes.as_slice();
        if status == 0 {
            return if out == whole { Some(failed) } else { None };
        }
        let is_told = status == wanted && err.bytes.as_slice().starts_with(line.as_bytes());
        if !is_told || !whole.starts_with(out) {
            return None;
        }
    }
    None
}

#[test]
fn each_call_fails_alone(rt: HostRuntime) -> Result<(), Fail> {
    let alloc = rt.alloc();
    for run in &RUNS {
        for (of, calls) in ALL.iter().zip(&run.6) {
            let failed = failing(alloc, run, *of);
            assert!(rt; failed == Some(*calls), "{:?} {of:?} {failed:?}", run.0);
        }
    }
    Ok(())
}
