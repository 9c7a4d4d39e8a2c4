//! `equipment` over a link and a disk that a test plays.

ghost use Rattle.gl_base.specs.Events.{AreLinkEvents};

use crate::played_program::{
    End, FOURTH, FRONT, TestFiles, TestInput, disk_ends_so, disk_with, ends_over, output, words_of,
};
use disk_base::MemDisk;
use gl_base::{LinkIn, MemLink, NoMemory, Row};
use std::alloc::Global;
use std::test::Fail;

/// Words of `equipment` behind the plan, the first bytes of a file of three slots and of slot 1, a script, which call
/// of the disk, of the output and of the link fails, and the end.
type ToolCase = (
    &'static [&'static str],
    [&'static [u8]; 2],
    &'static [u8],
    [u32; 3],
    End<'static>,
);

pub(crate) const EQUIPMENT: &[&str] = &["equipment", "plan", "address", "SPOOL"];

const STARTED: &str = "0 E start len=0 base=0\n";

/// What is written until the link is waited for.
const CALLING: &str = "0 E start len=0 base=0\n0 E comms WAIT-CRA\n\
    0 E sent S1F13 W 00000000 0102410747454D4C494E45410131\n0 E tx 05\n";

const CALLED_AND_CLOSED: &str = "0 E start len=0 base=0\n0 E comms WAIT-CRA\n\
    0 E sent S1F13 W 00000000 0102410747454D4C494E45410131\n0 E tx 05\n0 E closed\n";

/// The front of a file of three slots that has no system bytes left.
const MARKED_OUT: &[u8] = b"GLSPOOL1\0\0\0\x03\0\0\0\x01\0\0\0\0";

/// Over a link that the peer has closed.
static TOOL_RUNS: [ToolCase; 8] = [
    (
        EQUIPMENT,
        [FRONT, b""],
        b"",
        [0, 0, 0],
        (0, CALLED_AND_CLOSED, ""),
    ),
    (
        EQUIPMENT,
        [FRONT, FOURTH],
        b"",
        [0, 0, 1],
        (69, "0 E start len=1 base=0\n", "gemline: 69 link\n"),
    ),
    (
        EQUIPMENT,
        [FRONT, b""],
        b"",
        [0, 0, 2],
        (69, CALLING, "gemline: 69 link\n"),
    ),
    (
        EQUIPMENT,
        [FRONT, b""],
        b"",
        [0, 0, 3],
        (69, CALLING, "gemline: 69 link\n"),
    ),
    (
        EQUIPMENT,
        [FRONT, b""],
        b"",
        [0, 1, 1],
        (73, "", "gemline: 73 write\n"),
    ),
    (
        EQUIPMENT,
        [FRONT, b""],
        b"",
        [0, 2, 0],
        (73, STARTED, "gemline: 73 write\n"),
    ),
    (
        EQUIPMENT,
        [FRONT, b""],
        b"1 send S1F1 W -",
        [1, 1, 1],
        (65, "", "gemline: 65 script line 1\n"),
    ),
    (
        EQUIPMENT,
        [MARKED_OUT, b""],
        b"",
        [0, 1, 1],
        (77, "", "gemline: 77 numbers\n"),
    ),
];

/// The disk doesn't take the file, or fails in the start; or the file is none, or the plan isn't there.
static NOT_STARTED: [ToolCase; 5] = [
    (
        EQUIPMENT,
        [FRONT, b""],
        b"",
        [1, 1, 1],
        (74, "", "gemline: 74 disk\n"),
    ),
    (
        EQUIPMENT,
        [FRONT, b""],
        b"",
        [2, 1, 1],
        (74, "", "gemline: 74 disk\n"),
    ),
    (
        EQUIPMENT,
        [FRONT, b""],
        b"",
        [9, 1, 1],
        (74, "", "gemline: 74 disk\n"),
    ),
    (
        EQUIPMENT,
        [b"GLSPX", b""],
        b"",
        [0, 1, 1],
        (78, "", "gemline: 78 not a spool at 4\n"),
    ),
    (
        &["equipment", "other", "address", "SPOOL"],
        [FRONT, b""],
        b"",
        [1, 1, 1],
        (66, "", "gemline: 66 file other\n"),
    ),
];

/// After a quiet time up to 10 the peer closes the link.
static QUIET_TOOL_RUNS: [ToolCase; 2] = [
    (
        &["equipment", "plan", "address", "SPOOL", "--polls=1"],
        [FRONT, b""],
        b"",
        [0, 0, 0],
        (75, CALLING, "gemline: 75 turns\n"),
    ),
    (
        EQUIPMENT,
        [FRONT, b""],
        b"5 stop\n",
        [0, 0, 0],
        (0, CALLING, ""),
    ),
];

/// Whether the equipment over a link with these answers ends so.
fn runs_tool(alloc: Global, answers: Row<LinkIn>, case: &ToolCase) -> bool
    requires { AreLinkEvents answers }
{
    match Row::of(alloc, &[case.3[2]]) {
        Ok(fails) => match MemLink::failing(alloc, answers, 100, fails) {
            Ok(mut link) => runs_tool_over(alloc, &mut link, case),
            Err(NoMemory) => false,
        },
        Err(NoMemory) => false,
    }
}

fn runs_tool_over(alloc: Global, link: &mut MemLink, case: &ToolCase) -> bool {
    match (words_of(alloc, case.0), disk_with(alloc, &case.1, 0)) {
        (Ok(words), Some(mut disk)) => {
            let (_, _, script, [call, write, _], end) = *case;
            disk.fail_at(call);
            tool_ends_so(alloc, &words, b"", script, write, &mut disk, link, &end)
        }
        _ => false,
    }
}

/// Whether these words over a plan, a script, a disk and a link end so, if the write of this number fails.
pub(crate) fn tool_ends_so(
    alloc: Global,
    words: &[String],
    plan: &[u8],
    script: &[u8],
    write: u32,
    disk: &mut MemDisk,
    link: &mut MemLink,
    end: &End,
) -> bool {
    ends_over(
        alloc,
        words,
        &mut TestFiles {
            plan,
            schedule: b"",
            fails: 0,
        },
        &mut TestInput {
            left: script,
            step: 65536,
            fails: 0,
        },
        &mut output(alloc, 2000, write),
        disk,
        link,
        end,
    )
}

fn runs_tool_quietly(alloc: Global, case: &ToolCase) -> bool {
    match Row::of(alloc, &[LinkIn::Quiet(10)]) {
        Ok(answers) => runs_tool(alloc, answers, case),
        Err(NoMemory) => false,
    }
}

#[test]
fn equipments_end_by_their_causes(rt: HostRuntime) -> Result<(), Fail> {
    for case in &TOOL_RUNS {
        assert!(rt; runs_tool(rt.alloc(), Row::new(rt.alloc()), case));
    }
    for case in &NOT_STARTED {
        assert!(rt; runs_tool(rt.alloc(), Row::new(rt.alloc()), case));
    }
    for case in &QUIET_TOOL_RUNS {
        assert!(rt; runs_tool_quietly(rt.alloc(), case));
    }
    Ok(())
}

/// The same, behind the frame of the equipment.
static TOOL_LEFT: ToolCase = (EQUIPMENT, [FRONT, b""], b"", [0, 0, 0], (0, LEFT, ""));

const LEFT: &str = "0 E start len=0 base=0\n0 E comms WAIT-CRA\n\
    0 E sent S1F13 W 00000000 0102410747454D4C494E45410131\n0 E tx 05\n\
    0 E tx 188000810D8001000000000102410747454D4C494E45410131044E\n1 E tx 04\n3 E closed\n";

fn is_tool_left(alloc: Global) -> bool {
    match Row::of(
        alloc,
        &[
            LinkIn::Char(4, 0),
            LinkIn::Char(6, 1),
            LinkIn::Char(5, 1),
            LinkIn::Char(17, 2),
            LinkIn::Char(0, 2),
            LinkIn::Char(0, 3),
        ],
    ) {
        Ok(answers) => runs_tool(alloc, answers, &TOOL_LEFT),
        Err(NoMemory) => false,
    }
}

#[test]
fn the_peer_closes_in_the_middle_of_a_frame(rt: HostRuntime) -> Result<(), Fail> {
    assert!(rt; is_tool_left(rt.alloc()));
    Ok(())
}

/// Which call of the disk fails, how the equipment ends, and what `spool` writes of its file then.
type Storing = (u32, End<'static>, &'static str);

/// Without a second try, so that T2 makes the spool active.
pub(crate) const ONE_TRY: &[u8] = b"[line]\nrty = 0";

pub(crate) const STORES: &[u8] = b"10001 terminal 0 <A \"x\">";

pub(crate) const STORED: &str = "0 E start len=0 base=0\n0 E comms WAIT-CRA\n\
    0 E sent S1F13 W 00000000 0102410747454D4C494E45410131\n0 E tx 05\n\
    10000 E failed S1F13 W 00000000\n10000 E comms WAIT-DELAY\n10000 E spool ACTIVE\n\
    10001 E storing 0 S10F1 W\n10001 E stored 0\n10001 E closed\n";

/// The same up to the call that failed.
const STORING: &str = "0 E start len=0 base=0\n0 E comms WAIT-CRA\n\
    0 E sent S1F13 W 00000000 0102410747454D4C494E45410131\n0 E tx 05\n\
    10000 E failed S1F13 W 00000000\n10000 E comms WAIT-DELAY\n10000 E spool ACTIVE\n\
    10001 E storing 0 S10F1 W\n";

const NONE_LISTED: &str = "spool slots=3 mark=4096 len=0\n";

const ONE_LISTED: &str = "spool slots=3 mark=4096 len=1\n0 S10F1 W 0102210100410178\n";

/// A text of the terminal is stored, or the first or the last of the calls by which it is stored fails.
static STORINGS: [Storing; 3] = [
    (0, (0, STORED, ""), ONE_LISTED),
    (16, (74, STORING, "gemline: 74 disk\n"), NONE_LISTED),
    (20, (74, STORING, "gemline: 74 disk\n"), ONE_LISTED),
];

fn stores_so(alloc: Global, case: &Storing) -> bool {
    match (silent_link(alloc), disk_with(alloc, &[FRONT, b""], 0)) {
        (Ok(mut link), Some(mut disk)) => stores_over(alloc, &mut disk, &mut link, case),
        _ => false,
    }
}

/// A link over which nothing comes until it is closed.
fn silent_link(alloc: Global) -> Result<MemLink, NoMemory> {
    let answers = Row::of(alloc, &[LinkIn::Quiet(10_000), LinkIn::Quiet(10_001)])?;
    MemLink::new(alloc, answers, 100)
}

fn stores_over(alloc: Global, disk: &mut MemDisk, link: &mut MemLink, case: &Storing) -> bool {
    let (call, end, list) = *case;
    disk.fail_at(call);
    match words_of(alloc, EQUIPMENT) {
        Ok(words) => {
            tool_ends_so(alloc, &words, ONE_TRY, STORES, 0, disk, link, &end)
                && lists_so(alloc, disk, list)
        }
        Err(NoMemory) => false,
    }
}

/// Whether `spool` over a disk that works writes this.
fn lists_so(alloc: Global, disk: &mut MemDisk, list: &'static str) -> bool {
    disk.fail_at(0);
    match words_of(alloc, &["spool", "SPOOL"]) {
        Ok(words) => disk_ends_so(alloc, &words, 0, disk, &(0, list, "")),
        Err(NoMemory) => false,
    }
}

#[test]
fn disks_fail_as_a_message_is_stored(rt: HostRuntime) -> Result<(), Fail> {
    for case in &STORINGS {
        assert!(rt; stores_so(rt.alloc(), case));
    }
    Ok(())
}
