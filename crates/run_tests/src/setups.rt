//! What a tool keeps of its setup over its starts: in a world, and over a disk that outlives the program.

use crate::crowded_tool::{ESTABLISHED, Peer, Sent, push};
use crate::played_program::{
    AREA, FRONT, TestFiles, TestInput, TestOutput, disk_ends_so, disk_with, ends_over, no_link,
    output, words_of,
};
use crate::tool_runs::EQUIPMENT;
use disk_base::{Disk, MemDisk, settle};
use gemline_app::gemline;
use gl_base::{Connections, NoMemory, Row};
use std::alloc::Global;
use std::test::Fail;

/// A tool with variable 1, constant 100, events 1 and 2, and alarms 7 and 8.
const PLAN: &[u8] =
    b"[[variable]]\nvid = 1\nvalue = \"<U4 0>\"\n[[constant]]\necid = 100\nvalue = 5\n\
    [[event]]\nceid = 1\n[[event]]\nceid = 2\n[[alarm]]\nalid = 7\n[[alarm]]\nalid = 8\n";

/// A tool without data.
const OTHER: &[u8] = b"";

/// S2F15: constant 100; and constants 100 and 4.
const CONSTANT: Sent = (
    2,
    true,
    15,
    true,
    1,
    &[0x01, 0x01, 0x01, 0x02, 0xA5, 0x01, 0x64, 0xA5, 0x01, 0x07],
);

const CONSTANTS: Sent = (
    2,
    true,
    15,
    true,
    2,
    &[
        0x01, 0x02, 0x01, 0x02, 0xA5, 0x01, 0x64, 0xA5, 0x01, 0x08, 0x01, 0x02, 0xA5, 0x01, 0x04,
        0xA5, 0x01, 0x01,
    ],
);

/// S2F33: reports 10 and 11 of variable 1; and all reports deleted.
const TEN: &[u8] = &[
    0x01, 0x02, 0xA5, 0x01, 0x01, 0x01, 0x01, 0x01, 0x02, 0xA5, 0x01, 0x0A, 0x01, 0x01, 0xA5, 0x01,
    0x01,
];

const REPORT: Sent = (2, true, 33, true, 3, TEN);

const OTHER_REPORT: Sent = (
    2,
    true,
    33,
    true,
    4,
    &[
        0x01, 0x02, 0xA5, 0x01, 0x01, 0x01, 0x01, 0x01, 0x02, 0xA5, 0x01, 0x0B, 0x01, 0x01, 0xA5,
        0x01, 0x01,
    ],
);

const NO_REPORTS: Sent = (
    2,
    true,
    33,
    true,
    5,
    &[0x01, 0x02, 0xA5, 0x01, 0x01, 0x01, 0x00],
);

/// S2F35: report 10 is linked to event 1.
const TO_ONE: &[u8] = &[
    0x01, 0x02, 0xA5, 0x01, 0x01, 0x01, 0x01, 0x01, 0x02, 0xA5, 0x01, 0x01, 0x01, 0x01, 0xA5, 0x01,
    0x0A,
];

const LINK: Sent = (2, true, 35, true, 6, TO_ONE);

/// S2F37: event 1 is enabled; events 2 and 1; all.
const EVENT: Sent = (
    2,
    true,
    37,
    true,
    7,
    &[0x01, 0x02, 0x25, 0x01, 0x01, 0x01, 0x01, 0xA5, 0x01, 0x01],
);

const EVENTS: Sent = (
    2,
    true,
    37,
    true,
    8,
    &[
        0x01, 0x02, 0x25, 0x01, 0x01, 0x01, 0x02, 0xA5, 0x01, 0x02, 0xA5, 0x01, 0x01,
    ],
);

const ALL_EVENTS: Sent = (
    2,
    true,
    37,
    true,
    9,
    &[0x01, 0x02, 0x25, 0x01, 0x01, 0x01, 0x00],
);

/// S2F43: reports alone are spooled; nothing is.
const RULE: Sent = (
    2,
    true,
    43,
    true,
    10,
    &[
        0x01, 0x01, 0x01, 0x02, 0xA5, 0x01, 0x06, 0x01, 0x01, 0xA5, 0x01, 0x0B,
    ],
);

const NO_RULE: Sent = (2, true, 43, true, 11, &[0x01, 0x00]);

/// S5F3: alarm 7 is disabled, alarm 8 is, and alarm 7 is enabled; all are.
const ALARM: Sent = (
    5,
    true,
    3,
    true,
    12,
    &[0x01, 0x02, 0x21, 0x01, 0x00, 0xA5, 0x01, 0x07],
);

const OTHER_ALARM: Sent = (
    5,
    true,
    3,
    true,
    13,
    &[0x01, 0x02, 0x21, 0x01, 0x00, 0xA5, 0x01, 0x08],
);

const ALARM_AGAIN: Sent = (
    5,
    true,
    3,
    true,
    14,
    &[0x01, 0x02, 0x21, 0x01, 0x80, 0xA5, 0x01, 0x07],
);

const ALL_ALARMS: Sent = (
    5,
    true,
    3,
    true,
    15,
    &[0x01, 0x02, 0x21, 0x01, 0x80, 0xA5, 0x00],
);

/// Requests of a host, what the next start says of them where the tool has no data, and what the start behind that one
/// says where it has again what they name.
type Course = (&'static [Sent], &'static str, &'static str);

const ONE: &str = "0 E setup 1\n";

const TWO: &str = "0 E setup 2\n";

const ONE_REFUSED: &str = "0 E setup 1\n0 E refused\n";

const TWO_REFUSED: &str = "0 E setup 2\n0 E refused\n0 E refused\n";

static COURSES: [Course; 16] = [
    (&[], "", ""),
    (&[CONSTANT], ONE_REFUSED, ONE),
    (&[CONSTANT, CONSTANTS], ONE_REFUSED, ONE),
    (&[CONSTANTS, CONSTANT], TWO_REFUSED, TWO),
    (&[REPORT], ONE_REFUSED, ONE),
    (&[REPORT, NO_REPORTS], "", ""),
    (&[REPORT, NO_REPORTS, OTHER_REPORT], ONE_REFUSED, ONE),
    (&[REPORT, LINK], TWO_REFUSED, TWO),
    (&[REPORT, LINK, NO_REPORTS], "", ""),
    (&[EVENT, EVENTS], ONE_REFUSED, ONE),
    (&[EVENT, ALL_EVENTS], ONE, ONE),
    (&[RULE, NO_RULE], ONE, ONE),
    (&[OTHER_ALARM, ALARM, ALARM_AGAIN], TWO_REFUSED, TWO),
    (&[ALARM, OTHER_ALARM, ALL_ALARMS], ONE, ONE),
    // Without W.
    (
        &[
            (2, false, 33, true, 16, TEN),
            (2, false, 35, true, 17, TO_ONE),
        ],
        TWO_REFUSED,
        TWO,
    ),
    // What is refused: a link of a report that isn't there.
    (&[LINK], "", ""),
];

/// What the host sends: it answers the tool's S1F13, sends these, and takes the answers of those with W.
fn characters(alloc: Global, requests: &[Sent]) -> Result<Row<u8>, NoMemory> {
    let mut characters = Row::of(alloc, &[4, 6])?;
    push(&mut characters, &ESTABLISHED)?;
    for request in requests {
        push(&mut characters, request)?;
        if request.1 {
            characters.extend(&[4, 6])?;
        }
    }
    Ok(characters)
}

/// What a run of the tool with this plan over a disk writes, whose host sends this; `None` where it ends otherwise.
fn told(alloc: Global, plan: &[u8], disk: &mut MemDisk, requests: &[Sent]) -> Option<TestOutput> {
    let words = words_of(alloc, EQUIPMENT).ok()?;
    let characters = characters(alloc, requests).ok()?;
    let mut peer = Peer {
        left: characters.as_slice(),
        connections: Connections::none(),
    };
    let mut files = TestFiles {
        plan,
        schedule: b"",
        fails: 0,
    };
    let mut input = TestInput {
        left: b"",
        step: 1,
        fails: 0,
    };
    let mut out = output(alloc, 2000, 0);
    let mut err = output(alloc, 100, 0);
    let status = gemline(
        alloc, &words, &mut files, &mut input, &mut out, &mut err, disk, &mut peer,
    );
    if status == 0 { Some(out) } else { None }
}

/// Whether a start of the tool says this.
fn starts_so(alloc: Global, plan: &[u8], disk: &mut MemDisk, base: &str, setup: &str) -> bool {
    let Ok(mut wanted) = Row::of(alloc, b"0 E start len=0 base=") else {
        return false;
    };
    for text in &[base, "\n", setup, "0 E comms WAIT-CRA\n"] {
        if wanted.extend(text.as_bytes()).is_err() {
            return false;
        }
    }
    match told(alloc, plan, disk, &[]) {
        Some(out) => out.bytes.as_slice().starts_with(wanted.as_slice()),
        None => false,
    }
}

/// Whether a course goes so over a disk.
fn goes_over(alloc: Global, disk: &mut MemDisk, course: &Course) -> bool {
    told(alloc, PLAN, disk, course.0).is_some()
        && starts_so(alloc, OTHER, disk, "4096", course.1)
        && starts_so(alloc, PLAN, disk, "8192", course.2)
}

fn goes(alloc: Global, course: &Course, area: u64) -> bool {
    match disk_with(alloc, &[FRONT, b""], area) {
        Some(mut disk) => goes_over(alloc, &mut disk, course),
        None => false,
    }
}

#[test]
fn each_request_of_a_setup_is_kept(rt: HostRuntime) -> Result<(), Fail> {
    let mut number = 0_u32;
    for course in &COURSES {
        number = number.saturating_add(1);
        assert!(rt; goes(rt.alloc(), course, AREA), "course {number}");
    }
    Ok(())
}

#[test]
fn a_file_without_an_area_keeps_none(rt: HostRuntime) -> Result<(), Fail> {
    for requests in &[[REPORT, LINK], [RULE, ALL_ALARMS]] {
        let mut disk = disk_with(rt.alloc(), &[FRONT, b""], 0).ok_or("memory")?;
        assert!(rt; told(rt.alloc(), PLAN, &mut disk, requests).is_some());
        assert!(rt; starts_so(rt.alloc(), PLAN, &mut disk, "4096", ""));
    }
    Ok(())
}

/// The cell of a setup, the first bytes of the area, and where the setup breaks.
type Broken = (&'static [u8], &'static [u8], &'static str);

/// The cell names a third copy, in its first copy and in its second one; a byte more than a copy has; two bytes that
/// are none, and two that are no whole entry; and three, of which the second one is no function.
static BROKEN: [Broken; 6] = [
    (
        &[0, 0, 0, 2, 0, 0, 0, 0],
        b"",
        "gemline: 78 not a spool at 47\n",
    ),
    (
        &[0, 0, 0, 0, 0, 0, 0, 0, 0, 0, 0, 2, 0, 0, 0, 0, 1],
        b"",
        "gemline: 78 not a spool at 55\n",
    ),
    (
        &[0, 0, 0, 0, 0, 4, 0, 1],
        b"",
        "gemline: 78 not a spool at 47\n",
    ),
    (
        &[0, 0, 0, 0, 0, 0, 0, 2],
        b"",
        "gemline: 78 not a spool at 16384\n",
    ),
    (
        &[0, 0, 0, 0, 0, 0, 0, 2],
        &[2, 37],
        "gemline: 78 not a spool at 16386\n",
    ),
    (
        &[0, 0, 0, 0, 0, 0, 0, 3],
        &[2, 36, 0],
        "gemline: 78 not a spool at 16385\n",
    ),
];

/// A disk of three slots with this cell of a setup, and these bytes of the area.
fn with_area(alloc: Global, cell: &[u8], area: &[u8]) -> Option<MemDisk> {
    let mut disk = disk_with(alloc, &[FRONT, b""], AREA)?;
    if disk.size() < 20_480 || cell.len() > 17 || area.len() > 4_096 {
        return None;
    }
    let _ = settle(&mut disk, 47, cell);
    let _ = settle(&mut disk, 16_384, area);
    Some(disk)
}

/// Whether the tool refuses such a file, and `spool` lists it.
fn is_broken(alloc: Global, broken: &Broken) -> bool {
    let (cell, area, line) = *broken;
    match (
        with_area(alloc, cell, area),
        words_of(alloc, EQUIPMENT),
        words_of(alloc, &["spool", "SPOOL"]),
    ) {
        (Some(mut disk), Ok(tool), Ok(list)) => {
            refuses(alloc, &tool, &mut disk, line)
                && disk_ends_so(
                    alloc,
                    &list,
                    0,
                    &mut disk,
                    &(0, "spool slots=3 mark=0 len=0\n", ""),
                )
        }
        _ => false,
    }
}

fn refuses(alloc: Global, words: &[String], disk: &mut MemDisk, line: &'static str) -> bool {
    let mut files = TestFiles {
        plan: PLAN,
        schedule: b"",
        fails: 0,
    };
    let mut input = TestInput {
        left: b"",
        step: 1,
        fails: 0,
    };
    ends_over(
        alloc,
        words,
        &mut files,
        &mut input,
        &mut output(alloc, 2000, 0),
        disk,
        &mut no_link(),
        &(78, "", line),
    )
}

#[test]
fn a_broken_setup_is_refused_at_its_place(rt: HostRuntime) -> Result<(), Fail> {
    let mut number = 0_u32;
    for broken in &BROKEN {
        number = number.saturating_add(1);
        assert!(rt; is_broken(rt.alloc(), broken), "file {number}");
    }
    Ok(())
}
