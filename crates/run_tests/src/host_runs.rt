//! `host` over a link that a test plays.

ghost use Rattle.std.specs.Prelude.{IfOk};
ghost use Rattle.gl_base.specs.Events.{AreLinkEvents};

use crate::played_program::{
    Bytes, End, NoDisk, TestFiles, TestInput, ends_over, output, pieces_of, words_of,
};
use gl_base::{Link, LinkIn, MemLink, NoMemory, Row};
use std::alloc::Global;
use std::test::Fail;

/// Words behind `host`, a plan, a script, which call of the input, of the files, of the output and of the link
/// fails, and the end.
pub(crate) type Hosting = (
    &'static [&'static str],
    &'static [u8],
    Bytes,
    [u32; 4],
    End<'static>,
);

const HOST: &[&str] = &["host", "plan", "address"];

pub(crate) const NO_SCRIPT: Bytes = (b"", b"", 1, b"");

/// Over a link that the peer has closed.
static CLOSED: [Hosting; 11] = [
    (
        HOST,
        b"",
        NO_SCRIPT,
        [0, 0, 0, 0],
        (0, "0 H start\n0 H closed\n", ""),
    ),
    (
        HOST,
        b"",
        NO_SCRIPT,
        [0, 0, 0, 1],
        (69, "0 H start\n", "gemline: 69 link\n"),
    ),
    (
        HOST,
        b"",
        NO_SCRIPT,
        [0, 0, 0, 2],
        (69, "0 H start\n", "gemline: 69 link\n"),
    ),
    (
        HOST,
        b"",
        NO_SCRIPT,
        [0, 0, 1, 1],
        (73, "", "gemline: 73 write\n"),
    ),
    (
        HOST,
        b"",
        NO_SCRIPT,
        [0, 0, 2, 0],
        (73, "0 H start\n", "gemline: 73 write\n"),
    ),
    (
        HOST,
        b"",
        NO_SCRIPT,
        [1, 0, 1, 1],
        (68, "", "gemline: 68 read\n"),
    ),
    (
        HOST,
        b"",
        NO_SCRIPT,
        [1, 1, 1, 1],
        (66, "", "gemline: 66 file plan\n"),
    ),
    (
        &["host", "other", "address"],
        b"",
        NO_SCRIPT,
        [1, 0, 1, 1],
        (66, "", "gemline: 66 file other\n"),
    ),
    (
        HOST,
        b"[line]\nrty = 32",
        NO_SCRIPT,
        [1, 0, 1, 1],
        (65, "", "gemline: 65 plan line.rty Range\n"),
    ),
    (
        HOST,
        b"",
        (b"", b"1 event 1", 1, b""),
        [0, 0, 1, 1],
        (65, "", "gemline: 65 script line 1\n"),
    ),
    (
        HOST,
        b"",
        (b"", b"# a script line\n", 65_536, b"#"),
        [0, 0, 1, 1],
        (65, "", "gemline: 65 input longer\n"),
    ),
];

/// After a quiet time up to 10 the peer closes the link.
static QUIET: [Hosting; 6] = [
    (
        &["host", "plan", "address", "--polls=1"],
        b"",
        NO_SCRIPT,
        [0, 0, 0, 0],
        (75, "0 H start\n", "gemline: 75 turns\n"),
    ),
    (
        &["host", "plan", "address", "--polls=2"],
        b"",
        NO_SCRIPT,
        [0, 0, 0, 0],
        (0, "0 H start\n10 H closed\n", ""),
    ),
    (
        &["host", "plan", "address", "--polls=2"],
        b"",
        NO_SCRIPT,
        [0, 0, 0, 3],
        (69, "0 H start\n", "gemline: 69 link\n"),
    ),
    (
        &["host", "plan", "address", "--polls=1"],
        b"",
        (b"", b"5 stop\n", 1, b""),
        [0, 0, 0, 0],
        (0, "0 H start\n", ""),
    ),
    (
        HOST,
        b"",
        (b"", b"5 send S1F1 W -\n", 1, b""),
        [0, 0, 0, 0],
        (
            0,
            "0 H start\n10 H sent S1F1 W 00000000 -\n10 H tx 05\n10 H closed\n",
            "",
        ),
    ),
    (
        HOST,
        b"",
        (b"", b"5 send S1F1 W -\n", 1, b""),
        [0, 0, 0, 3],
        (
            69,
            "0 H start\n10 H sent S1F1 W 00000000 -\n10 H tx 05\n",
            "gemline: 69 link\n",
        ),
    ),
];

/// Whether the host over a link with these answers ends so.
fn is_hosting(alloc: Global, answers: Row<LinkIn>, case: &Hosting) -> bool
    requires { AreLinkEvents answers }
{
    match Row::of(alloc, &[case.3[3]]) {
        Ok(fails) => match MemLink::failing(alloc, answers, 300, fails) {
            Ok(mut link) => is_hosting_over(alloc, &mut link, case),
            Err(NoMemory) => false,
        },
        Err(NoMemory) => false,
    }
}

/// Whether the host over this link ends so.
pub(crate) fn is_hosting_over<L: Link>(alloc: Global, link: &mut L, case: &Hosting) -> bool {
    match (words_of(alloc, case.0), pieces_of(alloc, &case.2)) {
        (Ok(words), Ok(script)) => hosts_so(alloc, &words, script.as_slice(), link, case),
        _ => false,
    }
}

fn hosts_so<L: Link>(
    alloc: Global,
    words: &[String],
    script: &[u8],
    link: &mut L,
    case: &Hosting,
) -> bool {
    let (_, plan, _, [read, file, write, _], end) = *case;
    ends_over(
        alloc,
        words,
        &mut TestFiles {
            plan,
            schedule: b"",
            fails: file,
        },
        &mut TestInput {
            left: script,
            step: 65536,
            fails: read,
        },
        &mut output(alloc, 2000, write),
        &mut NoDisk,
        link,
        &end,
    )
}

fn hosts_quietly(alloc: Global, case: &Hosting) -> bool {
    match Row::of(alloc, &[LinkIn::Quiet(10)]) {
        Ok(answers) => is_hosting(alloc, answers, case),
        Err(NoMemory) => false,
    }
}

#[test]
fn hosts_end_by_their_causes(rt: HostRuntime) -> Result<(), Fail> {
    for case in &CLOSED {
        assert!(rt; is_hosting(rt.alloc(), Row::new(rt.alloc()), case));
    }
    for case in &QUIET {
        assert!(rt; hosts_quietly(rt.alloc(), case));
    }
    Ok(())
}

/// A peer that begins to send a frame, and closes the link.
static HOST_LEFT: Hosting = (
    HOST,
    b"",
    NO_SCRIPT,
    [0, 0, 0, 0],
    (0, "0 H start\n0 H tx 04\n2 H closed\n", ""),
);

fn is_host_left(alloc: Global) -> bool {
    match Row::of(
        alloc,
        &[
            LinkIn::Char(5, 0),
            LinkIn::Char(10, 1),
            LinkIn::Char(0, 1),
            LinkIn::Char(0, 2),
        ],
    ) {
        Ok(answers) => is_hosting(alloc, answers, &HOST_LEFT),
        Err(NoMemory) => false,
    }
}

#[test]
fn the_peer_closes_in_the_middle_of_a_frame(rt: HostRuntime) -> Result<(), Fail> {
    assert!(rt; is_host_left(rt.alloc()));
    Ok(())
}

/// A disabled host that is given each character once, all at moment 0: it answers ENQ, of which the sending may fail,
/// 06 is no length, and it waits the rest out.
static EACH_CHARACTER: [Hosting; 2] = [
    (
        HOST,
        b"[host]\nenable = false",
        NO_SCRIPT,
        [0, 0, 0, 0],
        (0, "0 H start\n0 H tx 04\n0 H closed\n", ""),
    ),
    (
        HOST,
        b"[host]\nenable = false",
        NO_SCRIPT,
        [0, 0, 0, 8],
        (69, "0 H start\n0 H tx 04\n", "gemline: 69 link\n"),
    ),
];

/// Each character once, at moment 0.
fn each_character(alloc: Global) -> Result<Row<LinkIn>, NoMemory>
    ensures { IfOk result (λ answers. AreLinkEvents answers) }
{
    let mut answers = Row::new(alloc);
    let mut byte: u8 = 0;
    'characters: for _ in 0..256 {
        answers.push(LinkIn::Char(byte, 0))?;
        byte = byte.wrapping_add(1);
    }
    Ok(answers)
}

fn hosts_each_character(alloc: Global, case: &Hosting) -> bool {
    match each_character(alloc) {
        Ok(answers) => is_hosting(alloc, answers, case),
        Err(NoMemory) => false,
    }
}

#[test]
fn a_disabled_host_waits_all_characters_out(rt: HostRuntime) -> Result<(), Fail> {
    for case in &EACH_CHARACTER {
        assert!(rt; hosts_each_character(rt.alloc(), case));
    }
    Ok(())
}
