//! `format`, `spool` and `drop` over a disk in memory.

use crate::played_program::{AREA, End, FOURTH, FRONT, disk_ends_so, disk_with, words_of};
use std::alloc::Global;
use std::test::Fail;

/// Words, the first bytes of a file of three slots and of its slot 1, which call of the disk and of the output fails,
/// and the end.
type Spooling = (
    &'static [&'static str],
    [&'static [u8]; 2],
    u32,
    u32,
    End<'static>,
);

/// `format`, `spool` and `drop`.
static SPOOLS: [Spooling; 13] = [
    (
        &["format", "SPOOL", "0000000003"],
        [b"", b""],
        0,
        0,
        (0, "formatted slots=3 bytes=540672\n", ""),
    ),
    (
        &["format", "SPOOL", "3"],
        [FRONT, FOURTH],
        1,
        1,
        (74, "", "gemline: 74 disk\n"),
    ),
    (
        &["format", "SPOOL", "3"],
        [FRONT, FOURTH],
        0,
        1,
        (73, "", "gemline: 73 write\n"),
    ),
    (
        &["spool", "SPOOL"],
        [FRONT, b""],
        0,
        0,
        (0, "spool slots=3 mark=0 len=0\n", ""),
    ),
    (
        &["spool", "SPOOL"],
        [FRONT, FOURTH],
        0,
        0,
        (0, "spool slots=3 mark=0 len=1\n4 S6F11 W 0100\n", ""),
    ),
    (
        &["spool", "SPOOL"],
        [b"GLSPX", FOURTH],
        0,
        0,
        (78, "", "gemline: 78 not a spool at 4\n"),
    ),
    (
        &["spool", "SPOOL"],
        [FRONT, FOURTH],
        1,
        1,
        (74, "", "gemline: 74 disk\n"),
    ),
    (
        &["spool", "SPOOL"],
        [FRONT, FOURTH],
        0,
        1,
        (73, "", "gemline: 73 write\n"),
    ),
    (
        &["drop", "SPOOL", "5"],
        [FRONT, FOURTH],
        0,
        0,
        (0, "dropped 1\n", ""),
    ),
    (
        &["drop", "SPOOL", "1"],
        [FRONT, b""],
        0,
        0,
        (0, "dropped 0\n", ""),
    ),
    (
        &["drop", "SPOOL", "1"],
        [b"GLSPX", FOURTH],
        0,
        0,
        (78, "", "gemline: 78 not a spool at 4\n"),
    ),
    (
        &["drop", "SPOOL", "1"],
        [FRONT, FOURTH],
        1,
        1,
        (74, "", "gemline: 74 disk\n"),
    ),
    (
        &["drop", "SPOOL", "1"],
        [FRONT, FOURTH],
        0,
        1,
        (73, "", "gemline: 73 write\n"),
    ),
];

/// Whether words over a disk end so.
fn is_spooling(alloc: Global, case: &Spooling) -> bool {
    let (words, bytes, call, write, end) = *case;
    let (Ok(words), Some(mut disk)) = (words_of(alloc, words), disk_with(alloc, &bytes, AREA))
    else {
        return false;
    };
    disk.fail_at(call);
    disk_ends_so(alloc, &words, write, &mut disk, &end)
}

#[test]
fn spool_files_are_made_listed_and_emptied(rt: HostRuntime) -> Result<(), Fail> {
    for case in &SPOOLS {
        assert!(rt; is_spooling(rt.alloc(), case));
    }
    Ok(())
}
