//! Calls that fail, words that are no command's, and how outcomes are told.

use crate::played_program::{Failing, are_failing, are_refused, output};
use crate::replay_and_make::FIRST_MESSAGE;
use crate::show_and_spell::{S1F1, S1F1_LINES};
use gemline_app::{Outcome, report};
use std::alloc::Global;
use std::test::Fail;

/// Calls that fail, and some that are not made.
static FAILURES: [Failing; 6] = [
    (&["show"], &S1F1, [1, 0, 1], (68, "", "gemline: 68 read\n")),
    (&["show"], &S1F1, [2, 0, 1], (68, "", "gemline: 68 read\n")),
    (&["show"], &S1F1, [3, 1, 1], (73, "", "gemline: 73 write\n")),
    (&["show"], &S1F1, [3, 1, 2], (0, S1F1_LINES, "")),
    (
        &["spell"],
        b"<U4 5>",
        [0, 0, 1],
        (73, "", "gemline: 73 write\n"),
    ),
    (
        &["spell", "--hex"],
        b"B10400000005",
        [0, 0, 1],
        (73, "", "gemline: 73 write\n"),
    ),
];

/// The same of files.
static FILE_FAILURES: [Failing; 6] = [
    (
        &["replay", "plan", "schedule"],
        b"",
        [1, 1, 1],
        (66, "", "gemline: 66 file plan\n"),
    ),
    (
        &["replay", "plan", "schedule"],
        b"",
        [1, 2, 1],
        (66, "", "gemline: 66 file schedule\n"),
    ),
    (
        &["replay", "plan", "schedule"],
        b"",
        [1, 3, 1],
        (73, "", "gemline: 73 write\n"),
    ),
    (
        &["replay", "plan", "schedule"],
        b"",
        [1, 3, 0],
        (0, FIRST_MESSAGE, ""),
    ),
    (
        &["replay", "plan", "other"],
        b"",
        [1, 0, 1],
        (66, "", "gemline: 66 file other\n"),
    ),
    (
        &["replay", "other", "schedule"],
        b"",
        [1, 0, 1],
        (66, "", "gemline: 66 file other\n"),
    ),
];

/// Words that are no command's.
static OTHER_WORDS: [&'static [&'static str]; 16] = [
    &[],
    &[""],
    &["shwo"],
    &["--help"],
    &["show", "show"],
    &["show", ""],
    &["show", "--version"],
    &["replay", "--help", "schedule"],
    &["spell", "hex"],
    &["spell", "--hex", "--hex"],
    &["replay", "plan"],
    &["replay", "plan", "schedule", "schedule"],
    &["host", "plan"],
    &["host", "plan", "address", "spool"],
    &["host", "plan", "address", "--polls=0"],
    &["host", "plan", "address", "--polls"],
];

/// The same of spool files and journals.
static SPOOL_WORDS: [&'static [&'static str]; 13] = [
    &["spool"],
    &["spool", "SPOOL", "SPOOL"],
    &["format", "SPOOL"],
    &["format", "SPOOL", "0"],
    &["format", "SPOOL", "65536"],
    &["format", "SPOOL", "00000000003"],
    &["format", "SPOOL", "+3"],
    &["drop", "SPOOL"],
    &["drop", "SPOOL", "0"],
    &["drop", "SPOOL", "65536"],
    &["spool", "SPOOL", "--journal=f"],
    &["replay", "plan", "schedule", "--journal=0"],
    &["replay", "plan", "schedule", "--journal=1025"],
];

#[test]
fn faults_and_other_words_are_told(rt: HostRuntime) -> Result<(), Fail> {
    let alloc = rt.alloc();
    assert!(rt; are_failing(alloc, &FAILURES));
    assert!(rt; are_failing(alloc, &FILE_FAILURES));
    assert!(rt; are_refused(alloc, &OTHER_WORDS));
    assert!(rt; are_refused(alloc, &SPOOL_WORDS));
    Ok(())
}

/// Whether an outcome is told with this status and this line.
fn is_reported(alloc: Global, outcome: Outcome, status: u8, line: &str) -> bool {
    let mut err = output(alloc, 100, 0);
    report(&outcome, None, &mut err) == status && err.bytes.as_slice() == line.as_bytes()
}

/// Whether what no test's run comes to is told so.
fn are_reported(alloc: Global) -> bool {
    is_reported(alloc, Outcome::Done, 0, "")
        && is_reported(alloc, Outcome::NoMemory, 71, "gemline: 71 memory\n")
        && is_reported(alloc, Outcome::TurnsSpent, 75, "gemline: 75 turns\n")
        && is_reported(alloc, Outcome::Slip, 76, "gemline: 76 slip\n")
        && is_reported(alloc, Outcome::NumbersSpent, 77, "gemline: 77 numbers\n")
        && is_reported(
            alloc,
            Outcome::JournalFull,
            80,
            "gemline: 80 journal full\n",
        )
}

#[test]
fn reports_outcomes(rt: HostRuntime) -> Result<(), Fail> {
    assert!(rt; are_reported(rt.alloc()));
    Ok(())
}
