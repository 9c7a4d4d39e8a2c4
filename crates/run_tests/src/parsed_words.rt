//! The words after the name of the program: which command they are, or why they are none.

use crate::played_program::words_of;
use command_words::{Command, WordsFault, command_of};
use std::alloc::Global;

/// Words, and what they are.
type Case = (
    &'static [&'static str],
    Result<Command<'static>, WordsFault>,
);

fn is_answered(alloc: Global, case: &Case) -> bool {
    match words_of(alloc, case.0) {
        Ok(words) => command_of(alloc, &words) == case.1,
        Err(_) => false,
    }
}

fn are_answered(alloc: Global, cases: &[Case]) -> bool {
    for case in cases {
        if !is_answered(alloc, case) {
            return false;
        }
    }
    true
}

const USAGE: Result<Command<'static>, WordsFault> = Err(WordsFault::Usage);

static TAKEN: [Case; 8] = [
    (&["show"], Ok(Command::Show)),
    (&["show", "--"], Ok(Command::Show)),
    (&["spell"], Ok(Command::Spell)),
    (&["spell", "--hex"], Ok(Command::SpellHex)),
    (
        &["replay", "a", "b"],
        Ok(Command::Replay {
            plan: "a",
            schedule: "b",
        }),
    ),
    (
        &["replay", "", ""],
        Ok(Command::Replay {
            plan: "",
            schedule: "",
        }),
    ),
    (
        &["replay", "-", "--", "-b"],
        Ok(Command::Replay {
            plan: "-",
            schedule: "-b",
        }),
    ),
    (&["spool", "f"], Ok(Command::Spool { spool: "f" })),
];

static FORMATS: [Case; 8] = [
    (
        &["format", "f", "1"],
        Ok(Command::Format {
            spool: "f",
            slots: 1,
        }),
    ),
    (
        &["format", "f", "65535"],
        Ok(Command::Format {
            spool: "f",
            slots: 65535,
        }),
    ),
    (
        &["format", "--", "--f", "0000065535"],
        Ok(Command::Format {
            spool: "--f",
            slots: 65535,
        }),
    ),
    (&["format", "f", "0"], USAGE),
    (&["format", "f", "65536"], USAGE),
    (&["format", "f", "00000065535"], USAGE),
    (&["format", "f", ""], USAGE),
    (&["format", "f", "+1"], USAGE),
];

static NO_NAMES: [Case; 8] = [
    (&[], USAGE),
    (&[""], USAGE),
    (&["shwo"], USAGE),
    (&["Show"], USAGE),
    (&["--", "show"], USAGE),
    (&["--help"], USAGE),
    (&["--version"], USAGE),
    (&["help", "show"], USAGE),
];

static OTHER_REFUSALS: [Case; 8] = [
    (&["show", "--help"], USAGE),
    (&["spell", "-h"], USAGE),
    (&["spool", "--version"], USAGE),
    (&["show", ""], USAGE),
    (&["spell", "--hex", "--hex"], USAGE),
    (&["spell", "--hex=true"], USAGE),
    (&["spell", "--", "--hex"], USAGE),
    (&["spell", "hex"], USAGE),
];

static WRONG_COUNTS: [Case; 8] = [
    (&["replay"], USAGE),
    (&["replay", "a"], USAGE),
    (&["replay", "a", "b", "c"], USAGE),
    (&["replay", "a", "-b"], USAGE),
    (&["format", "f"], USAGE),
    (&["format", "f", "1", "1"], USAGE),
    (&["spool"], USAGE),
    (&["spool", "f", "f"], USAGE),
];

static HOSTS: [Case; 5] = [
    (
        &["host", "p", "a"],
        Ok(Command::Host {
            plan: "p",
            address: "a",
            polls: 1_000_000,
        }),
    ),
    (
        &["host", "p", "a", "--polls", "5"],
        Ok(Command::Host {
            plan: "p",
            address: "a",
            polls: 5,
        }),
    ),
    (
        &["host", "--polls=05", "p", "a"],
        Ok(Command::Host {
            plan: "p",
            address: "a",
            polls: 5,
        }),
    ),
    (
        &["host", "--polls", "1", "--", "p", "a"],
        Ok(Command::Host {
            plan: "p",
            address: "a",
            polls: 1,
        }),
    ),
    (
        &["host", "p", "a", "--polls=4294967295"],
        Ok(Command::Host {
            plan: "p",
            address: "a",
            polls: u32::MAX,
        }),
    ),
];

static WRONG_HOSTS: [Case; 7] = [
    (&["host", "p", "a", "--polls", "0"], USAGE),
    (&["host", "p", "a", "--polls", "4294967296"], USAGE),
    (&["host", "p", "a", "--polls", "-1"], USAGE),
    (&["host", "p", "a", "--polls"], USAGE),
    (&["host", "p", "a", "--polls=5", "--polls=5"], USAGE),
    (&["host", "p", "--polls=5"], USAGE),
    (&["host", "p", "a", "s"], USAGE),
];

/// Words of `equipment`, taken and refused.
static EQUIPMENTS: [Case; 4] = [
    (
        &["equipment", "p", "a", "s"],
        Ok(Command::Equipment {
            plan: "p",
            address: "a",
            spool: "s",
            polls: 1_000_000,
        }),
    ),
    (
        &["equipment", "p", "a", "--polls", "5", "s"],
        Ok(Command::Equipment {
            plan: "p",
            address: "a",
            spool: "s",
            polls: 5,
        }),
    ),
    (&["equipment", "p", "a", "s", "--polls=0"], USAGE),
    (&["equipment", "p", "a", "s", "t"], USAGE),
];

/// Words of a journal, and of `drop`.
static JOURNALS: [Case; 8] = [
    (
        &["host", "p", "a", "--journal", "f"],
        Ok(Command::JournalHost {
            plan: "p",
            address: "a",
            journal: "f",
            polls: 1_000_000,
        }),
    ),
    (
        &["host", "--journal=--f", "--polls=5", "p", "a"],
        Ok(Command::JournalHost {
            plan: "p",
            address: "a",
            journal: "--f",
            polls: 5,
        }),
    ),
    (
        &["replay", "p", "s", "--journal=1024"],
        Ok(Command::JournalReplay {
            plan: "p",
            schedule: "s",
            slots: 1024,
        }),
    ),
    (
        &["drop", "f", "65535"],
        Ok(Command::Drop {
            spool: "f",
            count: 65535,
        }),
    ),
    (&["host", "p", "a", "--journal"], USAGE),
    (&["replay", "p", "s", "--journal=1025"], USAGE),
    (&["equipment", "p", "a", "s", "--journal=f"], USAGE),
    (&["drop", "f", "0"], USAGE),
];

static MAKES: [Case; 8] = [
    (&["make", "1"], Ok(Command::Make { rounds: 1 })),
    (
        &["make", "--", "0000010000"],
        Ok(Command::Make { rounds: 10_000 }),
    ),
    (&["make", "0"], USAGE),
    (&["make", "10001"], USAGE),
    (&["make", "00000010000"], USAGE),
    (&["make", "-1"], USAGE),
    (&["make"], USAGE),
    (&["make", "1", "1"], USAGE),
];

#[test]
fn takes_each_command(rt: HostRuntime) {
    assert!(rt; are_answered(rt.alloc(), TAKEN.as_slice()));
}

#[test]
fn reads_the_number_of_slots(rt: HostRuntime) {
    assert!(rt; are_answered(rt.alloc(), FORMATS.as_slice()));
}

#[test]
fn reads_the_number_of_polls(rt: HostRuntime) {
    assert!(rt; are_answered(rt.alloc(), EQUIPMENTS.as_slice()));
    assert!(rt; are_answered(rt.alloc(), HOSTS.as_slice()));
    assert!(rt; are_answered(rt.alloc(), WRONG_HOSTS.as_slice()));
}

#[test]
fn reads_the_file_or_the_slots_of_a_journal(rt: HostRuntime) {
    assert!(rt; are_answered(rt.alloc(), JOURNALS.as_slice()));
}

#[test]
fn refuses_words_without_a_name(rt: HostRuntime) {
    assert!(rt; are_answered(rt.alloc(), NO_NAMES.as_slice()));
}

#[test]
fn refuses_unknown_and_repeated_options(rt: HostRuntime) {
    assert!(rt; are_answered(rt.alloc(), OTHER_REFUSALS.as_slice()));
}

#[test]
fn refuses_too_few_and_too_many_words(rt: HostRuntime) {
    assert!(rt; are_answered(rt.alloc(), WRONG_COUNTS.as_slice()));
}

#[test]
fn reads_the_number_of_rounds(rt: HostRuntime) {
    assert!(rt; are_answered(rt.alloc(), MAKES.as_slice()));
}
