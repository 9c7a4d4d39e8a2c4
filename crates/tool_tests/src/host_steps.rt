//! `host_node`: in which order open messages end, and what is replied.

use crate::host_cases::{ACK, Case, ENQ, EOT, Given, runs};
use std::test::Fail;

// All open messages end when it is disabled: the one with a transaction first.
static ENDS: [Case; 5] = [
    Case {
        now: 0,
        given: Given::Send(1, 1, true, &[]),
        line: ENQ,
        notes: &[b"sent S1F1 W 00000000 -"],
    },
    Case {
        now: 0,
        given: Given::Send(1, 3, false, &[]),
        line: &[],
        notes: &[b"sent S1F3 00000001 -"],
    },
    Case {
        now: 0,
        given: Given::Send(1, 5, true, &[]),
        line: &[],
        notes: &[b"sent S1F5 W 00000002 -"],
    },
    Case {
        now: 0,
        given: Given::Disable,
        line: &[],
        notes: &[
            b"failed S1F1 W 00000000",
            b"failed S1F5 W 00000002",
            b"failed S1F3 00000001",
            b"comms DISABLED",
        ],
    },
    Case {
        now: 0,
        given: Given::Enable,
        line: &[],
        notes: &[b"comms NOT-COMMUNICATING"],
    },
];

// A block that could not be sent ends all open messages too: its own, with no transaction, behind those that have one.
static FAILS: [Case; 4] = [
    Case {
        now: 0,
        given: Given::Send(1, 3, false, &[]),
        line: ENQ,
        notes: &[b"sent S1F3 00000000 -"],
    },
    Case {
        now: 0,
        given: Given::Send(1, 1, true, &[]),
        line: &[],
        notes: &[b"sent S1F1 W 00000001 -"],
    },
    Case {
        now: 9_999,
        given: Given::Time,
        line: &[],
        notes: &[],
    },
    Case {
        now: 10_000,
        given: Given::Time,
        line: &[],
        notes: &[b"failed S1F1 W 00000001", b"failed S1F3 00000000"],
    },
];

const QUESTION: &[u8] = &[
    0x0A, 0x80, 0x00, 0x81, 0x01, 0x80, 0x01, 0x00, 0x00, 0x00, 0x00, 0x01, 0x83,
];

const QUESTION_REPLY: &[u8] = &[
    0x0C, 0x00, 0x00, 0x01, 0x02, 0x80, 0x01, 0x00, 0x00, 0x00, 0x00, 0x01, 0x00, 0x00, 0x85,
];

const REPORT: &[u8] = &[
    0x0C, 0x80, 0x00, 0x86, 0x0B, 0x80, 0x01, 0x00, 0x00, 0x00, 0x01, 0x01, 0x00, 0x01, 0x94,
];

const REPORT_REPLY: &[u8] = &[
    0x0D, 0x00, 0x00, 0x06, 0x0C, 0x80, 0x01, 0x00, 0x00, 0x00, 0x01, 0x21, 0x01, 0x00, 0x00, 0xB6,
];

const UNKNOWN: &[u8] = &[
    0x0A, 0x80, 0x00, 0x83, 0x01, 0x80, 0x01, 0x00, 0x00, 0x00, 0x02, 0x01, 0x87,
];

const UNKNOWN_REPLY: &[u8] = &[
    0x0A, 0x00, 0x00, 0x03, 0x00, 0x80, 0x01, 0x00, 0x00, 0x00, 0x02, 0x00, 0x86,
];

const ALARM: &[u8] = &[
    0x0A, 0x80, 0x00, 0x05, 0x01, 0x80, 0x01, 0x00, 0x00, 0x00, 0x03, 0x01, 0x0A,
];

const STRANGER: &[u8] = &[
    0x0C, 0x80, 0x00, 0x01, 0x02, 0x80, 0x01, 0x00, 0x00, 0x00, 0x09, 0x01, 0x00, 0x01, 0x0E,
];

// What the host knows it answers; another primary gets function 0, and one without W nothing.
static REPLIES: [Case; 8] = [
    Case {
        now: 0,
        given: Given::Chars(ENQ),
        line: EOT,
        notes: &[],
    },
    Case {
        now: 0,
        given: Given::Chars(QUESTION),
        line: &[0x06, 0x05],
        notes: &[b"rx S1F1 W 00000000 -", b"sent S1F2 00000000 0100"],
    },
    Case {
        now: 0,
        given: Given::Chars(EOT),
        line: QUESTION_REPLY,
        notes: &[],
    },
    Case {
        now: 0,
        given: Given::Chars(&[0x06, 0x05]),
        line: EOT,
        notes: &[],
    },
    Case {
        now: 0,
        given: Given::Chars(REPORT),
        line: &[0x06, 0x05],
        notes: &[b"rx S6F11 W 00000001 0100", b"sent S6F12 00000001 210100"],
    },
    Case {
        now: 0,
        given: Given::Chars(EOT),
        line: REPORT_REPLY,
        notes: &[],
    },
    Case {
        now: 0,
        given: Given::Chars(&[0x06, 0x05]),
        line: EOT,
        notes: &[],
    },
    Case {
        now: 0,
        given: Given::Chars(UNKNOWN),
        line: &[0x06, 0x05],
        notes: &[b"rx S3F1 W 00000002 -", b"sent S3F0 00000002 -"],
    },
];

static LETS_BE: [Case; 4] = [
    Case {
        now: 0,
        given: Given::Chars(ENQ),
        line: EOT,
        notes: &[],
    },
    Case {
        now: 0,
        given: Given::Chars(ALARM),
        line: ACK,
        notes: &[b"rx S5F1 00000003 -"],
    },
    Case {
        now: 0,
        given: Given::Chars(ENQ),
        line: EOT,
        notes: &[],
    },
    Case {
        now: 0,
        given: Given::Chars(STRANGER),
        line: ACK,
        notes: &[b"rx S1F2 00000009 0100", b"stranger S1F2 00000009"],
    },
];

// T3 runs from the acknowledgement on, and changes no state.
static TIMES_OUT: [Case; 5] = [
    Case {
        now: 0,
        given: Given::Send(1, 1, true, &[]),
        line: ENQ,
        notes: &[b"sent S1F1 W 00000000 -"],
    },
    Case {
        now: 0,
        given: Given::Chars(EOT),
        line: &[
            0x0A, 0x00, 0x00, 0x81, 0x01, 0x80, 0x01, 0x00, 0x00, 0x00, 0x00, 0x01, 0x03,
        ],
        notes: &[],
    },
    Case {
        now: 7,
        given: Given::Chars(ACK),
        line: &[],
        notes: &[],
    },
    Case {
        now: 45006,
        given: Given::Time,
        line: &[],
        notes: &[],
    },
    Case {
        now: 45007,
        given: Given::Time,
        line: &[],
        notes: &[b"t3 S1F1 W 00000000"],
    },
];

#[test]
fn open_messages_end_in_order(rt: HostRuntime) -> Result<(), Fail> {
    assert!(rt; runs(rt.alloc(), &ENDS));
    Ok(())
}

#[test]
fn a_failed_block_ends_all(rt: HostRuntime) -> Result<(), Fail> {
    assert!(rt; runs(rt.alloc(), &FAILS));
    Ok(())
}

#[test]
fn it_replies_to_what_it_knows(rt: HostRuntime) -> Result<(), Fail> {
    assert!(rt; runs(rt.alloc(), &REPLIES));
    Ok(())
}

#[test]
fn what_asks_for_nothing_gets_nothing(rt: HostRuntime) -> Result<(), Fail> {
    assert!(rt; runs(rt.alloc(), &LETS_BE));
    Ok(())
}

#[test]
fn t3_ends_a_transaction(rt: HostRuntime) -> Result<(), Fail> {
    assert!(rt; runs(rt.alloc(), &TIMES_OUT));
    Ok(())
}
