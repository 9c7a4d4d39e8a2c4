//! Reports: short ones, and those of several blocks, which ask for a grant.

use crate::played_host::{
    ASKS, Case, ESTABLISHES, GOES_ONLINE, Given, LONG, REPORTS_MANY, REPORTS_ONE, Text, runs,
};
use std::test::Fail;

// Its report goes with the value that is set, and is acknowledged.
static IS_REPORTED: [Case; 4] = [
    Case {
        now: 0,
        given: Given::Set(5),
        text: Text::Whole(b"set 1\n"),
    },
    Case {
        now: 0,
        given: Given::Event(1),
        text: Text::Whole(
            b"event 1 0\nsent S6F11 W 00000001 0103B10400000000B10400000001\
              01010102B1040000000A0101B10400000005\n",
        ),
    },
    Case {
        now: 0,
        given: Given::Event(2),
        text: Text::Whole(b"refused\n"),
    },
    Case {
        now: 0,
        given: Given::Sent(6, 12, false, 1, &[0x21, 0x01, 0x00]),
        text: Text::Whole(b"rx S6F12 00000001 210100\n"),
    },
];

static IS_GRANTED: [Case; 1] = [Case {
    now: 0,
    given: Given::Sent(6, 6, false, 1, &[0x21, 0x01, 0x00]),
    text: Text::Front(b"rx S6F6 00000001 210100\nsent S6F11 W 00000002 0103B10400000000"),
}];

static IS_DENIED: [Case; 1] = [Case {
    now: 0,
    given: Given::Sent(6, 6, false, 1, &[0x21, 0x01, 0x01]),
    text: Text::Whole(b"rx S6F6 00000001 210101\ndenied S6F11 W\n"),
}];

static IS_ABORTED: [Case; 1] = [Case {
    now: 0,
    given: Given::Sent(6, 0, false, 1, &[]),
    text: Text::Whole(b"rx S6F0 00000001 -\ndenied S6F11 W\n"),
}];

// No reply comes: the host is told so.
static TIMES_OUT: [Case; 1] = [Case {
    now: 45_000,
    given: Given::Time,
    text: Text::Whole(
        b"t3 S6F5 W 00000001\ndenied S6F11 W\nsent S9F9 00000002 210A80008605800100000001\n",
    ),
}];

// GRANT6 is one byte 00 of kind B: all else denies it.
static DENIES: [Case; 8] = [
    Case {
        now: 0,
        given: Given::Event(1),
        text: Text::Whole(b"event 1 0\nsent S6F5 W 00000001 0102B10400000000B10400000182\n"),
    },
    Case {
        now: 0,
        given: Given::Sent(6, 6, false, 1, &[0x21, 0x02, 0x00, 0x00]),
        text: Text::Whole(b"rx S6F6 00000001 21020000\ndenied S6F11 W\n"),
    },
    Case {
        now: 0,
        given: Given::Event(1),
        text: Text::Whole(b"event 1 1\nsent S6F5 W 00000002 0102B10400000001B10400000182\n"),
    },
    Case {
        now: 0,
        given: Given::Sent(6, 6, false, 2, &[0xA5, 0x01, 0x00]),
        text: Text::Whole(b"rx S6F6 00000002 A50100\ndenied S6F11 W\n"),
    },
    Case {
        now: 0,
        given: Given::Event(1),
        text: Text::Whole(b"event 1 2\nsent S6F5 W 00000003 0102B10400000002B10400000182\n"),
    },
    Case {
        now: 0,
        given: Given::Sent(6, 6, false, 3, &[]),
        text: Text::Whole(b"rx S6F6 00000003 -\ndenied S6F11 W\n"),
    },
    Case {
        now: 0,
        given: Given::Event(1),
        text: Text::Whole(b"event 1 3\nsent S6F5 W 00000004 0102B10400000003B10400000182\n"),
    },
    Case {
        now: 0,
        given: Given::Sent(6, 6, false, 4, &[0x01, 0x00]),
        text: Text::Whole(b"rx S6F6 00000004 0100\ndenied S6F11 W\n"),
    },
];

// A reply to S6F5 that is no good ends it as T3 does: its first block is missing, it is too long, there is no room for
// it.
static GIVES_UP: [Case; 8] = [
    Case {
        now: 0,
        given: Given::Event(1),
        text: Text::Whole(b"event 1 4\nsent S6F5 W 00000005 0102B10400000004B10400000182\n"),
    },
    Case {
        now: 0,
        given: Given::Part((6, 6, false), 5, (2, true), &[]),
        text: Text::Whole(
            b"unexpected 00000606800200000005\nt3 S6F5 W 00000005\ndenied S6F11 W\n\
              sent S9F9 00000006 210A80008605800100000005\n",
        ),
    },
    Case {
        now: 0,
        given: Given::Event(1),
        text: Text::Whole(b"event 1 5\nsent S6F5 W 00000007 0102B10400000005B10400000182\n"),
    },
    Case {
        now: 0,
        given: Given::Part((6, 6, false), 7, (1, false), LONG),
        text: Text::Whole(b""),
    },
    Case {
        now: 0,
        given: Given::Part((6, 6, false), 7, (2, true), LONG),
        text: Text::Whole(
            b"toolong 00000606800200000007\nsent S9F11 00000008 210A00000606800200000007\n\
              t3 S6F5 W 00000007\ndenied S6F11 W\n\
              sent S9F9 00000009 210A80008605800100000007\n",
        ),
    },
    Case {
        now: 0,
        given: Given::Event(1),
        text: Text::Whole(b"event 1 6\nsent S6F5 W 0000000A 0102B10400000006B10400000182\n"),
    },
    Case {
        now: 0,
        given: Given::Begin(16),
        text: Text::Whole(b""),
    },
    Case {
        now: 0,
        given: Given::Part((6, 6, false), 10, (1, false), &[]),
        text: Text::Whole(
            b"crowded 0000060600010000000A\nt3 S6F5 W 0000000A\ndenied S6F11 W\n\
              sent S9F9 0000000B 210A8000860580010000000A\n",
        ),
    },
];

// The first block of a reply stops T3, and T4 ends its transaction then. Another block than the next one ends it at
// once, and the block that was awaited is a stray one.
static COMES_LATE: [Case; 8] = [
    Case {
        now: 44_000,
        given: Given::Part((6, 6, false), 1, (1, false), &[0x21]),
        text: Text::Whole(b""),
    },
    Case {
        now: 45_000,
        given: Given::Time,
        text: Text::Whole(b""),
    },
    Case {
        now: 88_999,
        given: Given::Time,
        text: Text::Whole(b""),
    },
    Case {
        now: 89_000,
        given: Given::Time,
        text: Text::Whole(
            b"t4 00000606000100000001\nt3 S6F5 W 00000001\ndenied S6F11 W\n\
              sent S9F9 00000002 210A80008605800100000001\n",
        ),
    },
    Case {
        now: 89_000,
        given: Given::Event(1),
        text: Text::Whole(b"event 1 1\nsent S6F5 W 00000003 0102B10400000001B10400000182\n"),
    },
    Case {
        now: 89_000,
        given: Given::Part((6, 6, false), 3, (1, false), &[0x21]),
        text: Text::Whole(b""),
    },
    Case {
        now: 89_000,
        given: Given::Part((6, 6, false), 3, (3, false), &[0x01]),
        text: Text::Whole(
            b"unexpected 00000606000300000003\nt3 S6F5 W 00000003\ndenied S6F11 W\n\
              sent S9F9 00000004 210A80008605800100000003\n",
        ),
    },
    Case {
        now: 89_000,
        given: Given::Part((6, 6, false), 3, (2, true), &[0x01, 0x00]),
        text: Text::Whole(b"unexpected 00000606800200000003\n"),
    },
];

// A report that waits for a grant goes though the tool is off-line by then, and draws its number when it goes. A later
// one is dropped. An abort ends a report, and so does a reply, whatever its text.
static GOES_AT_LAST: [Case; 8] = [
    Case {
        now: 0,
        given: Given::Alarm,
        text: Text::Whole(
            b"alarm 7 set\nsent S5F1 W 00000002 0103210183B1040000000741085052455353555245\n",
        ),
    },
    Case {
        now: 0,
        given: Given::Sent(1, 15, true, 20, &[]),
        text: Text::Whole(
            b"rx S1F15 W 00000014 -\ncontrol HOST-OFF-LINE\nsent S1F16 00000014 210100\n",
        ),
    },
    Case {
        now: 0,
        given: Given::Part((6, 6, false), 1, (1, false), &[0x21]),
        text: Text::Whole(b""),
    },
    Case {
        now: 0,
        given: Given::Part((6, 6, false), 1, (2, true), &[0x01, 0x00]),
        text: Text::Front(
            b"rx S6F6 00000001 210100\nsent S6F11 W 00000003 0103B10400000000B10400000001",
        ),
    },
    Case {
        now: 0,
        given: Given::Event(1),
        text: Text::Whole(b"event 1 1\ndropped S6F11 W\n"),
    },
    Case {
        now: 0,
        given: Given::Sent(5, 0, false, 2, &[]),
        text: Text::Whole(b"rx S5F0 00000002 -\n"),
    },
    Case {
        now: 0,
        given: Given::Sent(6, 12, false, 3, &[0xFF]),
        text: Text::Whole(b"rx S6F12 00000003 FF\n"),
    },
    Case {
        now: 90_000,
        given: Given::Time,
        text: Text::Whole(b""),
    },
];

#[test]
fn an_event_is_reported(rt: HostRuntime) -> Result<(), Fail> {
    assert!(rt;
        runs(
            rt.alloc(),
            &[&ESTABLISHES, &GOES_ONLINE, &REPORTS_ONE, &IS_REPORTED]
        )
    );
    Ok(())
}

#[test]
fn a_long_report_goes_by_grant(rt: HostRuntime) -> Result<(), Fail> {
    assert!(rt;
        runs(
            rt.alloc(),
            &[
                &ESTABLISHES,
                &GOES_ONLINE,
                &REPORTS_MANY,
                &ASKS,
                &IS_GRANTED
            ]
        )
    );
    Ok(())
}

#[test]
fn a_long_report_is_denied(rt: HostRuntime) -> Result<(), Fail> {
    assert!(rt;
        runs(
            rt.alloc(),
            &[&ESTABLISHES, &GOES_ONLINE, &REPORTS_MANY, &ASKS, &IS_DENIED]
        )
    );
    Ok(())
}

#[test]
fn a_long_report_is_aborted(rt: HostRuntime) -> Result<(), Fail> {
    assert!(rt;
        runs(
            rt.alloc(),
            &[
                &ESTABLISHES,
                &GOES_ONLINE,
                &REPORTS_MANY,
                &ASKS,
                &IS_ABORTED
            ]
        )
    );
    Ok(())
}

#[test]
fn the_host_is_told_of_t3(rt: HostRuntime) -> Result<(), Fail> {
    assert!(rt;
        runs(
            rt.alloc(),
            &[&ESTABLISHES, &GOES_ONLINE, &REPORTS_MANY, &ASKS, &TIMES_OUT]
        )
    );
    Ok(())
}

#[test]
fn bad_replies_are_no_grant(rt: HostRuntime) -> Result<(), Fail> {
    assert!(rt;
        runs(
            rt.alloc(),
            &[
                &ESTABLISHES,
                &GOES_ONLINE,
                &REPORTS_MANY,
                &DENIES,
                &GIVES_UP
            ]
        )
    );
    Ok(())
}

#[test]
fn a_reply_comes_in_parts(rt: HostRuntime) -> Result<(), Fail> {
    assert!(rt;
        runs(
            rt.alloc(),
            &[
                &ESTABLISHES,
                &GOES_ONLINE,
                &REPORTS_MANY,
                &ASKS,
                &COMES_LATE
            ]
        )
    );
    Ok(())
}

#[test]
fn a_report_goes_at_last(rt: HostRuntime) -> Result<(), Fail> {
    assert!(rt;
        runs(
            rt.alloc(),
            &[
                &ESTABLISHES,
                &GOES_ONLINE,
                &REPORTS_MANY,
                &ASKS,
                &GOES_AT_LAST
            ]
        )
    );
    Ok(())
}
