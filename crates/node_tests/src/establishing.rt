//! How the communication is established.

use crate::played_host::{Case, Given, LONG, Text, runs};
use std::test::Fail;

// No reply comes to S1F13: it is sent again behind the delay.
static ASKS_AGAIN: [Case; 5] = [
    Case {
        now: 0,
        given: Given::Time,
        text: Text::Whole(b"comms WAIT-CRA\nsent S1F13 W 00000000 0102410747454D4C494E45410131\n"),
    },
    Case {
        now: 45_000,
        given: Given::Time,
        text: Text::Whole(b"t3 S1F13 W 00000000\ncomms WAIT-DELAY\nspool ACTIVE\n"),
    },
    Case {
        now: 45_000,
        given: Given::ActsAt(55_000),
        text: Text::Whole(b""),
    },
    Case {
        now: 54_999,
        given: Given::Time,
        text: Text::Whole(b""),
    },
    Case {
        now: 55_000,
        given: Given::Time,
        text: Text::Whole(b"comms WAIT-CRA\nsent S1F13 W 00000001 0102410747454D4C494E45410131\n"),
    },
];

// S1F13 is refused: by another COMMACK, a text of another shape, and an abort. It is sent again when the delay is
// over, or when a message comes that is no reply.
static REFUSES: [Case; 8] = [
    Case {
        now: 0,
        given: Given::Time,
        text: Text::Whole(b"comms WAIT-CRA\nsent S1F13 W 00000000 0102410747454D4C494E45410131\n"),
    },
    Case {
        now: 0,
        given: Given::Sent(1, 14, false, 0, &[0x01, 0x02, 0x21, 0x01, 0x01, 0x01, 0x00]),
        text: Text::Whole(b"rx S1F14 00000000 01022101010100\ncomms WAIT-DELAY\nspool ACTIVE\n"),
    },
    Case {
        now: 0,
        given: Given::Sent(1, 2, false, 99, &[]),
        text: Text::Whole(b"rx S1F2 00000063 -\nstranger S1F2 00000063\n"),
    },
    Case {
        now: 10_000,
        given: Given::Time,
        text: Text::Whole(b"comms WAIT-CRA\nsent S1F13 W 00000001 0102410747454D4C494E45410131\n"),
    },
    Case {
        now: 10_000,
        given: Given::Sent(1, 14, false, 1, &[0x21, 0x01, 0x00]),
        text: Text::Whole(b"rx S1F14 00000001 210100\ncomms WAIT-DELAY\n"),
    },
    Case {
        now: 20_000,
        given: Given::Time,
        text: Text::Whole(b"comms WAIT-CRA\nsent S1F13 W 00000002 0102410747454D4C494E45410131\n"),
    },
    Case {
        now: 20_000,
        given: Given::Sent(1, 0, false, 2, &[]),
        text: Text::Whole(b"rx S1F0 00000002 -\ncomms WAIT-DELAY\n"),
    },
    Case {
        now: 20_000,
        given: Given::Sent(2, 41, false, 77, &[]),
        text: Text::Whole(
            b"rx S2F41 0000004D -\ndropped S2F41\ncomms WAIT-CRA\nsent S1F13 W 00000003 0102410747454D4C494E45410131\n",
        ),
    },
];

// COMMACK is one byte 00 of kind B, in a list of two.
static REFUSES_ON: [Case; 8] = [
    Case {
        now: 20_000,
        given: Given::Sent(
            1,
            14,
            false,
            3,
            &[0x01, 0x03, 0x21, 0x01, 0x00, 0x01, 0x00, 0x01, 0x00],
        ),
        text: Text::Whole(b"rx S1F14 00000003 010321010001000100\ncomms WAIT-DELAY\n"),
    },
    Case {
        now: 30_000,
        given: Given::Time,
        text: Text::Whole(b"comms WAIT-CRA\nsent S1F13 W 00000004 0102410747454D4C494E45410131\n"),
    },
    Case {
        now: 30_000,
        given: Given::Sent(
            1,
            14,
            false,
            4,
            &[0x01, 0x02, 0x21, 0x02, 0x00, 0x00, 0x01, 0x00],
        ),
        text: Text::Whole(b"rx S1F14 00000004 0102210200000100\ncomms WAIT-DELAY\n"),
    },
    Case {
        now: 40_000,
        given: Given::Time,
        text: Text::Whole(b"comms WAIT-CRA\nsent S1F13 W 00000005 0102410747454D4C494E45410131\n"),
    },
    Case {
        now: 40_000,
        given: Given::Sent(1, 14, false, 5, &[0x01, 0x02, 0xA5, 0x01, 0x00, 0x01, 0x00]),
        text: Text::Whole(b"rx S1F14 00000005 0102A501000100\ncomms WAIT-DELAY\n"),
    },
    Case {
        now: 50_000,
        given: Given::Time,
        text: Text::Whole(b"comms WAIT-CRA\nsent S1F13 W 00000006 0102410747454D4C494E45410131\n"),
    },
    Case {
        now: 50_000,
        given: Given::Sent(1, 14, false, 6, &[]),
        text: Text::Whole(b"rx S1F14 00000006 -\ncomms WAIT-DELAY\n"),
    },
    Case {
        now: 60_000,
        given: Given::Time,
        text: Text::Whole(b"comms WAIT-CRA\nsent S1F13 W 00000007 0102410747454D4C494E45410131\n"),
    },
];

// A reply to S1F13 that is no good ends it as T3 does: its first block is missing, it is too long, it breaks off. The
// host is told of nothing, since the communication is not established.
static LOSES: [Case; 8] = [
    Case {
        now: 60_000,
        given: Given::Part((1, 14, false), 7, (2, true), &[0x00]),
        text: Text::Whole(
            b"unexpected 0000010E800200000007\nt3 S1F13 W 00000007\ncomms WAIT-DELAY\n",
        ),
    },
    Case {
        now: 70_000,
        given: Given::Time,
        text: Text::Whole(b"comms WAIT-CRA\nsent S1F13 W 00000008 0102410747454D4C494E45410131\n"),
    },
    Case {
        now: 70_000,
        given: Given::Part((1, 14, false), 8, (1, false), LONG),
        text: Text::Whole(b""),
    },
    Case {
        now: 70_000,
        given: Given::Part((1, 14, false), 8, (2, true), LONG),
        text: Text::Whole(b"toolong 0000010E800200000008\nt3 S1F13 W 00000008\ncomms WAIT-DELAY\n"),
    },
    Case {
        now: 80_000,
        given: Given::Time,
        text: Text::Whole(b"comms WAIT-CRA\nsent S1F13 W 00000009 0102410747454D4C494E45410131\n"),
    },
    Case {
        now: 81_000,
        given: Given::Part((1, 14, false), 9, (1, false), &[]),
        text: Text::Whole(b""),
    },
    Case {
        now: 125_999,
        given: Given::Time,
        text: Text::Whole(b""),
    },
    Case {
        now: 126_000,
        given: Given::Time,
        text: Text::Whole(b"t4 0000010E000100000009\nt3 S1F13 W 00000009\ncomms WAIT-DELAY\n"),
    },
];

// In WAIT DELAY a block of another device is dropped, and S1F13 of the host establishes the communication, whatever its
// text; without W it gets no answer.
static IS_ASKED: [Case; 4] = [
    Case {
        now: 126_000,
        given: Given::Foreign(false, 1, 5),
        text: Text::Whole(b"foreign 00018101800100000005\n"),
    },
    Case {
        now: 126_000,
        given: Given::Sent(1, 13, false, 500, &[0xFF]),
        text: Text::Whole(b"rx S1F13 000001F4 FF\ncomms COMMUNICATING\nspool INACTIVE\n"),
    },
    Case {
        now: 136_000,
        given: Given::Time,
        text: Text::Whole(b""),
    },
    Case {
        now: 136_000,
        given: Given::Sent(1, 13, true, 501, &[0xFF]),
        text: Text::Whole(
            b"rx S1F13 W 000001F5 FF\nsent S1F14 000001F5 01022101000102410747454D4C494E45410131\n",
        ),
    },
];

#[test]
fn s1f13_is_sent_again(rt: HostRuntime) -> Result<(), Fail> {
    assert!(rt; runs(rt.alloc(), &[&ASKS_AGAIN]));
    Ok(())
}

#[test]
fn s1f13_is_refused(rt: HostRuntime) -> Result<(), Fail> {
    assert!(rt; runs(rt.alloc(), &[&REFUSES, &REFUSES_ON, &LOSES, &IS_ASKED]));
    Ok(())
}
