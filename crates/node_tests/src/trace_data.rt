//! What becomes of an S6F1: it is dropped, too long, granted or denied, or beside many open messages; and what its
//! trace has no part in any more.

use crate::played_host::{
    Case, ESTABLISHES, GOES_ONLINE, Given, NOTHING, REPORTS_ONE, TAKEN, Text, runs,
};
use std::test::Fail;

const IS_OFFLINE: Text = Text::Front(b"rx S1F15 W 00000014 -\ncontrol HOST-OFF-LINE\n");

const DROPPED: Text = Text::Whole(b"dropped S6F1 W\n");

// Off-line no trace is set, and those that run bring S6F1 that are dropped; disabled too.
static IS_DROPPED: [Case; 6] = [
    Case {
        now: 0,
        given: Given::Trace(1, [1, 9, 1, 1]),
        text: TAKEN,
    },
    Case {
        now: 0,
        given: Given::Sent(1, 15, true, 20, &[]),
        text: IS_OFFLINE,
    },
    Case {
        now: 0,
        given: Given::Sent(2, 23, true, 2, &[]),
        text: Text::Whole(b"rx S2F23 W 00000002 -\nsent S2F0 00000002 -\n"),
    },
    Case {
        now: 1_000,
        given: Given::Time,
        text: DROPPED,
    },
    Case {
        now: 1_000,
        given: Given::Disable,
        text: Text::Whole(b"comms DISABLED\n"),
    },
    Case {
        now: 2_000,
        given: Given::Time,
        text: DROPPED,
    },
];

// One that is too long is not sent. Off-line it is dropped, as every other.
static IS_TOO_LONG: [Case; 4] = [
    Case {
        now: 0,
        given: Given::Trace(1, [1, 2, 1, 64]),
        text: TAKEN,
    },
    Case {
        now: 1_000,
        given: Given::Time,
        text: Text::Whole(b"toolong S6F1 W\n"),
    },
    Case {
        now: 1_000,
        given: Given::Sent(1, 15, true, 20, &[]),
        text: IS_OFFLINE,
    },
    Case {
        now: 2_000,
        given: Given::Time,
        text: DROPPED,
    },
];

// While the spool is active none is stored: it is dropped until the host asks for communication, and sent then.
static IS_NOT_STORED: [Case; 8] = [
    Case {
        now: 0,
        given: Given::Trace(1, [1, 9, 1, 0]),
        text: TAKEN,
    },
    Case {
        now: 0,
        given: Given::Disable,
        text: Text::Whole(b"comms DISABLED\n"),
    },
    Case {
        now: 0,
        given: Given::Enable,
        text: Text::Whole(b"comms WAIT-CRA\nsent S1F13 W 00000001 0102410747454D4C494E45410131\n"),
    },
    Case {
        now: 0,
        given: Given::Sent(1, 14, false, 1, &[0x01, 0x02, 0x21, 0x01, 0x01, 0x01, 0x00]),
        text: Text::Whole(b"rx S1F14 00000001 01022101010100\ncomms WAIT-DELAY\nspool ACTIVE\n"),
    },
    Case {
        now: 0,
        given: Given::Alarm,
        text: Text::Whole(b"alarm 7 set\nstoring 0 S5F1 W\nstored 0\n"),
    },
    Case {
        now: 1_000,
        given: Given::Time,
        text: DROPPED,
    },
    Case {
        now: 1_000,
        given: Given::Sent(1, 13, false, 2, &[]),
        text: Text::Whole(b"rx S1F13 00000002 -\ncomms COMMUNICATING\n"),
    },
    Case {
        now: 2_000,
        given: Given::Time,
        text: Text::Whole(b"sent S6F1 W 00000002 0104B10400000001B1040000000241000100\n"),
    },
];

// No reply comes to one: the host is told so, and no state changes.
static TIMES_OUT: [Case; 5] = [
    Case {
        now: 0,
        given: Given::Trace(1, [1, 1, 1, 0]),
        text: TAKEN,
    },
    Case {
        now: 1_000,
        given: Given::Time,
        text: Text::Whole(b"sent S6F1 W 00000001 0104B10400000001B1040000000141000100\n"),
    },
    Case {
        now: 45_999,
        given: Given::Time,
        text: NOTHING,
    },
    Case {
        now: 46_000,
        given: Given::Time,
        text: Text::Whole(b"t3 S6F1 W 00000001\nsent S9F9 00000002 210A80008601800100000001\n"),
    },
    Case {
        now: 46_000,
        given: Given::Sent(1, 1, true, 2, &[]),
        text: Text::Whole(
            b"rx S1F1 W 00000002 -\nsent S1F2 00000002 0102410747454D4C494E45410131\n",
        ),
    },
];

// 64 messages are open.
const FILLS: Case = Case {
    now: 0,
    given: Given::Events(64),
    text: Text::Front(b"event 1 0\nsent S6F11 W 00000001 "),
};

// One of these ends.
const ENDS_ONE: Case = Case {
    now: 1_000,
    given: Given::Sent(6, 12, false, 1, &[0x21, 0x01, 0x00]),
    text: Text::Whole(b"rx S6F12 00000001 210100\n"),
};

// Beside 64 open messages one is lost, and draws no number: the next one has that.
static IS_LOST: [Case; 5] = [
    Case {
        now: 0,
        given: Given::Trace(4, [1, 2, 1, 1]),
        text: Text::Front(b"rx S2F23 W 00000004 0105A50101"),
    },
    FILLS,
    Case {
        now: 1_000,
        given: Given::Time,
        text: Text::Whole(b"full S6F1 W\n"),
    },
    ENDS_ONE,
    Case {
        now: 2_000,
        given: Given::Time,
        text: Text::Whole(
            b"sent S6F1 W 00000041 0104B10400000001B1040000000241000101B10400000000\n",
        ),
    },
];

// A long one is lost with its S6F5, and waits for nothing: the next S6F5 has that number, and lets the next one go.
static IS_LOST_WITH_S6F5: [Case; 6] = [
    Case {
        now: 0,
        given: Given::Trace(4, [7, 2, 1, 42]),
        text: Text::Front(b"rx S2F23 W 00000004 0105A50107"),
    },
    FILLS,
    Case {
        now: 1_000,
        given: Given::Time,
        text: Text::Whole(b"full S6F5 W\n"),
    },
    ENDS_ONE,
    Case {
        now: 2_000,
        given: Given::Time,
        text: Text::Whole(b"sent S6F5 W 00000041 0102B10400000007B1040000010E\n"),
    },
    Case {
        now: 2_000,
        given: Given::Sent(6, 6, false, 65, &[0x21, 0x01, 0x00]),
        text: Text::Front(
            b"rx S6F6 00000041 210100\n\
              sent S6F1 W 00000042 0104B10400000007B104000000024100012AB10400000000",
        ),
    },
];

// One of several blocks asks for a grant first, with its TRID as the DATAID, whatever its SMPLN and its S6F5's number.
static INQUIRES: [Case; 4] = [
    Case {
        now: 0,
        given: Given::Set(3),
        text: Text::Whole(b"set 1\n"),
    },
    Case {
        now: 0,
        given: Given::Trace(1, [7, 4, 2, 21]),
        text: Text::Front(b"rx S2F23 W 00000001 0105A50107"),
    },
    Case {
        now: 1_000,
        given: Given::Time,
        text: NOTHING,
    },
    Case {
        now: 2_000,
        given: Given::Time,
        text: Text::Whole(b"sent S6F5 W 00000001 0102B10400000007B1040000010E\n"),
    },
];

const IS_GRANTED: Case = Case {
    now: 2_000,
    given: Given::Sent(6, 6, false, 1, &[0x21, 0x01, 0x00]),
    text: Text::Front(
        b"rx S6F6 00000001 210100\n\
          sent S6F1 W 00000002 0104B10400000007B104000000024100012AB10400000003",
    ),
};

static GRANTED: [Case; 1] = [IS_GRANTED];

static IS_DENIED: [Case; 1] = [Case {
    now: 2_000,
    given: Given::Sent(6, 6, false, 1, &[0x21, 0x01, 0x01]),
    text: Text::Whole(b"rx S6F6 00000001 210101\ndenied S6F1 W\n"),
}];

static IS_ABORTED: [Case; 1] = [Case {
    now: 2_000,
    given: Given::Sent(6, 0, false, 1, &[]),
    text: Text::Whole(b"rx S6F0 00000001 -\ndenied S6F1 W\n"),
}];

static IS_GIVEN_UP: [Case; 1] = [Case {
    now: 2_000,
    given: Given::Part((6, 6, false), 1, (2, true), &[]),
    text: Text::Whole(
        b"unexpected 00000606800200000001\nt3 S6F5 W 00000001\ndenied S6F1 W\n\
          sent S9F9 00000002 210A80008605800100000001\n",
    ),
}];

// The trace goes on meanwhile, and so another S6F1 waits.
static GRANT_TIMES_OUT: [Case; 3] = [
    Case {
        now: 3_000,
        given: Given::Time,
        text: NOTHING,
    },
    Case {
        now: 4_000,
        given: Given::Time,
        text: Text::Whole(b"sent S6F5 W 00000002 0102B10400000007B1040000010E\n"),
    },
    Case {
        now: 47_000,
        given: Given::Time,
        text: Text::Whole(
            b"t3 S6F5 W 00000001\ndenied S6F1 W\nsent S9F9 00000003 210A80008605800100000001\n",
        ),
    },
];

static ENDS_WITH_ALL: [Case; 1] = [Case {
    now: 2_000,
    given: Given::Disable,
    text: Text::Whole(b"failed S6F5 W 00000001\ndropped S6F1 W\ncomms DISABLED\n"),
}];

const IS_NINE: Case = Case {
    now: 2_000,
    given: Given::Set(9),
    text: Text::Whole(b"set 1\n"),
};

// Its trace ends while one waits: that goes as it was made, and is the last.
static TRACE_ENDS: [Case; 4] = [
    Case {
        now: 2_000,
        given: Given::Trace(2, [7, 0, 0, 0]),
        text: Text::Whole(
            b"rx S2F23 W 00000002 0105A501074106303030303031A50100A501000100\n\
              sent S2F24 00000002 210100\n",
        ),
    },
    IS_NINE,
    IS_GRANTED,
    Case {
        now: 9_000,
        given: Given::Time,
        text: NOTHING,
    },
];

// Its trace is set anew while one waits: the S6F1 of both go, each with its own samples.
static TRACE_IS_SET_ANEW: [Case; 4] = [
    Case {
        now: 2_000,
        given: Given::Trace(2, [7, 1, 1, 1]),
        text: Text::Whole(
            b"rx S2F23 W 00000002 0105A501074106303030303031A50101A501010101A50101\n\
              sent S2F24 00000002 210100\n",
        ),
    },
    IS_NINE,
    Case {
        now: 3_000,
        given: Given::Time,
        text: Text::Whole(
            b"sent S6F1 W 00000002 0104B10400000007B1040000000141000101B10400000009\n",
        ),
    },
    Case {
        now: 3_000,
        given: Given::Sent(6, 6, false, 1, &[0x21, 0x01, 0x00]),
        text: Text::Front(
            b"rx S6F6 00000001 210100\n\
              sent S6F1 W 00000003 0104B10400000007B104000000024100012AB10400000003",
        ),
    },
];

#[test]
fn off_line_and_disabled_it_is_dropped(rt: HostRuntime) -> Result<(), Fail> {
    assert!(rt; runs(rt.alloc(), &[&ESTABLISHES, &GOES_ONLINE, &IS_DROPPED]));
    Ok(())
}

#[test]
fn one_that_is_too_long_is_not_sent(rt: HostRuntime) -> Result<(), Fail> {
    assert!(rt; runs(rt.alloc(), &[&ESTABLISHES, &GOES_ONLINE, &IS_TOO_LONG]));
    Ok(())
}

#[test]
fn none_is_stored(rt: HostRuntime) -> Result<(), Fail> {
    assert!(rt; runs(rt.alloc(), &[&ESTABLISHES, &GOES_ONLINE, &IS_NOT_STORED]));
    Ok(())
}

#[test]
fn the_host_is_told_of_t3(rt: HostRuntime) -> Result<(), Fail> {
    assert!(rt; runs(rt.alloc(), &[&ESTABLISHES, &GOES_ONLINE, &TIMES_OUT]));
    Ok(())
}

#[test]
fn beside_64_open_messages_it_is_lost(rt: HostRuntime) -> Result<(), Fail> {
    assert!(rt;
        runs(
            rt.alloc(),
            &[&ESTABLISHES, &GOES_ONLINE, &REPORTS_ONE, &IS_LOST]
        )
    );
    Ok(())
}

#[test]
fn beside_64_open_messages_a_long_one_is_lost(rt: HostRuntime) -> Result<(), Fail> {
    assert!(rt;
        runs(
            rt.alloc(),
            &[&ESTABLISHES, &GOES_ONLINE, &REPORTS_ONE, &IS_LOST_WITH_S6F5]
        )
    );
    Ok(())
}

#[test]
fn a_long_one_goes_by_grant(rt: HostRuntime) -> Result<(), Fail> {
    assert!(rt;
        runs(
            rt.alloc(),
            &[&ESTABLISHES, &GOES_ONLINE, &INQUIRES, &GRANTED]
        )
    );
    Ok(())
}

#[test]
fn a_long_one_is_denied(rt: HostRuntime) -> Result<(), Fail> {
    assert!(rt;
        runs(
            rt.alloc(),
            &[&ESTABLISHES, &GOES_ONLINE, &INQUIRES, &IS_DENIED]
        )
    );
    Ok(())
}

#[test]
fn a_long_one_is_aborted(rt: HostRuntime) -> Result<(), Fail> {
    assert!(rt;
        runs(
            rt.alloc(),
            &[&ESTABLISHES, &GOES_ONLINE, &INQUIRES, &IS_ABORTED]
        )
    );
    Ok(())
}

#[test]
fn a_reply_that_is_no_good_denies_a_long_one(rt: HostRuntime) -> Result<(), Fail> {
    assert!(rt;
        runs(
            rt.alloc(),
            &[&ESTABLISHES, &GOES_ONLINE, &INQUIRES, &IS_GIVEN_UP]
        )
    );
    Ok(())
}

#[test]
fn the_grant_of_a_long_one_is_missed(rt: HostRuntime) -> Result<(), Fail> {
    assert!(rt;
        runs(
            rt.alloc(),
            &[&ESTABLISHES, &GOES_ONLINE, &INQUIRES, &GRANT_TIMES_OUT]
        )
    );
    Ok(())
}

#[test]
fn a_long_one_ends_with_all(rt: HostRuntime) -> Result<(), Fail> {
    assert!(rt;
        runs(
            rt.alloc(),
            &[&ESTABLISHES, &GOES_ONLINE, &INQUIRES, &ENDS_WITH_ALL]
        )
    );
    Ok(())
}

#[test]
fn a_long_one_outlasts_its_trace(rt: HostRuntime) -> Result<(), Fail> {
    assert!(rt;
        runs(
            rt.alloc(),
            &[&ESTABLISHES, &GOES_ONLINE, &INQUIRES, &TRACE_ENDS]
        )
    );
    Ok(())
}

#[test]
fn a_long_one_waits_beside_its_new_trace(rt: HostRuntime) -> Result<(), Fail> {
    assert!(rt;
        runs(
            rt.alloc(),
            &[&ESTABLISHES, &GOES_ONLINE, &INQUIRES, &TRACE_IS_SET_ANEW]
        )
    );
    Ok(())
}
