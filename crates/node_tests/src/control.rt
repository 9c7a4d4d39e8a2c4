//! The control, and how all ends where the equipment is disabled.

use crate::played_host::{ASKS, Case, ESTABLISHES, GOES_ONLINE, Given, REPORTS_MANY, Text, runs};
use std::test::Fail;

// Off-line a request is aborted, and one that awaits no reply dropped.
static IS_OFFLINE: [Case; 4] = [
    Case {
        now: 0,
        given: Given::Sent(1, 1, true, 1, &[]),
        text: Text::Whole(b"rx S1F1 W 00000001 -\nsent S1F0 00000001 -\n"),
    },
    Case {
        now: 0,
        given: Given::Sent(1, 1, false, 2, &[]),
        text: Text::Whole(b"rx S1F1 00000002 -\ndropped S1F1\n"),
    },
    Case {
        now: 0,
        given: Given::Alarm,
        text: Text::Whole(b"alarm 7 set\ndropped S5F1 W\n"),
    },
    Case {
        now: 0,
        given: Given::Offline,
        text: Text::Whole(b"control EQUIPMENT-OFF-LINE\n"),
    },
];

// The operator asks to be on-line.
static ATTEMPTS: [Case; 4] = [
    Case {
        now: 0,
        given: Given::Online,
        text: Text::Whole(b"control ATTEMPT-ON-LINE\nsent S1F1 W 00000001 -\n"),
    },
    Case {
        now: 0,
        given: Given::Sent(1, 17, true, 3, &[]),
        text: Text::Whole(b"rx S1F17 W 00000003 -\nsent S1F0 00000003 -\n"),
    },
    Case {
        now: 0,
        given: Given::Sent(1, 2, false, 1, &[0x01, 0x00]),
        text: Text::Whole(b"rx S1F2 00000001 0100\ncontrol REMOTE\n"),
    },
    Case {
        now: 0,
        given: Given::Local,
        text: Text::Whole(b"control LOCAL\n"),
    },
];

// Disabled, all open messages end, and what comes then is dropped.
static ENDS: [Case; 4] = [
    Case {
        now: 0,
        given: Given::Alarm,
        text: Text::Front(b"alarm 7 set\nsent S5F1 W 00000002 "),
    },
    Case {
        now: 0,
        given: Given::Disable,
        text: Text::Whole(
            b"failed S6F5 W 00000001\ndropped S6F11 W\nfailed S5F1 W 00000002\ncomms DISABLED\n",
        ),
    },
    Case {
        now: 0,
        given: Given::Sent(1, 13, true, 9, &[]),
        text: Text::Whole(b"rx S1F13 W 00000009 -\ndropped S1F13 W\n"),
    },
    Case {
        now: 0,
        given: Given::Event(1),
        text: Text::Whole(b"event 1 1\ndropped S6F11 W\n"),
    },
];

// The operator asks to be on-line, and gets an abort, a reply that is no good, and S1F2, whatever its text.
static ATTEMPTS_IN_VAIN: [Case; 6] = [
    Case {
        now: 0,
        given: Given::Online,
        text: Text::Whole(b"control ATTEMPT-ON-LINE\nsent S1F1 W 00000001 -\n"),
    },
    Case {
        now: 0,
        given: Given::Sent(1, 0, false, 1, &[]),
        text: Text::Whole(b"rx S1F0 00000001 -\ncontrol EQUIPMENT-OFF-LINE\n"),
    },
    Case {
        now: 0,
        given: Given::Online,
        text: Text::Whole(b"control ATTEMPT-ON-LINE\nsent S1F1 W 00000002 -\n"),
    },
    Case {
        now: 0,
        given: Given::Part((1, 2, false), 2, (2, true), &[]),
        text: Text::Whole(
            b"unexpected 00000102800200000002\nt3 S1F1 W 00000002\ncontrol EQUIPMENT-OFF-LINE\n\
              sent S9F9 00000003 210A80008101800100000002\n",
        ),
    },
    Case {
        now: 0,
        given: Given::Online,
        text: Text::Whole(b"control ATTEMPT-ON-LINE\nsent S1F1 W 00000004 -\n"),
    },
    Case {
        now: 0,
        given: Given::Sent(1, 2, false, 4, &[0xFF]),
        text: Text::Whole(b"rx S1F2 00000004 FF\ncontrol REMOTE\n"),
    },
];

#[test]
fn off_line_requests_are_aborted(rt: HostRuntime) -> Result<(), Fail> {
    assert!(rt; runs(rt.alloc(), &[&ESTABLISHES, &IS_OFFLINE, &ATTEMPTS]));
    Ok(())
}

#[test]
fn disabled_all_ends(rt: HostRuntime) -> Result<(), Fail> {
    assert!(rt;
        runs(
            rt.alloc(),
            &[&ESTABLISHES, &GOES_ONLINE, &REPORTS_MANY, &ASKS, &ENDS]
        )
    );
    Ok(())
}

#[test]
fn attempts_fail(rt: HostRuntime) -> Result<(), Fail> {
    assert!(rt; runs(rt.alloc(), &[&ESTABLISHES, &IS_OFFLINE, &ATTEMPTS_IN_VAIN]));
    Ok(())
}
