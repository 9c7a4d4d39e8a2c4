//! `host_node`: what establishes communication and what ends it, and what is dropped while it is disabled.

use crate::host_cases::{ACK, Case, ENQ, EOT, Given, runs};
use std::test::Fail;

// S1F13 W of the equipment, and the host's S1F14.
pub(crate) const GREETING: &[u8] = &[
    0x18, 0x80, 0x00, 0x81, 0x0D, 0x80, 0x01, 0x00, 0x00, 0x00, 0x00, 0x01, 0x02, 0x41, 0x07, 0x47,
    0x45, 0x4D, 0x4C, 0x49, 0x4E, 0x45, 0x41, 0x01, 0x31, 0x04, 0x4E,
];

const GREETED: &[u8] = &[
    0x11, 0x00, 0x00, 0x01, 0x0E, 0x80, 0x01, 0x00, 0x00, 0x00, 0x00, 0x01, 0x02, 0x21, 0x01, 0x00,
    0x01, 0x00, 0x00, 0xB6,
];

const GREETING_NOTE: &[u8] = b"rx S1F13 W 00000000 0102410747454D4C494E45410131";

// S1F13 W establishes communication and is answered.
static ESTABLISHES: [Case; 4] = [
    Case {
        now: 0,
        given: Given::Chars(ENQ),
        line: EOT,
        notes: &[],
    },
    Case {
        now: 0,
        given: Given::Chars(GREETING),
        line: &[0x06, 0x05],
        notes: &[
            GREETING_NOTE,
            b"comms COMMUNICATING",
            b"sent S1F14 00000000 01022101000100",
        ],
    },
    Case {
        now: 0,
        given: Given::Chars(EOT),
        line: GREETED,
        notes: &[],
    },
    Case {
        now: 0,
        given: Given::Chars(ACK),
        line: &[],
        notes: &[],
    },
];

// DISABLED, it drops what comes and what is to go.
static DROPS: [Case; 4] = [
    Case {
        now: 0,
        given: Given::Disable,
        line: &[],
        notes: &[b"comms DISABLED"],
    },
    Case {
        now: 0,
        given: Given::Send(1, 1, true, &[]),
        line: &[],
        notes: &[b"dropped S1F1 W"],
    },
    Case {
        now: 0,
        given: Given::Chars(ENQ),
        line: EOT,
        notes: &[],
    },
    Case {
        now: 0,
        given: Given::Chars(GREETING),
        line: ACK,
        notes: &[GREETING_NOTE, b"dropped S1F13 W"],
    },
];

const ASKED: &[u8] = &[
    0x0C, 0x00, 0x00, 0x81, 0x0D, 0x80, 0x01, 0x00, 0x00, 0x00, 0x00, 0x01, 0x00, 0x01, 0x10,
];

const ACCEPTED: &[u8] = &[
    0x11, 0x80, 0x00, 0x01, 0x0E, 0x80, 0x01, 0x00, 0x00, 0x00, 0x00, 0x01, 0x02, 0x21, 0x01, 0x00,
    0x01, 0x00, 0x01, 0x36,
];

const LONG: &[u8] = &[0; 245];

// S1F14 that accepts establishes communication; a block that could not be sent ends it.
static ACCEPTS: [Case; 8] = [
    Case {
        now: 0,
        given: Given::Send(1, 13, true, &[0x01, 0x00]),
        line: ENQ,
        notes: &[b"sent S1F13 W 00000000 0100"],
    },
    Case {
        now: 0,
        given: Given::Chars(EOT),
        line: ASKED,
        notes: &[],
    },
    Case {
        now: 0,
        given: Given::Chars(ACK),
        line: &[],
        notes: &[],
    },
    Case {
        now: 0,
        given: Given::Chars(ENQ),
        line: EOT,
        notes: &[],
    },
    Case {
        now: 0,
        given: Given::Chars(ACCEPTED),
        line: ACK,
        notes: &[b"rx S1F14 00000000 01022101000100", b"comms COMMUNICATING"],
    },
    Case {
        now: 0,
        given: Given::Send(1, 1, true, LONG),
        line: &[],
        notes: &[b"toolong S1F1 W"],
    },
    Case {
        now: 0,
        given: Given::Send(1, 1, true, &[]),
        line: ENQ,
        notes: &[b"sent S1F1 W 00000001 -"],
    },
    Case {
        now: 10000,
        given: Given::Time,
        line: &[],
        notes: &[b"failed S1F1 W 00000001", b"comms NOT-COMMUNICATING"],
    },
];

// S1F14 with another COMMACK changes no state, and neither does an abort.
static REFUSES: [Case; 8] = [
    Case {
        now: 0,
        given: Given::Send(1, 13, true, &[0x01, 0x00]),
        line: ENQ,
        notes: &[b"sent S1F13 W 00000000 0100"],
    },
    Case {
        now: 0,
        given: Given::Chars(EOT),
        line: &[
            0x0C, 0x00, 0x00, 0x81, 0x0D, 0x80, 0x01, 0x00, 0x00, 0x00, 0x00, 0x01, 0x00, 0x01,
            0x10,
        ],
        notes: &[],
    },
    Case {
        now: 0,
        given: Given::Chars(&[0x06, 0x05]),
        line: EOT,
        notes: &[],
    },
    Case {
        now: 0,
        given: Given::Chars(&[
            0x11, 0x80, 0x00, 0x01, 0x0E, 0x80, 0x01, 0x00, 0x00, 0x00, 0x00, 0x01, 0x02, 0x21,
            0x01, 0x01, 0x01, 0x00, 0x01, 0x37,
        ]),
        line: ACK,
        notes: &[b"rx S1F14 00000000 01022101010100"],
    },
    Case {
        now: 0,
        given: Given::Send(1, 13, true, &[0x01, 0x00]),
        line: ENQ,
        notes: &[b"sent S1F13 W 00000001 0100"],
    },
    Case {
        now: 0,
        given: Given::Chars(EOT),
        line: &[
            0x0C, 0x00, 0x00, 0x81, 0x0D, 0x80, 0x01, 0x00, 0x00, 0x00, 0x01, 0x01, 0x00, 0x01,
            0x11,
        ],
        notes: &[],
    },
    Case {
        now: 0,
        given: Given::Chars(&[0x06, 0x05]),
        line: EOT,
        notes: &[],
    },
    Case {
        now: 0,
        given: Given::Chars(&[
            0x0A, 0x80, 0x00, 0x01, 0x00, 0x80, 0x01, 0x00, 0x00, 0x00, 0x01, 0x01, 0x03,
        ]),
        line: ACK,
        notes: &[b"rx S1F0 00000001 -"],
    },
];

// A text of another shape changes nothing, either. A reply whose first block is missing ends its question as T3 does.
static BREAKS: [Case; 8] = [
    Case {
        now: 0,
        given: Given::Send(1, 13, true, &[0x01, 0x00]),
        line: ENQ,
        notes: &[b"sent S1F13 W 00000000 0100"],
    },
    Case {
        now: 0,
        given: Given::Chars(EOT),
        line: &[
            0x0C, 0x00, 0x00, 0x81, 0x0D, 0x80, 0x01, 0x00, 0x00, 0x00, 0x00, 0x01, 0x00, 0x01,
            0x10,
        ],
        notes: &[],
    },
    Case {
        now: 0,
        given: Given::Chars(&[0x06, 0x05]),
        line: EOT,
        notes: &[],
    },
    Case {
        now: 0,
        given: Given::Chars(&[
            0x0D, 0x80, 0x00, 0x01, 0x0E, 0x80, 0x01, 0x00, 0x00, 0x00, 0x00, 0x21, 0x01, 0x00,
            0x01, 0x32,
        ]),
        line: ACK,
        notes: &[b"rx S1F14 00000000 210100"],
    },
    Case {
        now: 0,
        given: Given::Send(1, 13, true, &[0x01, 0x00]),
        line: ENQ,
        notes: &[b"sent S1F13 W 00000001 0100"],
    },
    Case {
        now: 0,
        given: Given::Chars(EOT),
        line: &[
            0x0C, 0x00, 0x00, 0x81, 0x0D, 0x80, 0x01, 0x00, 0x00, 0x00, 0x01, 0x01, 0x00, 0x01,
            0x11,
        ],
        notes: &[],
    },
    Case {
        now: 0,
        given: Given::Chars(&[0x06, 0x05]),
        line: EOT,
        notes: &[],
    },
    Case {
        now: 0,
        given: Given::Chars(&[
            0x0A, 0x80, 0x00, 0x01, 0x0E, 0x80, 0x02, 0x00, 0x00, 0x00, 0x01, 0x01, 0x12,
        ]),
        line: ACK,
        notes: &[b"unexpected 8000010E800200000001", b"t3 S1F13 W 00000001"],
    },
];

// S1F14 that nobody awaits establishes nothing.
static IS_STRANGE: [Case; 2] = [
    Case {
        now: 0,
        given: Given::Chars(ENQ),
        line: EOT,
        notes: &[],
    },
    Case {
        now: 0,
        given: Given::Chars(&[
            0x11, 0x80, 0x00, 0x01, 0x0E, 0x80, 0x01, 0x00, 0x00, 0x00, 0x09, 0x01, 0x02, 0x21,
            0x01, 0x00, 0x01, 0x00, 0x01, 0x3F,
        ]),
        line: ACK,
        notes: &[
            b"rx S1F14 00000009 01022101000100",
            b"stranger S1F14 00000009",
        ],
    },
];

#[test]
fn s1f13_establishes_communication(rt: HostRuntime) -> Result<(), Fail> {
    assert!(rt; runs(rt.alloc(), &ESTABLISHES));
    Ok(())
}

#[test]
fn disabled_it_drops_all(rt: HostRuntime) -> Result<(), Fail> {
    assert!(rt; runs(rt.alloc(), &DROPS));
    Ok(())
}

#[test]
fn s1f14_establishes_communication(rt: HostRuntime) -> Result<(), Fail> {
    assert!(rt; runs(rt.alloc(), &ACCEPTS));
    Ok(())
}

#[test]
fn s1f14_refuses(rt: HostRuntime) -> Result<(), Fail> {
    assert!(rt; runs(rt.alloc(), &REFUSES));
    assert!(rt; runs(rt.alloc(), &BREAKS));
    assert!(rt; runs(rt.alloc(), &IS_STRANGE));
    Ok(())
}
