//! What the host is told of as an error.

use crate::played_host::{Case, ESTABLISHES, GOES_ONLINE, Given, LONG, Text, runs};
use std::test::Fail;

// A stream, a function and a shape that it does not know.
static IS_UNKNOWN: [Case; 3] = [
    Case {
        now: 0,
        given: Given::Sent(3, 1, false, 1, &[]),
        text: Text::Whole(b"rx S3F1 00000001 -\nsent S9F3 00000001 210A00000301800100000001\n"),
    },
    Case {
        now: 0,
        given: Given::Sent(1, 5, true, 2, &[]),
        text: Text::Whole(b"rx S1F5 W 00000002 -\nsent S9F5 00000002 210A00008105800100000002\n"),
    },
    Case {
        now: 0,
        given: Given::Sent(2, 41, true, 3, &[0x01, 0x00]),
        text: Text::Whole(
            b"rx S2F41 W 00000003 0100\nsent S9F7 00000003 210A00008229800100000003\n",
        ),
    },
];

// Blocks that are no good: of another device, of another side, and that one again; of a message that is too long, or
// whose first block is missing. A number of 0 is good for an only block.
static IS_TOLD: [Case; 8] = [
    Case {
        now: 0,
        given: Given::Foreign(false, 1, 5),
        text: Text::Whole(
            b"foreign 00018101800100000005\nsent S9F1 00000001 210A00018101800100000005\n",
        ),
    },
    Case {
        now: 0,
        given: Given::Foreign(true, 0, 6),
        text: Text::Whole(
            b"foreign 80008101800100000006\nsent S9F1 00000002 210A80008101800100000006\n",
        ),
    },
    Case {
        now: 0,
        given: Given::Foreign(true, 0, 6),
        text: Text::Whole(b"duplicate 80008101800100000006\n"),
    },
    Case {
        now: 0,
        given: Given::Part((1, 3, true), 7, (1, false), LONG),
        text: Text::Whole(b""),
    },
    Case {
        now: 0,
        given: Given::Part((1, 3, true), 7, (2, true), LONG),
        text: Text::Whole(
            b"toolong 00008103800200000007\nsent S9F11 00000003 210A00008103800200000007\n",
        ),
    },
    Case {
        now: 0,
        given: Given::Part((1, 3, true), 8, (2, true), &[]),
        text: Text::Whole(b"unexpected 00008103800200000008\n"),
    },
    Case {
        now: 0,
        given: Given::Part((1, 3, true), 9, (0, false), &[]),
        text: Text::Whole(b"unexpected 00008103000000000009\n"),
    },
    Case {
        now: 0,
        given: Given::Part((1, 1, true), 10, (0, true), &[]),
        text: Text::Whole(b"rx S1F1 W 0000000A -\nsent S1F0 0000000A -\n"),
    },
];

#[test]
fn what_is_unknown_is_an_error(rt: HostRuntime) -> Result<(), Fail> {
    assert!(rt; runs(rt.alloc(), &[&ESTABLISHES, &GOES_ONLINE, &IS_UNKNOWN]));
    Ok(())
}

#[test]
fn the_host_is_told_of_bad_blocks(rt: HostRuntime) -> Result<(), Fail> {
    assert!(rt; runs(rt.alloc(), &[&ESTABLISHES, &IS_TOLD]));
    Ok(())
}
