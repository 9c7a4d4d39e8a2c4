//! Traces: how S2F23 is answered, when samples are taken, and which S6F1 they bring.

use crate::played_host::{Case, ESTABLISHES, GOES_ONLINE, Given, NOTHING, TAKEN, Text, runs};
use std::test::Fail;

static IS_SEVEN: [Case; 1] = [Case {
    now: 0,
    given: Given::Set(7),
    text: Text::Whole(b"set 1\n"),
}];

// Two samples a second apart, and one S6F1 of both; any reply ends it.
static TAKES_TWO: [Case; 8] = [
    Case {
        now: 0,
        given: Given::Trace(1, [1, 2, 2, 1]),
        text: Text::Whole(
            b"rx S2F23 W 00000001 0105A501014106303030303031A50102A501020101A50101\n\
              sent S2F24 00000001 210100\n",
        ),
    },
    Case {
        now: 0,
        given: Given::ActsAt(1_000),
        text: NOTHING,
    },
    Case {
        now: 1_000,
        given: Given::Time,
        text: NOTHING,
    },
    Case {
        now: 1_000,
        given: Given::Set(9),
        text: Text::Whole(b"set 1\n"),
    },
    Case {
        now: 1_999,
        given: Given::Time,
        text: NOTHING,
    },
    Case {
        now: 2_000,
        given: Given::Time,
        text: Text::Whole(
            b"sent S6F1 W 00000001 0104B10400000001B1040000000241000102B10400000007B10400000009\n",
        ),
    },
    Case {
        now: 2_000,
        given: Given::Sent(6, 2, false, 1, &[0x21, 0x01, 0x00]),
        text: Text::Whole(b"rx S6F2 00000001 210100\n"),
    },
    Case {
        now: 90_000,
        given: Given::Time,
        text: NOTHING,
    },
];

// A sample is of the values before the step's input. One step takes one sample, however late it is, and the next is due
// a period behind it.
static IS_OF_BEFORE: [Case; 5] = [
    Case {
        now: 0,
        given: Given::Trace(1, [1, 3, 1, 1]),
        text: TAKEN,
    },
    Case {
        now: 1_000,
        given: Given::Set(9),
        text: Text::Whole(
            b"sent S6F1 W 00000001 0104B10400000001B1040000000141000101B10400000007\nset 1\n",
        ),
    },
    Case {
        now: 5_000,
        given: Given::Time,
        text: Text::Whole(
            b"sent S6F1 W 00000002 0104B10400000001B1040000000241000101B10400000009\n",
        ),
    },
    Case {
        now: 5_000,
        given: Given::ActsAt(6_000),
        text: NOTHING,
    },
    Case {
        now: 5_999,
        given: Given::Time,
        text: NOTHING,
    },
];

// A period of no form, a group that is larger than the total, and a variable that isn't there set nothing. A total of 0
// ends a trace.
static IS_REFUSED: [Case; 6] = [
    Case {
        now: 0,
        given: Given::Sent(
            2,
            23,
            true,
            1,
            &[
                0x01, 0x05, 0xA5, 0x01, 0x01, 0x41, 0x06, 0x30, 0x30, 0x30, 0x30, 0x36, 0x30, 0xA5,
                0x01, 0x02, 0xA5, 0x01, 0x02, 0x01, 0x01, 0xA5, 0x01, 0x01,
            ],
        ),
        text: Text::Whole(
            b"rx S2F23 W 00000001 0105A501014106303030303630A50102A501020101A50101\n\
              sent S2F24 00000001 210103\n",
        ),
    },
    Case {
        now: 0,
        given: Given::Trace(2, [1, 2, 3, 1]),
        text: Text::Whole(
            b"rx S2F23 W 00000002 0105A501014106303030303031A50102A501030101A50101\n\
              sent S2F24 00000002 210105\n",
        ),
    },
    Case {
        now: 0,
        given: Given::Sent(
            2,
            23,
            true,
            3,
            &[
                0x01, 0x05, 0xA5, 0x01, 0x01, 0x41, 0x06, 0x30, 0x30, 0x30, 0x30, 0x30, 0x31, 0xA5,
                0x01, 0x02, 0xA5, 0x01, 0x02, 0x01, 0x01, 0xA5, 0x01, 0x63,
            ],
        ),
        text: Text::Whole(
            b"rx S2F23 W 00000003 0105A501014106303030303031A50102A501020101A50163\n\
              sent S2F24 00000003 210104\n",
        ),
    },
    Case {
        now: 0,
        given: Given::Trace(4, [1, 2, 1, 1]),
        text: Text::Whole(
            b"rx S2F23 W 00000004 0105A501014106303030303031A50102A501010101A50101\n\
              sent S2F24 00000004 210100\n",
        ),
    },
    Case {
        now: 0,
        given: Given::Trace(5, [1, 0, 0, 0]),
        text: Text::Whole(
            b"rx S2F23 W 00000005 0105A501014106303030303031A50100A501000100\n\
              sent S2F24 00000005 210100\n",
        ),
    },
    Case {
        now: 1_000,
        given: Given::Time,
        text: NOTHING,
    },
];

// One that asks for no answer sets its trace.
static IS_UNANSWERED: [Case; 2] = [
    Case {
        now: 0,
        given: Given::Sent(
            2,
            23,
            false,
            1,
            &[
                0x01, 0x05, 0xA5, 0x01, 0x01, 0x41, 0x06, 0x30, 0x30, 0x30, 0x30, 0x30, 0x31, 0xA5,
                0x01, 0x01, 0xA5, 0x01, 0x01, 0x01, 0x01, 0xA5, 0x01, 0x01,
            ],
        ),
        text: Text::Whole(b"rx S2F23 00000001 0105A501014106303030303031A50101A501010101A50101\n"),
    },
    Case {
        now: 1_000,
        given: Given::Time,
        text: Text::Whole(
            b"sent S6F1 W 00000001 0104B10400000001B1040000000141000101B10400000007\n",
        ),
    },
];

// A trace that is set anew stands last.
static IS_SET_ANEW: [Case; 4] = [
    Case {
        now: 0,
        given: Given::Trace(1, [1, 1, 1, 0]),
        text: TAKEN,
    },
    Case {
        now: 0,
        given: Given::Trace(2, [2, 1, 1, 0]),
        text: Text::Front(b"rx S2F23 W 00000002 0105A50102"),
    },
    Case {
        now: 0,
        given: Given::Trace(3, [1, 1, 1, 0]),
        text: Text::Front(b"rx S2F23 W 00000003 0105A50101"),
    },
    Case {
        now: 1_000,
        given: Given::Time,
        text: Text::Whole(
            b"sent S6F1 W 00000001 0104B10400000002B1040000000141000100\n\
              sent S6F1 W 00000002 0104B10400000001B1040000000141000100\n",
        ),
    },
];

// Beside 16 others none is set, but one of these may be set anew. All S6F1 that one step brings go.
static ARE_SIXTEEN: [Case; 5] = [
    Case {
        now: 0,
        given: Given::Traces(16),
        text: TAKEN,
    },
    Case {
        now: 0,
        given: Given::Trace(17, [17, 1, 1, 0]),
        text: Text::Whole(
            b"rx S2F23 W 00000011 0105A501114106303030303031A50101A501010100\n\
              sent S2F24 00000011 210102\n",
        ),
    },
    Case {
        now: 0,
        given: Given::Trace(18, [3, 1, 1, 0]),
        text: Text::Whole(
            b"rx S2F23 W 00000012 0105A501034106303030303031A50101A501010100\n\
              sent S2F24 00000012 210100\n",
        ),
    },
    Case {
        now: 1_000,
        given: Given::Time,
        text: Text::Whole(
            b"sent S6F1 W 00000001 0104B10400000001B1040000000141000100\n\
              sent S6F1 W 00000002 0104B10400000002B1040000000141000100\n\
              sent S6F1 W 00000003 0104B10400000004B1040000000141000100\n\
              sent S6F1 W 00000004 0104B10400000005B1040000000141000100\n\
              sent S6F1 W 00000005 0104B10400000006B1040000000141000100\n\
              sent S6F1 W 00000006 0104B10400000007B1040000000141000100\n\
              sent S6F1 W 00000007 0104B10400000008B1040000000141000100\n\
              sent S6F1 W 00000008 0104B10400000009B1040000000141000100\n\
              sent S6F1 W 00000009 0104B1040000000AB1040000000141000100\n\
              sent S6F1 W 0000000A 0104B1040000000BB1040000000141000100\n\
              sent S6F1 W 0000000B 0104B1040000000CB1040000000141000100\n\
              sent S6F1 W 0000000C 0104B1040000000DB1040000000141000100\n\
              sent S6F1 W 0000000D 0104B1040000000EB1040000000141000100\n\
              sent S6F1 W 0000000E 0104B1040000000FB1040000000141000100\n\
              sent S6F1 W 0000000F 0104B10400000010B1040000000141000100\n\
              sent S6F1 W 00000010 0104B10400000003B1040000000141000100\n",
        ),
    },
    Case {
        now: 2_000,
        given: Given::Time,
        text: NOTHING,
    },
];

#[test]
fn two_samples_are_sent(rt: HostRuntime) -> Result<(), Fail> {
    assert!(rt;
        runs(
            rt.alloc(),
            &[&ESTABLISHES, &GOES_ONLINE, &IS_SEVEN, &TAKES_TWO]
        )
    );
    Ok(())
}

#[test]
fn samples_are_of_the_moment_before(rt: HostRuntime) -> Result<(), Fail> {
    assert!(rt;
        runs(
            rt.alloc(),
            &[&ESTABLISHES, &GOES_ONLINE, &IS_SEVEN, &IS_OF_BEFORE]
        )
    );
    Ok(())
}

#[test]
fn refused_requests_set_nothing(rt: HostRuntime) -> Result<(), Fail> {
    assert!(rt; runs(rt.alloc(), &[&ESTABLISHES, &GOES_ONLINE, &IS_REFUSED]));
    Ok(())
}

#[test]
fn a_trace_set_anew_stands_last(rt: HostRuntime) -> Result<(), Fail> {
    assert!(rt; runs(rt.alloc(), &[&ESTABLISHES, &GOES_ONLINE, &IS_SET_ANEW]));
    Ok(())
}

#[test]
fn one_that_asks_for_no_answer_sets_its_trace(rt: HostRuntime) -> Result<(), Fail> {
    assert!(rt;
        runs(
            rt.alloc(),
            &[&ESTABLISHES, &GOES_ONLINE, &IS_SEVEN, &IS_UNANSWERED]
        )
    );
    Ok(())
}

#[test]
fn sixteen_are_sampled_at_once(rt: HostRuntime) -> Result<(), Fail> {
    assert!(rt; runs(rt.alloc(), &[&ESTABLISHES, &GOES_ONLINE, &ARE_SIXTEEN]));
    Ok(())
}
