//! Captures of a line, and the lines that show them.

use gl_base::{MemSink, NoMemory, Row};
use line_show::{Break, Ending, Stop, show};
use std::alloc::Global;
use std::test::Fail;

/// A capture, its lines and how it ends.
struct Case {
    capture: &'static [u8],
    lines: &'static str,
    ending: Ending,
}

const CASES: [Case; 11] = [
    // an exchange
    Case {
        capture: &[
            0x05, 0x04, 0x10, 0x00, 0x00, 0x86, 0x13, 0x80, 0x01, 0x00, 0x00, 0x00, 0x02, 0xb1,
            0x04, 0x00, 0x00, 0x00, 0x05, 0x01, 0xd6, 0x06,
        ],
        lines: "0 ENQ\n\
            1 EOT\n\
            2 BLOCK H>E dev=0 S6F19 W n=1 E sys=00000002 bytes=6\n\
            2 MESSAGE H>E S6F19 W sys=00000002 <U4 5>\n\
            21 ACK\n",
        ending: Ending::Whole,
    },
    Case {
        capture: &[],
        lines: "",
        ending: Ending::Whole,
    },
    // a duplicate
    Case {
        capture: &[
            0x0a, 0x00, 0x00, 0x81, 0x01, 0x80, 0x01, 0x00, 0x00, 0x00, 0x01, 0x01, 0x04, 0x0a,
            0x00, 0x00, 0x81, 0x01, 0x80, 0x01, 0x00, 0x00, 0x00, 0x01, 0x01, 0x04,
        ],
        lines: "0 BLOCK H>E dev=0 S1F1 W n=1 E sys=00000001 bytes=0\n\
            0 MESSAGE H>E S1F1 W sys=00000001 -\n\
            13 BLOCK H>E dev=0 S1F1 W n=1 E sys=00000001 bytes=0\n\
            13 duplicate\n",
        ending: Ending::Whole,
    },
    // a body with a fault
    Case {
        capture: &[
            0x0d, 0x00, 0x00, 0x81, 0x01, 0x80, 0x01, 0x00, 0x00, 0x00, 0x01, 0x41, 0x02, 0x41,
            0x01, 0x88,
        ],
        lines: "0 BLOCK H>E dev=0 S1F1 W n=1 E sys=00000001 bytes=3\n\
            0 MESSAGE H>E S1F1 W sys=00000001 bad Short at 3\n",
        ending: Ending::Whole,
    },
    // blocks of both directions by turns
    Case {
        capture: &[
            0x0e, 0x81, 0x02, 0x86, 0x0b, 0x00, 0x01, 0x00, 0x00, 0x00, 0x07, 0x41, 0x05, 0x68,
            0x65, 0x02, 0x2f, 0x0a, 0x01, 0x02, 0x86, 0x0b, 0x80, 0x01, 0x00, 0x00, 0x00, 0x07,
            0x01, 0x1c, 0x0d, 0x81, 0x02, 0x86, 0x0b, 0x80, 0x02, 0x00, 0x00, 0x00, 0x07, 0x6c,
            0x6c, 0x6f, 0x02, 0xe4,
        ],
        lines: "0 BLOCK E>H dev=258 S6F11 W n=1 sys=00000007 bytes=4\n\
            17 BLOCK H>E dev=258 S6F11 W n=1 E sys=00000007 bytes=0\n\
            17 MESSAGE H>E S6F11 W sys=00000007 -\n\
            30 BLOCK E>H dev=258 S6F11 W n=2 E sys=00000007 bytes=3\n\
            30 MESSAGE E>H S6F11 W sys=00000007 <A \"hello\">\n",
        ending: Ending::Whole,
    },
    // a block that does not follow
    Case {
        capture: &[
            0x0a, 0x80, 0x00, 0x01, 0x02, 0x80, 0x02, 0x00, 0x00, 0x00, 0x09, 0x01, 0x0e,
        ],
        lines: "0 BLOCK E>H dev=0 S1F2 n=2 E sys=00000009 bytes=0\n0 unexpected\n",
        ending: Ending::Whole,
    },
    // 21 as NAK, as a length, and as NAK in front of what is no frame
    Case {
        capture: &[0x15],
        lines: "0 NAK\n",
        ending: Ending::Whole,
    },
    Case {
        capture: &[
            0x15, 0x00, 0x00, 0x01, 0x03, 0x80, 0x01, 0x00, 0x00, 0x00, 0x01, 0x21, 0x09, 0x01,
            0x02, 0x03, 0x04, 0x05, 0x06, 0x07, 0x08, 0x09, 0x00, 0xdd,
        ],
        lines: "0 BLOCK H>E dev=0 S1F3 n=1 E sys=00000001 bytes=11\n\
            0 MESSAGE H>E S1F3 sys=00000001 <B 01 02 03 04 05 06 07 08 09>\n",
        ending: Ending::Whole,
    },
    Case {
        capture: &[
            0x15, 0x00, 0x00, 0x01, 0x03, 0x80, 0x01, 0x00, 0x00, 0x00, 0x01, 0x21, 0x09, 0x01,
            0x02, 0x03, 0x04, 0x05, 0x06, 0x07, 0x08, 0x09, 0x00, 0xdc,
        ],
        lines: "0 NAK\n",
        ending: Ending::Broken(Break::Length { at: 1, length: 0 }),
    },
    // a frame that the capture cuts short, and one with another sum
    Case {
        capture: &[0x06, 0x0a, 0x00],
        lines: "0 ACK\n",
        ending: Ending::Broken(Break::Short { at: 3 }),
    },
    Case {
        capture: &[
            0x0a, 0x00, 0x00, 0x81, 0x01, 0x80, 0x01, 0x00, 0x00, 0x00, 0x01, 0x01, 0x05,
        ],
        lines: "",
        ending: Ending::Broken(Break::Sum {
            at: 0,
            want: 0x0104,
            found: 0x0105,
        }),
    },
];

fn is_shown(alloc: Global, case: &Case) -> bool {
    match MemSink::new(alloc, 10_000) {
        Ok(mut out) => {
            show(alloc, case.capture, &mut out) == Ok(case.ending)
                && out.bytes() == case.lines.as_bytes()
        }
        Err(NoMemory) => false,
    }
}

fn are_shown(alloc: Global) -> bool {
    for case in &CASES {
        if !is_shown(alloc, case) {
            return false;
        }
    }
    true
}

#[test]
fn shows_captures(rt: HostRuntime) -> Result<(), Fail> {
    assert!(rt; are_shown(rt.alloc()));
    Ok(())
}

/// The first blocks of so many messages that go on.
fn first_blocks(alloc: Global, messages: u8) -> Result<Row<u8>, NoMemory> {
    let mut capture = Row::new(alloc);
    for number in 0..messages {
        let [high, low] = (0x92 + u16::from(number)).to_be_bytes();
        capture.extend(&[10, 0, 0, 0x86, 11, 0, 1, 0, 0, 0, number, high, low])?;
    }
    Ok(capture)
}

#[test]
fn a_seventeenth_message_is_crowded(rt: HostRuntime) -> Result<(), Fail> {
    let alloc = rt.alloc();
    let capture = first_blocks(alloc, 17)?;
    let mut out = MemSink::new(alloc, 10_000)?;
    let found = show(alloc, capture.as_slice(), &mut out);
    assert!(rt; found == Ok(Ending::Whole) && out.bytes().ends_with(b"\n208 crowded\n"));
    Ok(())
}

/// So many characters.
fn characters(alloc: Global, count: u32) -> Result<Row<u8>, NoMemory> {
    let mut capture = Row::new(alloc);
    for _ in 0..count {
        capture.push(0x05)?;
    }
    Ok(capture)
}

/// Whether showing a capture over a sink that fails at this write gives this answer and writes so many bytes.
fn stops(
    alloc: Global,
    capture: &[u8],
    out: MemSink,
    answer: Result<Ending, Stop>,
    written: usize,
) -> bool {
    let mut out = out;
    show(alloc, capture, &mut out) == answer && out.bytes().len() == written
}

fn failing(alloc: Global, number: u32) -> Result<MemSink, NoMemory> {
    MemSink::failing(alloc, 100_000, Row::of(alloc, &[number])?)
}

/// What was written before a write failed is a page, or nothing.
#[test]
fn a_write_that_fails_stops(rt: HostRuntime) -> Result<(), Fail> {
    let alloc = rt.alloc();
    let all = characters(alloc, 8_000)?;
    let capture = all.as_slice();
    assert!(rt;
        stops(
            alloc,
            capture,
            failing(alloc, 1)?,
            Err(Stop::WriteFailed),
            0
        )
    );
    assert!(rt;
        stops(
            alloc,
            capture,
            failing(alloc, 2)?,
            Err(Stop::WriteFailed),
            65_031
        )
    );
    assert!(rt;
        stops(
            alloc,
            capture,
            failing(alloc, 3)?,
            Ok(Ending::Whole),
            70_890
        )
    );
    Ok(())
}
