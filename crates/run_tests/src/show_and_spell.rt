//! `show` and `spell`: captures and texts, whole, faulty, long and in pieces.

ghost use Rattle.run_tests.specs.FirstExchange.{ShowsTheFirst};

use crate::played_program::{
    Bytes, End, NoDisk, TestFiles, TestInput, TestOutput, ends_so, no_link, output, pieces_of,
    words_of,
};
use gemline_app::gemline;
use gl_base::{NoMemory, Row};
use std::alloc::Global;
use std::test::Fail;

/// What the definitions make of the first exchange of the worked examples.
fn shows_the_first_exchange()
    ensures { ShowsTheFirst }
{}

/// The frame of an S1F1 with W from the host, block 1 with E, system bytes 1.
pub(crate) const S1F1: [u8; 13] = [
    0x0a, 0x00, 0x00, 0x81, 0x01, 0x80, 0x01, 0x00, 0x00, 0x00, 0x01, 0x01, 0x04,
];

pub(crate) const S1F1_LINES: &str =
    "0 BLOCK H>E dev=0 S1F1 W n=1 E sys=00000001 bytes=0\n0 MESSAGE H>E S1F1 W sys=00000001 -\n";

/// An input, and how a command over it ends.
type Case = (Bytes, End<'static>);

/// `show`, up to the longest capture and past it.
static SHOWS: [Case; 8] = [
    ((b"", &S1F1, 1, b""), (0, S1F1_LINES, "")),
    ((b"", b"", 1, b""), (0, "", "")),
    (
        (b"", &[0x09], 1, b""),
        (65, "", "gemline: 65 frame at 0: length 9\n"),
    ),
    (
        (b"", &[0xff], 1, b""),
        (65, "", "gemline: 65 frame at 0: length 255\n"),
    ),
    (
        (b"", &[0x0a, 0x00], 1, b""),
        (65, "", "gemline: 65 frame at 2: short\n"),
    ),
    (
        (
            b"",
            &[
                0x0a, 0x00, 0x00, 0x81, 0x01, 0x80, 0x01, 0x00, 0x00, 0x00, 0x01, 0x01, 0x05,
            ],
            1,
            b"",
        ),
        (65, "", "gemline: 65 frame at 0: sum 0104 found 0105\n"),
    ),
    (
        (b"", &[0; 16], 1_048_576, b""),
        (65, "", "gemline: 65 frame at 0: length 0\n"),
    ),
    (
        (b"", &[0; 16], 1_048_576, b"\0"),
        (65, "", "gemline: 65 input longer\n"),
    ),
];

/// `spell`, likewise.
static SPELLS: [Case; 8] = [
    ((b"", b"<U4 5>", 1, b""), (0, "B10400000005\n", "")),
    (
        (b"", b" <L <A \"a\\x0A\">>\n", 1, b""),
        (0, "01014102610A\n", ""),
    ),
    (
        (b"", b"<U1 256>", 1, b""),
        (65, "", "gemline: 65 text at 4\n"),
    ),
    ((b"", b"<U1 1", 1, b""), (65, "", "gemline: 65 text at 5\n")),
    ((b"", b"", 1, b""), (65, "", "gemline: 65 text at 0\n")),
    (
        (b"", b"<L ", 65, LISTS_END),
        (65, "", "gemline: 65 text at 192\n"),
    ),
    (
        (b"", b"                ", 65_536, b""),
        (65, "", "gemline: 65 text at 1048576\n"),
    ),
    (
        (b"", b"                ", 65_536, b" "),
        (65, "", "gemline: 65 input longer\n"),
    ),
];

/// `spell --hex`, likewise.
static HEXES: [Case; 7] = [
    ((b"", b"B10400000005\n", 1, b""), (0, "<U4 5>\n", "")),
    ((b"", b" b2 00 04\n00000005", 1, b""), (0, "<U4 5>\n", "")),
    (
        (b"", b"B1 0 400000005", 1, b""),
        (65, "", "gemline: 65 hex at 4\n"),
    ),
    ((b"", b"B104\t", 1, b""), (65, "", "gemline: 65 hex at 4\n")),
    ((b"", b"B10", 1, b""), (65, "", "gemline: 65 hex at 3\n")),
    (
        (b"", b"                ", 65_536, b""),
        (65, "", "gemline: 65 item Short at 0\n"),
    ),
    (
        (b"", b"                ", 65_536, b" "),
        (65, "", "gemline: 65 input longer\n"),
    ),
];

/// The first fault of an item, in hex.
static FAULTS: [Case; 7] = [
    (
        (b"", b" \n", 1, b""),
        (65, "", "gemline: 65 item Short at 0\n"),
    ),
    (
        (b"", b"410241", 1, b""),
        (65, "", "gemline: 65 item Short at 3\n"),
    ),
    (
        (b"", b"B0", 1, b""),
        (65, "", "gemline: 65 item NoLengthBytes at 0\n"),
    ),
    (
        (b"", b"B103000000", 1, b""),
        (65, "", "gemline: 65 item Uneven at 0\n"),
    ),
    (
        (b"", b"4900", 1, b""),
        (65, "", "gemline: 65 item BadCode at 0\n"),
    ),
    (
        (b"", b"010000", 1, b""),
        (65, "", "gemline: 65 item Trailing at 2\n"),
    ),
    (
        (b"", b"0101", 64, b"0100"),
        (65, "", "gemline: 65 item TooDeep at 128\n"),
    ),
];

/// The ends of 65 lists.
pub(crate) const LISTS_END: &[u8] =
    b">>>>>>>>>>>>>>>>>>>>>>>>>>>>>>>>>>>>>>>>>>>>>>>>>>>>>>>>>>>>>>>>>";

/// Whether the words over this input end so.
fn is_answered(alloc: Global, words: &[String], input: &[u8], end: &End) -> bool {
    let mut files = TestFiles {
        plan: b"",
        schedule: b"settle",
        fails: 0,
    };
    let mut input = TestInput {
        left: input,
        step: 65536,
        fails: 0,
    };
    ends_so(
        alloc,
        words,
        &mut files,
        &mut input,
        &mut output(alloc, 2000, 0),
        end,
    )
}

fn is_case(alloc: Global, words: &[String], case: &Case) -> bool {
    match pieces_of(alloc, &case.0) {
        Ok(input) => is_answered(alloc, words, input.as_slice(), &case.1),
        Err(NoMemory) => false,
    }
}

fn are_cases(alloc: Global, words: &[&str], cases: &[Case]) -> bool {
    let Ok(words) = words_of(alloc, words) else {
        return false;
    };
    for case in cases {
        if !is_case(alloc, &words, case) {
            return false;
        }
    }
    true
}

#[test]
fn commands_answer_their_input(rt: HostRuntime) -> Result<(), Fail> {
    let alloc = rt.alloc();
    assert!(rt; are_cases(alloc, &["show"], &SHOWS));
    assert!(rt; are_cases(alloc, &["spell"], &SPELLS));
    assert!(rt; are_cases(alloc, &["spell", "--hex"], &HEXES));
    assert!(rt; are_cases(alloc, &["spell", "--hex"], &FAULTS));
    Ok(())
}

/// So many frames of S1F1 with their numbers as system bytes.
fn frames(alloc: Global, count: u16) -> Result<Row<u8>, NoMemory> {
    let mut capture = Row::new(alloc);
    for number in 0..count {
        let mut frame = S1F1;
        frame[9..11].copy_from_slice(&number.to_be_bytes());
        let sum: u16 = frame[1..11].iter().map(|byte| u16::from(*byte)).sum();
        frame[11..].copy_from_slice(&sum.to_be_bytes());
        capture.extend(&frame)?;
    }
    Ok(capture)
}

/// The status of `show` over a capture in pieces of so many bytes, to errors that take nothing.
fn status_of_show(
    alloc: Global,
    words: &[String],
    capture: &[u8],
    step: usize,
    out: &mut TestOutput,
) -> u8 {
    let mut files = TestFiles {
        plan: b"",
        schedule: b"",
        fails: 1,
    };
    let mut input = TestInput {
        left: capture,
        step,
        fails: 0,
    };
    gemline(
        alloc,
        words,
        &mut files,
        &mut input,
        out,
        &mut output(alloc, 0, 0),
        &mut NoDisk,
        &mut no_link(),
    )
}

/// Whether the lines of these frames go out whole, and up to the page of which the write fails.
fn is_cut_in_the_middle(alloc: Global, words: &[String], capture: &[u8]) -> bool {
    let mut whole = output(alloc, 100_000, 0);
    let mut part = output(alloc, 100_000, 2);
    status_of_show(alloc, words, capture, 65536, &mut whole) == 0
        && status_of_show(alloc, words, capture, 65536, &mut part) == 73
        && are_all_lines(whole.bytes.as_slice())
        && whole.bytes.as_slice().starts_with(part.bytes.as_slice())
        && part.bytes.len() > 60_000
        && part.bytes.len() < 70_000
}

/// Whether these are the lines of 2,000 frames.
fn are_all_lines(bytes: &[u8]) -> bool {
    bytes.iter().filter(|byte| **byte == b'\n').count() == 4000
        && bytes.ends_with(b"25987 MESSAGE H>E S1F1 W sys=000007CF -\n")
}

/// Whether pieces of one byte make no difference.
fn is_shown_in_pieces(alloc: Global, words: &[String]) -> bool {
    let mut out = output(alloc, 1, 0);
    status_of_show(alloc, words, &S1F1, 1, &mut out) == 0
        && out.bytes.as_slice() == S1F1_LINES.as_bytes()
        && status_of_show(alloc, words, &[0x09], 1, &mut out) == 65
}

fn are_shown(alloc: Global, words: &[String], capture: &[u8]) -> bool {
    is_cut_in_the_middle(alloc, words, capture) && is_shown_in_pieces(alloc, words)
}

#[test]
fn pages_and_pieces(rt: HostRuntime) -> Result<(), Fail> {
    let words = words_of(rt.alloc(), &["show"])?;
    let capture = frames(rt.alloc(), 2000)?;
    assert!(rt; are_shown(rt.alloc(), &words, capture.as_slice()));
    Ok(())
}
