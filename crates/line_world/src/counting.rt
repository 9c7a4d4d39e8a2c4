//! How many lines of a trace there are of each kind that a summary counts.

ghost use Rattle.std.specs.Prelude.{◌≡◌, IfOk};
ghost use Rattle.line_schedule.specs.Lines.{lines_of};
ghost use Rattle.line_world.specs.Counting.{no_lines, one_more, with_line, with_lines};
ghost use Rattle.line_world.specs.Make.{behind_word, first_word};

use gl_base::NoMemory;
use line_schedule::{is_word, place_of, split_line};

/// How many messages the equipment has received, and the host, how many of these are reports, how many messages were
/// stored and have gone, and how often the equipment has started.
#[derive(Clone, Copy, Debug, PartialEq, Eq)]
pub(crate) struct Counts {
    pub(crate) equipment_received: u64,
    pub(crate) host_received: u64,
    pub(crate) reports: u64,
    pub(crate) stored: u64,
    pub(crate) gone: u64,
    pub(crate) starts: u64,
}

/// Of no lines.
pub(crate) fn no_lines() -> Counts
    ensures { result ≡ no_lines }
{
    Counts {
        equipment_received: 0,
        host_received: 0,
        reports: 0,
        stored: 0,
        gone: 0,
        starts: 0,
    }
}

/// With the lines of a text besides. A count that 64 bits don't hold is taken for want of memory.
pub(crate) fn count_lines(counts: Counts, text: &[u8]) -> Result<Counts, NoMemory>
    ensures { IfOk result (λ after. after ≡ with_lines counts (lines_of text.now)) }
{
    let mut counted = counts;
    let mut rest = text;
    'lines: while !rest.is_empty() {
        let (line, behind) = split_line(rest);
        counted = count_line(counted, line)?;
        rest = behind;
    }
    Ok(counted)
}

// With one line besides.
fn count_line(counts: Counts, line: &[u8]) -> Result<Counts, NoMemory>
    ensures { IfOk result (λ after. after ≡ with_line counts line.now) }
{
    let (_, noted) = split_word(line);
    let (end, noted) = split_word(noted);
    let (what, noted) = split_word(noted);
    let (name, _) = split_word(noted);
    let equipment = is_word(b"E", end);
    let received = is_word(b"rx", what);
    let of_host = is_word(b"H", end) && received;
    Ok(Counts {
        equipment_received: one_more(equipment && received, counts.equipment_received)?,
        host_received: one_more(of_host, counts.host_received)?,
        reports: one_more(of_host && is_word(b"S6F11", name), counts.reports)?,
        stored: one_more(equipment && is_word(b"stored", what), counts.stored)?,
        gone: one_more(equipment && is_word(b"gone", what), counts.gone)?,
        starts: one_more(equipment && is_word(b"start", what), counts.starts)?,
    })
}

fn one_more(is: bool, count: u64) -> Result<u64, NoMemory>
    ensures { IfOk result (λ after. after ≡ one_more is count) }
{
    if !is {
        return Ok(count);
    }
    count.checked_add(1).ok_or(NoMemory)
}

// The first word, and what stands behind the blank.
fn split_word(line: &[u8]) -> (&[u8], &[u8])
    ensures word { result.0.now ≡ first_word line.now }
    ensures behind { result.1.now ≡ behind_word line.now }
{
    match place_of(b' ', line) {
        Some(at) => (&line[..at], &line[at + 1..]),
        None => (line, &[]),
    }
}
