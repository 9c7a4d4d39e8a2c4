//! Rows of commands, in whatever parts they come.

use gl_base::NoMemory;
use live_commands::{Asks, CommandReader, LINE_LIMIT};
use std::alloc::Global;
use std::test::Fail;
use trace_log::ToolCommand;

/// What a line asked for, as far as a test looks at it.
#[derive(Clone, Copy, Debug, PartialEq, Eq)]
enum Seen {
    Set(u32),
    Event(u32),
    Other,
    Stop,
    Nothing(usize),
}

fn seen_of(asks: &Asks) -> Seen {
    match asks {
        Asks::Command(ToolCommand::Set(vid, _)) => Seen::Set(*vid),
        Asks::Command(ToolCommand::Event(ceid)) => Seen::Event(*ceid),
        Asks::Command(_) => Seen::Other,
        Asks::Stop => Seen::Stop,
        Asks::Nothing { at } => Seen::Nothing(*at),
    }
}

/// Whether the part that has begun asks for the first of these, and how many.
fn asks_for(
    alloc: Global,
    reader: &mut CommandReader,
    part: &[u8],
    wanted: &[(u64, Seen)],
) -> Option<usize> {
    'lines: for count in 0..wanted.len() {
        match reader.next(alloc, part) {
            Ok(Some((number, asks))) if wanted[count] == (number, seen_of(&asks)) => {}
            Ok(None) => return Some(count),
            _ => return None,
        }
    }
    match reader.next(alloc, part) {
        Ok(None) => Some(wanted.len()),
        _ => None,
    }
}

/// What stands behind so many of them.
fn behind(wanted: &[(u64, Seen)], count: usize) -> &[(u64, Seen)] {
    if count < wanted.len() {
        &wanted[count..]
    } else {
        &[]
    }
}

/// Whether these bytes, in parts of so many, ask for this, the last line at the end of all.
fn come(alloc: Global, text: &[u8], size: usize, wanted: &[(u64, Seen)]) -> Result<bool, NoMemory> {
    let mut reader = CommandReader::new(alloc)?;
    let mut left = wanted;
    let mut rest = text;
    'parts: for _ in 0..text.len() {
        if rest.is_empty() {
            break;
        }
        let (part, more) = rest.split_at(size.min(rest.len()));
        rest = more;
        reader.skip(&[]);
        let any = reader.begin(part);
        let Some(count) = asks_for(alloc, &mut reader, part, left) else {
            return Ok(false);
        };
        if any != (count > 0) {
            return Ok(false);
        }
        left = behind(left, count);
    }
    reader.skip(&[]);
    let last = reader.end(&[]);
    Ok(match asks_for(alloc, &mut reader, &[], left) {
        Some(count) => last == (count > 0) && count == left.len(),
        None => false,
    })
}

/// Whether they do so in parts of one byte, of three, and at once.
fn comes(alloc: Global, text: &[u8], wanted: &[(u64, Seen)]) -> bool {
    [1, 3, 4096]
        .iter()
        .all(|size| come(alloc, text, *size, wanted) == Ok(true))
}

/// Whether they do so in long parts.
fn comes_in_long(alloc: Global, text: &[u8], wanted: &[(u64, Seen)]) -> bool {
    come(alloc, text, 65536, wanted) == Ok(true)
}

/// Whether one line is refused at this place.
fn breaks(alloc: Global, line: &[u8], at: usize) -> bool {
    comes(alloc, line, &[(1, Seen::Nothing(at))])
}

#[test]
fn commands_come_in_any_parts(rt: HostRuntime) {
    let alloc = rt.alloc();
    let text = b"set 1 <U4 6>\n\n# event 7\nevent 1\nx\nalarm 7 set\nstop";
    let wanted = [
        (1, Seen::Set(1)),
        (2, Seen::Event(1)),
        (3, Seen::Nothing(0)),
        (4, Seen::Other),
        (5, Seen::Stop),
    ];
    assert!(rt; comes(alloc, text, &wanted));
    assert!(rt; comes(alloc, b"online\n", &[(1, Seen::Other)]));
    assert!(rt; comes(alloc, b"# online", &[]));
    assert!(rt; comes(alloc, b"\n", &[]));
    assert!(rt; comes(alloc, b"", &[]));
}

#[test]
fn a_line_counts_as_its_end_comes(rt: HostRuntime) -> Result<(), Fail> {
    let alloc = rt.alloc();
    let mut reader = CommandReader::new(alloc).map_err(|_| "memory")?;
    assert!(rt; !reader.begin(b"event "));
    assert!(rt; !reader.begin(b"12"));
    assert!(rt; reader.begin(b"3\nst"));
    assert_eq!(rt;
        asks_for(alloc, &mut reader, b"3\nst", &[(1, Seen::Event(123))]),
        Some(1)
    );
    reader.skip(b"3\nst");
    assert!(rt; !reader.begin(b"op"));
    assert!(rt; reader.end(b"op"));
    assert_eq!(rt;
        asks_for(alloc, &mut reader, b"op", &[(2, Seen::Stop)]),
        Some(1)
    );
    Ok(())
}

#[test]
fn a_line_breaks_where_no_command_goes_on(rt: HostRuntime) {
    let alloc = rt.alloc();
    assert!(rt; breaks(alloc, b"0 stop", 0));
    assert!(rt; breaks(alloc, b"sett 1", 3));
    assert!(rt; breaks(alloc, b"enabl", 5));
    assert!(rt; breaks(alloc, b"stopped", 4));
    assert!(rt; breaks(alloc, b"stop\r\n", 4));
    assert!(rt; breaks(alloc, b"event ", 6));
    assert!(rt; breaks(alloc, b"event x", 6));
    assert!(rt; breaks(alloc, b"event 12 ", 8));
    assert!(rt; breaks(alloc, b"event 00000000001", 16));
    assert!(rt; breaks(alloc, b"event 4294967296", 15));
    assert!(rt; breaks(alloc, b"alarm 7", 7));
    assert!(rt; breaks(alloc, b"alarm 7 sex", 10));
    assert!(rt; breaks(alloc, b"alarm 7 clean", 12));
    assert!(rt; breaks(alloc, b"set 1", 5));
    assert!(rt; breaks(alloc, b"set  <U4 6>", 4));
    assert!(rt; breaks(alloc, b"set 1  ", 7));
    assert!(rt; breaks(alloc, b"set 1 <U4 6", 11));
    assert!(rt; breaks(alloc, b"set 1 <U4 x>", 10));
    assert!(rt; breaks(alloc, b"set 1 <U1 300>", 12));
    assert!(rt; breaks(alloc, b"set 1 <U8 18446744073709551616>", 29));
    assert!(rt; breaks(alloc, b"set 1 <I1 -129>", 13));
    assert!(rt; breaks(alloc, b"set 1 <I1 -", 11));
    assert!(rt; breaks(alloc, b"set 1 <U1 -", 10));
    assert!(rt; breaks(alloc, b"set 1 <U1 -7>", 10));
    assert!(rt; breaks(alloc, b"set 1 <A \"<U1 -", 15));
    assert!(rt; breaks(alloc, b"set 1 <L> <L>", 10));
    assert!(rt; breaks(alloc, b"terminal 256 <A", 11));
    assert!(rt; breaks(alloc, b"terminal 0  <", 13));
    assert!(rt; breaks(alloc, b"terminal 0 <L>", 12));
    assert!(rt; breaks(alloc, b"terminal 0 <A 'x'>", 14));
    assert!(rt; breaks(alloc, b"\xff", 0));
}

#[test]
fn a_line_has_one_mebibyte(rt: HostRuntime) -> Result<(), Fail> {
    let alloc = rt.alloc();
    let mut text = Vec::with_capacity(alloc, 2 * LINE_LIMIT)?;
    text.extend_from_slice(b"set 1 <L>")?;
    for _ in 9..LINE_LIMIT {
        text.push(b' ')?;
    }
    assert!(rt; comes_in_long(alloc, &text, &[(1, Seen::Set(1))]));
    text.push(b' ')?;
    assert!(rt; comes_in_long(alloc, &text, &[(1, Seen::Nothing(LINE_LIMIT))]));
    for _ in 0..9 {
        text.push(b' ')?;
    }
    text.extend_from_slice(b"\nstop")?;
    assert!(rt;
        comes_in_long(
            alloc,
            &text,
            &[(1, Seen::Nothing(LINE_LIMIT)), (2, Seen::Stop)]
        )
    );
    text[0] = b'#';
    assert!(rt; comes_in_long(alloc, &text, &[(1, Seen::Stop)]));
    Ok(())
}
