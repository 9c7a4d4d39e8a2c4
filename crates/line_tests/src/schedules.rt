//! Schedules and scripts, within their grammars and outside them.

use disk_base::CutChoice;
use gl_base::{NoMemory, Row, Side};
use line_schedule::{
    Event, Schedule, ScheduleFault, ScriptStep, read_journal_schedule, read_schedule, read_script,
};
use std::alloc::Global;
use std::test::Fail;
use trace_log::{HostCommand, ToolCommand};

fn tells(alloc: Global, text: &[u8], count: usize) -> bool {
    match read_schedule(alloc, text) {
        Ok(schedule) => schedule.fits() && schedule.events.len() == count,
        Err(_) => false,
    }
}

fn refuses(alloc: Global, text: &[u8], fault: ScheduleFault) -> bool {
    match read_schedule(alloc, text) {
        Ok(_) => false,
        Err(found) => found == fault,
    }
}

/// What the one line of a schedule comes to.
#[derive(Clone, Copy, Debug, PartialEq, Eq)]
enum Answer {
    Told,
    Outside,
}

fn answer_of(alloc: Global, line: &[u8]) -> Option<Answer> {
    match read_schedule(alloc, line) {
        Ok(schedule) if schedule.events.len() == 1 => Some(Answer::Told),
        Ok(_) | Err(ScheduleFault::NoMemory) => None,
        Err(ScheduleFault::Line(_)) => Some(Answer::Outside),
    }
}

/// The first line that doesn't come to this.
fn first_other(alloc: Global, lines: &[&[u8]], wanted: Answer) -> Option<usize> {
    lines
        .iter()
        .position(|line| answer_of(alloc, line) != Some(wanted))
}

fn are_in_order(events: &[Event]) -> bool {
    match events {
        [
            Event::To(Side::Host, 1),
            Event::To(Side::Equipment, 12),
            Event::Settle,
            Event::Wait(1_000_000),
        ] => true,
        _ => false,
    }
}

fn tells_in_order(alloc: Global, text: &[u8]) -> bool {
    match read_schedule(alloc, text) {
        Ok(schedule) => are_in_order(schedule.events.as_slice()),
        Err(_) => false,
    }
}

#[test]
fn reads_events_in_order(rt: HostRuntime) -> Result<(), Fail> {
    let alloc = rt.alloc();
    let text = b"# first\nto H 1\n\nto E 0012\nsettle\nwait 1000000";
    assert!(rt; tells_in_order(alloc, text));
    assert!(rt; tells(alloc, b"", 0));
    assert!(rt; tells(alloc, b"\n\n#jump\n#", 0));
    assert!(rt; tells(alloc, b"to E 0\nto H 4294967295\nwait 0\n", 3));
    Ok(())
}

#[test]
fn names_the_first_line_that_stops(rt: HostRuntime) -> Result<(), Fail> {
    let alloc = rt.alloc();
    assert!(rt; refuses(alloc, b"settle\njump\ncut 1 old\n", ScheduleFault::Line(2)));
    assert!(rt; refuses(alloc, b"#\n\ncut 1 old\njump", ScheduleFault::Line(4)));
    Ok(())
}

#[test]
fn lines_of_the_line_and_the_host(rt: HostRuntime) -> Result<(), Fail> {
    let lines = [
        b"lose E 0".as_slice(),
        b"change H 0 aF",
        b"add E 00",
        b"host send S1F17 W -",
        b"host send S127F255 -",
        b"host send S01F001  <L>",
        b"host enable",
        b"host disable",
    ];
    assert!(rt; first_other(rt.alloc(), &lines, Answer::Told).is_none());
    Ok(())
}

#[test]
fn lines_of_the_tool(rt: HostRuntime) -> Result<(), Fail> {
    let lines = [
        b"tool set 1 <U4 5>".as_slice(),
        b"tool event 1",
        b"tool alarm 7 set",
        b"tool terminal 255 <A \"\">",
        b"tool online",
    ];
    assert!(rt; first_other(rt.alloc(), &lines, Answer::Told).is_none());
    Ok(())
}

#[test]
fn losses_of_power(rt: HostRuntime) -> Result<(), Fail> {
    let lines = [
        b"cut 1 old".as_slice(),
        b"cut 01 new",
        b"cut 4294967295 fill A5",
        b"cut 1 first 0",
    ];
    assert!(rt; first_other(rt.alloc(), &lines, Answer::Told).is_none());
    Ok(())
}

#[test]
fn losses_of_power_outside_the_grammar(rt: HostRuntime) -> Result<(), Fail> {
    let lines = [
        b"cut 0 old".as_slice(),
        b"cut 4294967296 old",
        b"cut 1",
        b"cut 1 older",
        b"cut 1 fill 5",
        b"cut 1 first",
        b"cut 1 first 4294967296",
        b"cut  1 new",
    ];
    assert!(rt; first_other(rt.alloc(), &lines, Answer::Outside).is_none());
    Ok(())
}

#[test]
fn lines_of_the_line_outside_the_grammar(rt: HostRuntime) -> Result<(), Fail> {
    let lines = [
        b"to H".as_slice(),
        b"to  H 1",
        b"to H 1 ",
        b"to h 1",
        b"to H 4294967296",
        b"to H 00000000001",
        b"settle\r",
        b"wait 1000001",
        b"wait -1",
        b"lose E",
        b"change H 0 a",
        b"change H 0 AG",
        b"add E 000",
    ];
    assert!(rt; first_other(rt.alloc(), &lines, Answer::Outside).is_none());
    Ok(())
}

#[test]
fn commands_outside_the_grammar(rt: HostRuntime) -> Result<(), Fail> {
    let lines = [
        b"tool set 1 <U4 5".as_slice(),
        b"tool set x <U4 5>",
        b"tool event",
        b"tool alarm 7 on",
        b"tool enable ",
        b"tool terminal 256 <A \"\">",
        b"tool terminal 1 <B>",
        b"tool stop",
        b"host online",
        b"host send S0F1 -",
        b"host send S128F1 -",
        b"host send S1F2 -",
        b"host send S1F257 -",
        b"host send s1F1 -",
        b"host send S1F1 W",
        b"host send S1F1 W - ",
        b"host send S1F1",
    ];
    assert!(rt; first_other(rt.alloc(), &lines, Answer::Outside).is_none());
    Ok(())
}

// What a schedule tells.
fn told(alloc: Global, line: &[u8]) -> Option<Schedule> {
    read_schedule(alloc, line).ok()
}

fn loses(schedule: Option<Schedule>) -> bool {
    match schedule {
        Some(schedule) => matches!(
            schedule.events.as_slice(),
            [Event::Lose(Side::Equipment, 12)]
        ),
        None => false,
    }
}

fn changes(schedule: Option<Schedule>) -> bool {
    match schedule {
        Some(schedule) => matches!(
            schedule.events.as_slice(),
            [Event::Change(Side::Host, 3, 0xAF)]
        ),
        None => false,
    }
}

fn adds(schedule: Option<Schedule>) -> bool {
    match schedule {
        Some(schedule) => matches!(schedule.events.as_slice(), [Event::Add(Side::Host, 0x15)]),
        None => false,
    }
}

fn cuts(schedule: Option<Schedule>) -> bool {
    match schedule {
        Some(schedule) => matches!(
            schedule.events.as_slice(),
            [Event::Cut(4_294_967_295, CutChoice::Fill(0xA5))]
        ),
        None => false,
    }
}

fn cuts_to_the_first(schedule: Option<Schedule>) -> bool {
    match schedule {
        Some(schedule) => matches!(
            schedule.events.as_slice(),
            [Event::Cut(1, CutChoice::First(4_294_967_295))]
        ),
        None => false,
    }
}

#[test]
fn reads_what_lines_say(rt: HostRuntime) -> Result<(), Fail> {
    let alloc = rt.alloc();
    assert!(rt; loses(told(alloc, b"lose E 012")));
    assert!(rt; changes(told(alloc, b"change H 3 aF")));
    assert!(rt; adds(told(alloc, b"add H 15")));
    assert!(rt; cuts(told(alloc, b"cut 4294967295 fill A5")));
    assert!(rt; cuts_to_the_first(told(alloc, b"cut 1 first 4294967295")));
    Ok(())
}

fn cuts_the_host(alloc: Global, line: &[u8]) -> bool {
    match read_journal_schedule(alloc, line) {
        Ok(schedule) => {
            schedule.fits()
                && matches!(
                    schedule.events.as_slice(),
                    [Event::HostCut(4, CutChoice::New)]
                )
        }
        Err(_) => false,
    }
}

// A loss of the host's power is told in the world of a host with a journal alone.
#[test]
fn reads_losses_of_a_host_with_a_journal(rt: HostRuntime) -> Result<(), Fail> {
    let alloc = rt.alloc();
    assert!(rt; cuts_the_host(alloc, b"hcut 4 new"));
    assert!(rt; !cuts_the_host(alloc, b"hcut 0 new"));
    assert!(rt; refuses(alloc, b"settle\nhcut 4 new\n", ScheduleFault::Line(2)));
    Ok(())
}

// `tool set 1` with so many nested lists.
fn tool_sets_lists(alloc: Global, depth: usize) -> Result<Row<u8>, NoMemory> {
    let mut line = Row::new(alloc);
    line.extend(b"tool set 1 ")?;
    for _ in 0..depth {
        line.extend(b"<L ")?;
    }
    for _ in 0..depth {
        line.extend(b">")?;
    }
    Ok(line)
}

// A list may stand in 63 others.
#[test]
fn lists_nest_64_deep(rt: HostRuntime) -> Result<(), Fail> {
    let alloc = rt.alloc();
    let deepest = tool_sets_lists(alloc, 64)?;
    assert!(rt; tells(alloc, deepest.as_slice(), 1));
    let deeper = tool_sets_lists(alloc, 65)?;
    assert!(rt; refuses(alloc, deeper.as_slice(), ScheduleFault::Line(1)));
    Ok(())
}

// Whether so many empty lines are a schedule, and whether the first one too many is named.
fn reads_lines(alloc: Global, count: usize) -> bool {
    match vec![in alloc; b'\n'; count] {
        Ok(lines) => tells(alloc, &lines, 0),
        Err(_) => false,
    }
}

fn refuses_lines(alloc: Global, count: usize, number: u32) -> bool {
    match vec![in alloc; b'\n'; count] {
        Ok(lines) => refuses(alloc, &lines, ScheduleFault::Line(number)),
        Err(_) => false,
    }
}

// The same of a script.
fn reads_script_lines(alloc: Global, count: usize) -> bool {
    match vec![in alloc; b'\n'; count] {
        Ok(lines) => is_script_of(alloc, &lines, 0),
        Err(_) => false,
    }
}

fn refuses_script_lines(alloc: Global, count: usize, number: u32) -> bool {
    match vec![in alloc; b'\n'; count] {
        Ok(lines) => refuses_script(alloc, &lines, Side::Host, number),
        Err(_) => false,
    }
}

#[test]
fn lines_up_to_their_limit(rt: HostRuntime) {
    let alloc = rt.alloc();
    assert!(rt; reads_lines(alloc, 131_072));
    assert!(rt; refuses_lines(alloc, 131_073, 131_073));
    assert!(rt; reads_script_lines(alloc, 65_536));
    assert!(rt; refuses_script_lines(alloc, 65_537, 65_537));
}

fn is_script_of(alloc: Global, text: &[u8], count: usize) -> bool {
    match read_script(alloc, text, Side::Equipment) {
        Ok(script) => script.fits() && script.lines.len() == count,
        Err(_) => false,
    }
}

fn refuses_script(alloc: Global, text: &[u8], side: Side, number: u32) -> bool {
    match read_script(alloc, text, side) {
        Ok(_) => false,
        Err(fault) => fault == ScheduleFault::Line(number),
    }
}

fn is_alarm(step: &ScriptStep, alid: u32, set: bool) -> bool {
    match step {
        ScriptStep::Tool(ToolCommand::Alarm(other, is_set)) => *other == alid && *is_set == set,
        _ => false,
    }
}

fn is_text(step: &ScriptStep, tid: u8, text: &[u8]) -> bool {
    match step {
        ScriptStep::Tool(ToolCommand::Terminal(other, characters)) => {
            *other == tid && characters.as_slice() == text
        }
        _ => false,
    }
}

fn is_event(step: &ScriptStep, ceid: u32) -> bool {
    match step {
        ScriptStep::Tool(ToolCommand::Event(other)) => *other == ceid,
        _ => false,
    }
}

fn is_stop(step: &ScriptStep) -> bool {
    match step {
        ScriptStep::Stop => true,
        _ => false,
    }
}

fn is_tool_script(lines: &[(u64, ScriptStep)]) -> bool {
    match lines {
        [alarm, text, stop, event] => {
            alarm.0 == 0
                && is_alarm(&alarm.1, 7, false)
                && text.0 == 100
                && is_text(&text.1, 255, b"a\n")
                && stop.0 == 100
                && is_stop(&stop.1)
                && event.0 == 4_294_967_295
                && is_event(&event.1, 1)
        }
        _ => false,
    }
}

fn is_send(step: &ScriptStep, name: (u8, u8), waits: bool, text: &[u8]) -> bool {
    match step {
        ScriptStep::Host(
            HostCommand::Send {
                stream,
                function,
                wait,
                body,
            },
        ) => (*stream, *function) == name && *wait == waits && body.as_slice() == text,
        _ => false,
    }
}

fn is_host_script(lines: &[(u64, ScriptStep)]) -> bool {
    match lines {
        [first, second] => {
            first.0 == 5
                && is_send(&first.1, (1, 17), true, b"")
                && second.0 == 6
                && is_send(&second.1, (127, 255), false, b"\xA5\x01\x07")
        }
        _ => false,
    }
}

fn is_read_by_the_tool(alloc: Global, text: &[u8]) -> bool {
    match read_script(alloc, text, Side::Equipment) {
        Ok(script) => script.fits() && is_tool_script(script.lines.as_slice()),
        Err(_) => false,
    }
}

fn is_read_by_the_host(alloc: Global, text: &[u8]) -> bool {
    match read_script(alloc, text, Side::Host) {
        Ok(script) => script.fits() && is_host_script(script.lines.as_slice()),
        Err(_) => false,
    }
}

#[test]
fn reads_scripts(rt: HostRuntime) -> Result<(), Fail> {
    let alloc = rt.alloc();
    let tool =
        b"#\n0 alarm 7 clear\n\n100 terminal 255 <A \"a\\x0A\">\n0100 stop\n4294967295 event 1\n";
    assert!(rt; is_read_by_the_tool(alloc, tool));
    let host = b"5 send S1F17 W -\n6 send S127F255 <U1 7>";
    assert!(rt; is_read_by_the_host(alloc, host));
    Ok(())
}

#[test]
fn scripts_outside_the_grammar(rt: HostRuntime) -> Result<(), Fail> {
    let alloc = rt.alloc();
    assert!(rt; refuses_script(alloc, b"100 stop\n99 stop", Side::Host, 2));
    assert!(rt; refuses_script(alloc, b"100 stop\njump", Side::Host, 2));
    assert!(rt; refuses_script(alloc, b"4294967296 stop", Side::Host, 1));
    assert!(rt; refuses_script(alloc, b"1 online", Side::Host, 1));
    assert!(rt; refuses_script(alloc, b"1 tool online", Side::Equipment, 1));
    assert!(rt; refuses_script(alloc, b"stop", Side::Equipment, 1));
    Ok(())
}
