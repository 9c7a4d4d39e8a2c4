//! What ends note: every line of a log, the titles in it, and the commands that fit.

use block_codec::Header;
use gl_base::{NoMemory, Row, Side};
use message_flow::{Message, Note};
use secs_items::Item;
use std::alloc::Global;
use trace_log::{
    Cause, CommsName, ControlName, HostCommand, Name, Title, ToolCommand, alarm_note, carried_note,
    closed_note, comms_note, control_note, crowded_note, denied_note, discarded_note, display_note,
    dropped_by_t4_note, dropped_note, duplicate_note, equipment_started_note, event_note,
    failed_note, foreign_note, full_note, gone_note, host_started_note, leaving_note, power_note,
    put_end, put_note, put_slip, received_note, refused_note, sent_note, set_note, spool_note,
    stored_note, storing_note, stranger_note, timed_out_note, too_long_block_note, too_long_note,
    try_note, unexpected_note, wrote_note,
};

fn is_note(note: Result<Note, NoMemory>, text: &[u8]) -> bool {
    match note {
        Ok(note) => note.text.as_slice() == text,
        Err(_) => false,
    }
}

// S6F11 with this text.
fn message(alloc: Global, body: &[u8]) -> Result<Message, NoMemory> {
    Ok(Message {
        stream: 6,
        function: 11,
        wait: true,
        system: 0x2F,
        body: Row::of(alloc, body)?,
    })
}

fn is_sent(alloc: Global) -> bool {
    match message(alloc, &[0x01, 0x00, 0xFE]) {
        Ok(message) => is_note(sent_note(alloc, &message), b"sent S6F11 W 0000002F 0100FE"),
        Err(_) => false,
    }
}

fn is_received(alloc: Global) -> bool {
    match message(alloc, b"") {
        Ok(message) => is_note(received_note(alloc, &message), b"rx S6F11 W 0000002F -"),
        Err(_) => false,
    }
}

const HEADER: Header = Header {
    from_equipment: true,
    device: 0,
    wait: true,
    stream: 1,
    function: 13,
    last: true,
    number: 1,
    system: 0,
};

const TITLE: Title = Title {
    name: Name {
        stream: 1,
        function: 13,
        wait: true,
    },
    system: 0xAB,
};

const NAME: Name = Name {
    stream: 5,
    function: 2,
    wait: false,
};

// Of starts and steps.
fn is_start_line(alloc: Global, line: u32) -> bool {
    match line {
        0 => is_note(
            equipment_started_note(alloc, 2, 4096),
            b"start len=2 base=4096",
        ),
        1 => is_note(host_started_note(alloc), b"start"),
        2 => is_note(power_note(alloc), b"power"),
        3 => is_note(closed_note(alloc), b"closed"),
        4 => is_sent(alloc),
        5 => is_received(alloc),
        _ => is_note(wrote_note(alloc, &[0x06, 0x05]), b"tx 0605"),
    }
}

fn all_start_lines(alloc: Global) -> bool {
    for line in 0..7 {
        if !is_start_line(alloc, line) {
            return false;
        }
    }
    true
}

#[test]
fn every_line_of_starts_and_steps(rt: HostRuntime) {
    assert!(rt; all_start_lines(rt.alloc()));
}

const COMMS: [(CommsName, &[u8]); 5] = [
    (CommsName::Disabled, b"comms DISABLED"),
    (CommsName::WaitCra, b"comms WAIT-CRA"),
    (CommsName::WaitDelay, b"comms WAIT-DELAY"),
    (CommsName::NotCommunicating, b"comms NOT-COMMUNICATING"),
    (CommsName::Communicating, b"comms COMMUNICATING"),
];

const CONTROL: [(ControlName, &[u8]); 5] = [
    (ControlName::EquipmentOffLine, b"control EQUIPMENT-OFF-LINE"),
    (ControlName::AttemptOnLine, b"control ATTEMPT-ON-LINE"),
    (ControlName::HostOffLine, b"control HOST-OFF-LINE"),
    (ControlName::Local, b"control LOCAL"),
    (ControlName::Remote, b"control REMOTE"),
];

fn all_comms_lines(alloc: Global) -> bool {
    for (state, text) in COMMS {
        if !is_note(comms_note(alloc, state), text) {
            return false;
        }
    }
    true
}

fn all_control_lines(alloc: Global) -> bool {
    for (state, text) in CONTROL {
        if !is_note(control_note(alloc, state), text) {
            return false;
        }
    }
    true
}

#[test]
fn every_line_of_states(rt: HostRuntime) {
    assert!(rt; all_comms_lines(rt.alloc()));
    assert!(rt; all_control_lines(rt.alloc()));
}

fn is_tool_line(alloc: Global, line: u32) -> bool {
    match line {
        0 => is_note(set_note(alloc, 1), b"set 1"),
        1 => is_note(event_note(alloc, 1, 4_294_967_295), b"event 1 4294967295"),
        2 => is_note(alarm_note(alloc, 7, true), b"alarm 7 set"),
        3 => is_note(alarm_note(alloc, 7, false), b"alarm 7 clear"),
        4 => is_note(carried_note(alloc, b"GO \"\n"), b"command GO \\x22\\x0A"),
        5 => is_note(display_note(alloc, 255, b"Hi"), b"display 255 4869"),
        6 => is_note(display_note(alloc, 0, b""), b"display 0 -"),
        _ => is_note(refused_note(alloc), b"refused"),
    }
}

fn all_tool_lines(alloc: Global) -> bool {
    for line in 0..8 {
        if !is_tool_line(alloc, line) {
            return false;
        }
    }
    true
}

fn is_spool_line(alloc: Global, line: u32) -> bool {
    match line {
        0 => is_note(spool_note(alloc, true), b"spool ACTIVE"),
        1 => is_note(spool_note(alloc, false), b"spool INACTIVE"),
        2 => is_note(storing_note(alloc, 3, 6, 11), b"storing 3 S6F11 W"),
        3 => is_note(stored_note(alloc, 3), b"stored 3"),
        4 => is_note(
            leaving_note(alloc, 0, Cause::Confirmed),
            b"leaving 0 confirmed",
        ),
        5 => is_note(leaving_note(alloc, 1, Cause::Purged), b"leaving 1 purged"),
        6 => is_note(
            leaving_note(alloc, 2, Cause::Overwritten),
            b"leaving 2 overwritten",
        ),
        7 => is_note(gone_note(alloc, 2), b"gone 2"),
        _ => is_note(try_note(alloc, 1, 0x1000), b"try 1 00001000"),
    }
}

fn all_spool_lines(alloc: Global) -> bool {
    for line in 0..9 {
        if !is_spool_line(alloc, line) {
            return false;
        }
    }
    true
}

#[test]
fn every_line_of_the_tool_and_the_spool(rt: HostRuntime) {
    assert!(rt; all_tool_lines(rt.alloc()));
    assert!(rt; all_spool_lines(rt.alloc()));
}

fn is_block_line(alloc: Global, line: u32) -> bool {
    match line {
        0 => is_note(
            duplicate_note(alloc, &HEADER),
            b"duplicate 8000810D800100000000",
        ),
        1 => is_note(
            unexpected_note(alloc, &HEADER),
            b"unexpected 8000810D800100000000",
        ),
        2 => is_note(
            foreign_note(alloc, &HEADER),
            b"foreign 8000810D800100000000",
        ),
        3 => is_note(
            too_long_block_note(alloc, &HEADER),
            b"toolong 8000810D800100000000",
        ),
        4 => is_note(
            crowded_note(alloc, &HEADER),
            b"crowded 8000810D800100000000",
        ),
        _ => is_note(
            dropped_by_t4_note(alloc, &HEADER),
            b"t4 8000810D800100000000",
        ),
    }
}

fn all_block_lines(alloc: Global) -> bool {
    for line in 0..6 {
        if !is_block_line(alloc, line) {
            return false;
        }
    }
    true
}

fn is_message_line(alloc: Global, line: u32) -> bool {
    match line {
        0 => is_note(failed_note(alloc, TITLE), b"failed S1F13 W 000000AB"),
        1 => is_note(timed_out_note(alloc, TITLE), b"t3 S1F13 W 000000AB"),
        2 => is_note(stranger_note(alloc, TITLE), b"stranger S1F13 W 000000AB"),
        3 => is_note(dropped_note(alloc, NAME), b"dropped S5F2"),
        4 => is_note(denied_note(alloc, NAME), b"denied S5F2"),
        5 => is_note(discarded_note(alloc, NAME), b"discarded S5F2"),
        6 => is_note(too_long_note(alloc, NAME), b"toolong S5F2"),
        _ => is_note(full_note(alloc, NAME), b"full S5F2"),
    }
}

fn all_message_lines(alloc: Global) -> bool {
    for line in 0..8 {
        if !is_message_line(alloc, line) {
            return false;
        }
    }
    true
}

#[test]
fn every_line_of_blocks_and_messages(rt: HostRuntime) {
    assert!(rt; all_block_lines(rt.alloc()));
    assert!(rt; all_message_lines(rt.alloc()));
}

// Whether the line of a note could be put.
fn puts_power(alloc: Global, lines: &mut Row<u8>) -> bool {
    match power_note(alloc) {
        Ok(note) => put_note(7, Side::Equipment, &note, lines).is_ok(),
        Err(_) => false,
    }
}

fn puts_slips(lines: &mut Row<u8>) -> bool {
    put_slip(8, Side::Host, Some(12), &[0x0A, 0xFF], lines).is_ok()
        && put_slip(8, Side::Host, None, &[], lines).is_ok()
}

// The lines of a note, of slips and of the end of a run.
fn puts_below_another(alloc: Global) -> bool {
    let mut lines = Row::new(alloc);
    puts_power(alloc, &mut lines)
        && puts_slips(&mut lines)
        && put_end(18_446_744_073_709_551_615, &mut lines).is_ok()
        && lines.as_slice()
            == b"7 E power\n8 H slip 12 0AFF\n8 H slip - \n18446744073709551615 end\n".as_slice()
}

#[test]
fn lines_stand_one_below_another(rt: HostRuntime) {
    assert!(rt; puts_below_another(rt.alloc()));
}

const SENT: Title = Title {
    name: Name {
        stream: 6,
        function: 11,
        wait: true,
    },
    system: 0x2F,
};

const RECEIVED: Title = Title {
    name: Name {
        stream: 1,
        function: 13,
        wait: true,
    },
    system: 0,
};

fn has_its_title(alloc: Global) -> bool {
    match message(alloc, b"") {
        Ok(message) => Title::of(&message) == SENT,
        Err(_) => false,
    }
}

#[test]
fn titles_are_those_of_messages_and_blocks(rt: HostRuntime) {
    assert!(rt; has_its_title(rt.alloc()));
    assert!(rt; Title::of_block(&HEADER) == RECEIVED);
}

fn fits(alloc: Global, stream: u8, function: u8) -> bool {
    HostCommand::Send {
        stream,
        function,
        wait: true,
        body: Row::new(alloc),
    }
    .fits()
}

// Streams and functions, and whether the host sends them.
const SENDS: [(u8, u8, bool); 5] = [
    (1, 1, true),
    (127, 255, true),
    (0, 1, false),
    (128, 1, false),
    (1, 2, false),
];

fn sends_primaries(alloc: Global) -> bool {
    for (stream, function, sent) in SENDS {
        if fits(alloc, stream, function) != sent {
            return false;
        }
    }
    true
}

#[test]
fn the_host_sends_primaries(rt: HostRuntime) {
    assert!(rt; sends_primaries(rt.alloc()));
    assert!(rt; HostCommand::Enable.fits());
}

// An item with so many lists one in another.
fn nested(alloc: Global, depth: u32) -> Result<Item, NoMemory> {
    let mut item = Item::B(Row::new(alloc));
    for _ in 0..depth {
        let mut items = Row::new(alloc);
        items.push(item)?;
        item = Item::L(items);
    }
    Ok(item)
}

fn can_set(alloc: Global, depth: u32) -> Option<bool> {
    match nested(alloc, depth) {
        Ok(item) => Some(ToolCommand::Set(1, item).fits()),
        Err(_) => None,
    }
}

#[test]
fn a_variable_is_set_to_an_item_that_can_be_read(rt: HostRuntime) {
    let alloc = rt.alloc();
    assert!(rt; can_set(alloc, 64) == Some(true));
    assert!(rt; can_set(alloc, 65) == Some(false));
    assert!(rt; ToolCommand::Event(0).fits());
}
