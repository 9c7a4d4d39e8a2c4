//! Messages as blocks: what goes out, and what comes in block by block.

use arrayvec::ArrayVec;
use block_codec::{Block, Header, LONGEST_TEXT, frame_of};
use gl_base::{NoMemory, Row, Side};
use message_flow::{Assembly, Flow, Message, NodeInput, Note, Outgoing, Pushing, StepOut};
use std::alloc::Global;
use std::test::Fail;

// An event report of the equipment, S6F11 with W, with this text.
fn report(alloc: Global, system: u32, text: &[u8]) -> Result<Message, NoMemory> {
    let mut body = Row::new(alloc);
    body.extend(text)?;
    Ok(Message {
        stream: 6,
        function: 11,
        wait: true,
        system,
        body,
    })
}

// The header of one of its blocks.
pub(crate) fn header(device: u16, system: u32, number: u16, last: bool) -> Header {
    Header {
        from_equipment: true,
        device,
        wait: true,
        stream: 6,
        function: 11,
        last,
        number,
        system,
    }
}

// Whether a report joins those that wait.
fn joins(outgoing: &mut Outgoing, alloc: Global, system: u32, text: &[u8]) -> bool {
    match report(alloc, system, text) {
        Ok(message) => message.fits() && outgoing.push(message).is_ok(),
        Err(NoMemory) => false,
    }
}

// Whether these blocks go next: their system bytes, their numbers and how many bytes of text they have.
fn send(outgoing: &mut Outgoing, blocks: &[(u32, u16, usize)]) -> bool {
    for (system, number, bytes) in blocks {
        let Some(block) = outgoing.next_block() else {
            return false;
        };
        let header = block.header();
        if header.system != *system || header.number != *number || block.body().len() != *bytes {
            return false;
        }
    }
    true
}

// What a block is at a moment, in a word.
fn told(assembly: &mut Assembly, block: Option<Block>, now: u32) -> &'static str {
    let Some(block) = block else {
        return "no block";
    };
    match assembly.accept(&block, u64::from(now)) {
        Ok(Flow::Part) => "part",
        Ok(Flow::Whole(message, _)) => {
            if message.body.as_slice() == b"ac".as_slice() {
                "whole ac"
            } else {
                "whole"
            }
        }
        Ok(Flow::Duplicate) => "duplicate",
        Ok(Flow::Foreign(address)) => {
            if address == 0x8001 {
                "foreign 8001"
            } else {
                "foreign"
            }
        }
        Ok(Flow::Unexpected) => "unexpected",
        Ok(Flow::TooLong) => "too long",
        Ok(Flow::Crowded) => "crowded",
        Err(NoMemory) => "no memory",
    }
}

// A block, and what it is: its moment, system bytes, number, E bit and text.
type Case<'a> = (u32, u32, u16, bool, &'a [u8], &'static str);

// Whether the blocks are what is said of them.
fn are_told(assembly: &mut Assembly, cases: &[Case]) -> bool {
    for (now, system, number, last, text, word) in cases {
        let block = Block::new(header(0, *system, *number, *last), text);
        if told(assembly, block, *now) != *word {
            return false;
        }
    }
    true
}

// Whether a block of each of 16 messages is what is said of it.
fn sixteen_are(assembly: &mut Assembly, number: u16, last: bool, word: &str) -> bool {
    for system in 0..16 {
        let block = Block::new(header(0, system, number, last), b"x");
        if told(assembly, block, 0) != word {
            return false;
        }
    }
    true
}

// Whether 128 reports of two blocks join those that wait.
fn fill(outgoing: &mut Outgoing, alloc: Global) -> bool {
    for system in 0..128 {
        if !joins(outgoing, alloc, system, &[7; 245]) {
            return false;
        }
    }
    true
}

// Whether a report is handed back since 128 wait.
fn is_full(outgoing: &mut Outgoing, message: Message) -> bool {
    let system = message.system;
    if !message.fits() {
        return false;
    }
    match outgoing.push(message) {
        Err(Pushing::QueueFull(back)) => back.system == system,
        _ => false,
    }
}

#[test]
fn goes_out_in_blocks(rt: HostRuntime) -> Result<(), Fail> {
    let alloc = rt.alloc();
    let mut outgoing = Outgoing::new(alloc, Side::Equipment, 0);
    assert!(rt; joins(&mut outgoing, alloc, 1, &[7; 489]));
    assert!(rt; send(&mut outgoing, &[(1, 1, 244), (1, 2, 244)]));
    let block = outgoing.next_block().ok_or("no block")?;
    assert_eq!(rt; block.header(), header(0, 1, 3, true));
    assert_eq!(rt; frame_of(&block).as_slice().first(), Some(&11));
    assert!(rt; joins(&mut outgoing, alloc, 2, &[]));
    assert!(rt; send(&mut outgoing, &[(2, 1, 0)]) && outgoing.next_block().is_none());
    Ok(())
}

#[test]
fn waits_in_turn(rt: HostRuntime) -> Result<(), Fail> {
    let alloc = rt.alloc();
    let mut outgoing = Outgoing::new(alloc, Side::Host, 32_767);
    assert!(rt; outgoing.drop_front().is_none() && outgoing.waiting(true, 2).is_none());
    assert!(rt; fill(&mut outgoing, alloc) && is_full(&mut outgoing, report(alloc, 128, &[])?));
    assert!(rt; send(&mut outgoing, &[(0, 1, 244), (1, 1, 244)]));
    let last = outgoing.waiting(true, 2).ok_or("not there")?;
    assert!(rt; last.number == 2 && last.last && last.device == 32_767);
    assert!(rt; !outgoing.remove(false, 2) && outgoing.remove(true, 2));
    assert_eq!(rt; outgoing.drop_front().map(|header| header.system), Some(3));
    assert_eq!(rt; outgoing.len(), 126);
    Ok(())
}

// Two reports with one key: of two blocks and of three.
#[test]
fn recalls_the_last_in_turn(rt: HostRuntime) -> Result<(), Fail> {
    let alloc = rt.alloc();
    let mut outgoing = Outgoing::new(alloc, Side::Equipment, 0);
    assert!(rt; joins(&mut outgoing, alloc, 1, &[7; 245]));
    assert!(rt; joins(&mut outgoing, alloc, 1, &[7; 489]));
    assert!(rt; send(&mut outgoing, &[(1, 1, 244), (1, 1, 244)]));
    assert!(rt; outgoing.recall(&header(0, 1, 1, false)));
    assert!(rt; joins(&mut outgoing, alloc, 1, &[7; 489]));
    assert!(rt; send(&mut outgoing, &[(1, 2, 1), (1, 1, 244), (1, 2, 244)]));
    assert!(rt; !outgoing.recall(&header(0, 1, 2, true)));
    assert!(rt; send(&mut outgoing, &[(1, 3, 1)]));
    Ok(())
}

#[test]
fn comes_in_block_by_block(rt: HostRuntime) -> Result<(), Fail> {
    let mut host = Assembly::new(rt.alloc(), Side::Host, Some(0), 1_000, 244);
    let cases: [Case; 10] = [
        (0, 1, 1, false, b"a", "part"),
        (1, 2, 1, false, b"b", "part"),
        (2, 2, 1, false, b"b", "duplicate"),
        (3, 1, 2, true, b"c", "whole ac"),
        (3, 2, 2, true, b"d", "whole"),
        (3, 3, 2, true, b"", "unexpected"),
        (3, 4, 1, false, &[0; 244], "part"),
        (3, 4, 2, true, b"x", "too long"),
        (4, 4, 1, true, &[0; 244], "whole"),
        (5, 5, 1, false, b"", "part"),
    ];
    assert!(rt; are_told(&mut host, &cases));
    assert_eq!(rt; host.deadline(), Some(1_005));
    assert_eq!(rt; host.tick(1_004), None);
    assert_eq!(rt; host.tick(1_005), Some(header(0, 5, 1, false)));
    assert_eq!(rt; host.deadline(), None);
    Ok(())
}

#[test]
fn knows_side_and_device(rt: HostRuntime) -> Result<(), Fail> {
    let alloc = rt.alloc();
    let block = Block::new(header(1, 1, 1, true), &[]);
    let mut host = Assembly::new(alloc, Side::Host, Some(0), 1_000, 244);
    assert_eq!(rt; told(&mut host, block, 0), "foreign 8001");
    let block = Block::new(header(9, 1, 1, true), &[]);
    let mut equipment = Assembly::new(alloc, Side::Equipment, None, 1_000, 244);
    assert_eq!(rt; told(&mut equipment, block, 0), "foreign");
    let block = Block::new(header(9, 1, 1, true), &[]);
    let mut every = Assembly::new(alloc, Side::Host, None, 1_000, 244);
    assert_eq!(rt; told(&mut every, block, 0), "whole");
    Ok(())
}

#[test]
fn keeps_sixteen_apart(rt: HostRuntime) -> Result<(), Fail> {
    let mut host = Assembly::new(rt.alloc(), Side::Host, Some(0), 120_000, LONGEST_TEXT);
    assert!(rt; sixteen_are(&mut host, 1, false, "part"));
    assert!(rt;
        are_told(
            &mut host,
            &[
                (0, 16, 1, false, b"x", "crowded"),
                (0, 17, 1, true, b"x", "whole")
            ]
        )
    );
    assert!(rt;
        sixteen_are(&mut host, 2, false, "part") && sixteen_are(&mut host, 3, true, "whole")
    );
    Ok(())
}

#[test]
fn counts_those_without_wait(rt: HostRuntime) -> Result<(), Fail> {
    let alloc = rt.alloc();
    let mut outgoing = Outgoing::new(alloc, Side::Equipment, 0);
    let quiet = Message {
        wait: false,
        ..report(alloc, 1, &[])?
    };
    assert!(rt; quiet.fits());
    if quiet.fits() {
        assert!(rt; outgoing.push(quiet).is_ok() && joins(&mut outgoing, alloc, 2, &[]));
    }
    assert_eq!(rt; outgoing.without_wait(), 1);
    let wide = Message {
        stream: 128,
        ..report(alloc, 1, &[])?
    };
    assert!(rt; !wide.fits());
    Ok(())
}

// The character of an input, and 0 where it has none.
fn character(input: NodeInput<'_, u8>) -> u8 {
    match input {
        NodeInput::Char(byte) => byte,
        NodeInput::Time => 0,
        NodeInput::Command(byte) => *byte,
    }
}

#[test]
fn holds_a_step(rt: HostRuntime) -> Result<(), Fail> {
    let alloc = rt.alloc();
    let mut out = StepOut {
        line: ArrayVec::new(),
        notes: Row::new(alloc),
    };
    out.line.push(character(NodeInput::Char(5)));
    out.line.push(character(NodeInput::Time));
    out.line.push(character(NodeInput::Command(&6)));
    out.notes.push(Note {
        text: Row::new(alloc),
        before_change: false,
    })?;
    assert_eq!(rt; out.line.as_slice(), b"\x05\x00\x06".as_slice());
    assert_eq!(rt; out.notes.len(), 1);
    Ok(())
}
