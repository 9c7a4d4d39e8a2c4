//! Steps over a disk that stops at one of their calls: what was noted by then, and what a crash leaves.

ghost use Rattle.message_end.specs.Ends.{MayTake, input_of};
ghost use Rattle.trace_log.specs.Commands.{ToolCommandFits};

use crate::planned_tool::{formatted, starts};
use crate::played_host::{WHOLE, block, keeps, nothing_yet};
use block_codec::frame_of;
use disk_base::{CutChoice, MemDisk};
use equipment_node::{Ended, Equipment};
use gem_recipes::NoRecipes;
use gem_spool::GemSpool;
use gl_base::Row;
use message_flow::{NodeInput, StepOut};
use spool_slots::{Raw, Spent, Stored};
use std::alloc::Global;
use std::test::Fail;
use trace_log::ToolCommand;

// What the equipment is given over a spool of two slots.
#[derive(Clone, Copy)]
enum Act {
    // An alarm, over one message: its report is stored.
    Store,
    // The same over two messages: the first one leaves for it.
    Overwrite,
    // S6F23 with RSDC 1, over two messages.
    Purge,
    // S6F23 with RSDC 0, over two messages.
    Unload,
    // The same over one message that takes two slots.
    UnloadLong,
    // The same, and then the reply to the first message.
    Confirm,
    // Time, where few system bytes are left.
    Reserve,
    // S2F37, which enables event 1: that is kept.
    Keep,
}

// The disk stops at this call of the act: what its step has noted by then, and what is found after a crash with the old
// bytes and with the new ones: the number of the oldest message, how many there are, and the mark.
struct Loss {
    call: u32,
    notes: &'static [u8],
    old: (u64, u32, u64),
    new: (u64, u32, u64),
}

// (the first call of a put is the look at the gate of its slot)
static STORES: [Loss; 5] = [
    Loss {
        call: 1,
        notes: b"alarm 7 set\nstoring 1 S5F1 W\n",
        old: (0, 1, 4096),
        new: (0, 1, 4096),
    },
    Loss {
        call: 2,
        notes: b"alarm 7 set\nstoring 1 S5F1 W\n",
        old: (0, 1, 4096),
        new: (0, 1, 4096),
    },
    Loss {
        call: 3,
        notes: b"alarm 7 set\nstoring 1 S5F1 W\n",
        old: (0, 1, 4096),
        new: (0, 1, 4096),
    },
    Loss {
        call: 4,
        notes: b"alarm 7 set\nstoring 1 S5F1 W\n",
        old: (0, 1, 4096),
        new: (0, 2, 4096),
    },
    Loss {
        call: 5,
        notes: b"alarm 7 set\nstoring 1 S5F1 W\n",
        old: (0, 1, 4096),
        new: (0, 2, 4096),
    },
];

// (the first call of a drop is the read of the message's length)
static OVERWRITES: [Loss; 8] = [
    Loss {
        call: 1,
        notes: b"alarm 7 set\nleaving 0 overwritten\n",
        old: (0, 2, 4096),
        new: (0, 2, 4096),
    },
    Loss {
        call: 2,
        notes: b"alarm 7 set\nleaving 0 overwritten\n",
        old: (0, 2, 4096),
        new: (1, 1, 4096),
    },
    Loss {
        call: 3,
        notes: b"alarm 7 set\nleaving 0 overwritten\n",
        old: (0, 2, 4096),
        new: (1, 1, 4096),
    },
    Loss {
        call: 4,
        notes: b"alarm 7 set\nleaving 0 overwritten\ngone 0\nstoring 2 S5F1 W\n",
        old: (1, 1, 4096),
        new: (1, 1, 4096),
    },
    Loss {
        call: 5,
        notes: b"alarm 7 set\nleaving 0 overwritten\ngone 0\nstoring 2 S5F1 W\n",
        old: (1, 1, 4096),
        new: (1, 1, 4096),
    },
    Loss {
        call: 6,
        notes: b"alarm 7 set\nleaving 0 overwritten\ngone 0\nstoring 2 S5F1 W\n",
        old: (1, 1, 4096),
        new: (1, 1, 4096),
    },
    Loss {
        call: 7,
        notes: b"alarm 7 set\nleaving 0 overwritten\ngone 0\nstoring 2 S5F1 W\n",
        old: (1, 1, 4096),
        new: (1, 2, 4096),
    },
    Loss {
        call: 8,
        notes: b"alarm 7 set\nleaving 0 overwritten\ngone 0\nstoring 2 S5F1 W\n",
        old: (1, 1, 4096),
        new: (1, 2, 4096),
    },
];

// (the floor is above all messages then, and an empty list begins with it)
static PURGES: [Loss; 5] = [
    Loss {
        call: 1,
        notes: b"rx S6F23 W 00000009 A50101\nleaving 0 purged\n",
        old: (0, 2, 4096),
        new: (0, 2, 4096),
    },
    Loss {
        call: 2,
        notes: b"rx S6F23 W 00000009 A50101\nleaving 0 purged\n",
        old: (0, 2, 4096),
        new: (0, 2, 4096),
    },
    Loss {
        call: 3,
        notes: b"rx S6F23 W 00000009 A50101\nleaving 0 purged\n",
        old: (0, 2, 4096),
        new: (0, 2, 4096),
    },
    Loss {
        call: 4,
        notes: b"rx S6F23 W 00000009 A50101\nleaving 0 purged\n",
        old: (0, 2, 4096),
        new: (2, 0, 4096),
    },
    Loss {
        call: 5,
        notes: b"rx S6F23 W 00000009 A50101\nleaving 0 purged\n",
        old: (0, 2, 4096),
        new: (2, 0, 4096),
    },
];

static UNLOADS: [Loss; 1] = [Loss {
    call: 1,
    notes: b"rx S6F23 W 00000009 A50100\nsent S6F24 00000009 210100\n",
    old: (0, 2, 4096),
    new: (0, 2, 4096),
}];

// (a read of each slot)
static LONG_UNLOADS: [Loss; 2] = [
    Loss {
        call: 1,
        notes: b"rx S6F23 W 00000009 A50100\nsent S6F24 00000009 210100\n",
        old: (0, 1, 4096),
        new: (0, 1, 4096),
    },
    Loss {
        call: 2,
        notes: b"rx S6F23 W 00000009 A50100\nsent S6F24 00000009 210100\n",
        old: (0, 1, 4096),
        new: (0, 1, 4096),
    },
];

// (the first call is the read of the first message, and the next one that of its length)
static CONFIRMS: [Loss; 4] = [
    Loss {
        call: 2,
        notes: b"rx S5F2 00000001 210100\nleaving 0 confirmed\n",
        old: (0, 2, 4096),
        new: (0, 2, 4096),
    },
    Loss {
        call: 3,
        notes: b"rx S5F2 00000001 210100\nleaving 0 confirmed\n",
        old: (0, 2, 4096),
        new: (1, 1, 4096),
    },
    Loss {
        call: 4,
        notes: b"rx S5F2 00000001 210100\nleaving 0 confirmed\n",
        old: (0, 2, 4096),
        new: (1, 1, 4096),
    },
    Loss {
        call: 5,
        notes: b"rx S5F2 00000001 210100\nleaving 0 confirmed\ngone 0\n",
        old: (1, 1, 4096),
        new: (1, 1, 4096),
    },
];

static RESERVES: [Loss; 5] = [
    Loss {
        call: 1,
        notes: b"",
        old: (0, 1, 4096),
        new: (0, 1, 4096),
    },
    Loss {
        call: 2,
        notes: b"",
        old: (0, 1, 4096),
        new: (0, 1, 4096),
    },
    Loss {
        call: 3,
        notes: b"",
        old: (0, 1, 4096),
        new: (0, 1, 4096),
    },
    Loss {
        call: 4,
        notes: b"",
        old: (0, 1, 4096),
        new: (0, 1, 8192),
    },
    Loss {
        call: 5,
        notes: b"",
        old: (0, 1, 4096),
        new: (0, 1, 8192),
    },
];

// What some steps have come to: they go on, or the disk has failed in one of them, with what that one has noted, or
// something else has.
#[derive(Drop)]
enum Course {
    Goes(Equipment<MemDisk, NoRecipes>),
    Failed(Spent<MemDisk>, Row<u8>),
    Stuck,
}

// One message more, with this body.
fn stored_behind(spool: GemSpool<MemDisk>, body: &[u8]) -> Option<GemSpool<MemDisk>> {
    let message = Stored {
        stream: 5,
        function: 1,
        body,
    };
    match spool.put(&message) {
        Ok((after, _)) => Some(after),
        Err(_) => None,
    }
}

// A spool of two slots with one message or two.
fn stored(alloc: Global, count: u32) -> Option<GemSpool<MemDisk>> {
    let first = match formatted(alloc, 2) {
        Some(spool) => stored_behind(spool, &[]),
        None => None,
    };
    match first {
        Some(spool) if count > 1 => stored_behind(spool, &[]),
        other => other,
    }
}

// The same with one message for which both slots are needed.
fn stored_long(alloc: Global) -> Option<GemSpool<MemDisk>> {
    match formatted(alloc, 2) {
        Some(spool) => stored_behind(spool, &[0; 4_082]),
        None => None,
    }
}

// What a step has noted, where it sends nothing.
fn noted(alloc: Global, out: &StepOut) -> Option<Row<u8>> {
    let mut text = Row::new(alloc);
    if out.line.is_empty() && keeps(&mut text, out) {
        return Some(text);
    }
    None
}

// The disk has failed in a step.
fn failed(alloc: Global, spent: Spent<MemDisk>, out: &StepOut) -> Course {
    match noted(alloc, out) {
        Some(text) => Course::Failed(spent, text),
        None => Course::Stuck,
    }
}

// One step.
fn steps(
    alloc: Global,
    equipment: Equipment<MemDisk, NoRecipes>,
    input: NodeInput<'_, ToolCommand>,
) -> Course
    requires { MayTake ToolCommandFits (input_of input) }
{
    let mut out = nothing_yet(alloc);
    match equipment.step(alloc, input, 0, &mut out) {
        Ok(equipment) => Course::Goes(equipment),
        Err(Ended::DiskFailed(spent, _)) => failed(alloc, spent, &out),
        Err(_) => Course::Stuck,
    }
}

// One step more.
fn goes_on(alloc: Global, course: Course, input: NodeInput<'_, ToolCommand>) -> Course
    requires { MayTake ToolCommandFits (input_of input) }
{
    match course {
        Course::Goes(equipment) => steps(alloc, equipment, input),
        other => other,
    }
}

// It takes these characters.
fn takes(alloc: Global, course: Course, characters: &[u8]) -> Course {
    let mut course = course;
    for &character in characters {
        course = goes_on(alloc, course, NodeInput::Char(character));
    }
    course
}

// What a host sends that lets it send so many blocks that it asks for, and sends a block then.
fn characters(
    alloc: Global,
    blocks: u32,
    name: (u8, u8, bool),
    system: u32,
    body: &[u8],
) -> Option<Row<u8>> {
    let block = block(name, system, WHOLE, body)?;
    let mut characters = Row::new(alloc);
    for _ in 0..blocks {
        characters.extend(&[0x04, 0x06]).ok()?;
    }
    characters.push(0x05).ok()?;
    characters.extend(frame_of(&block).as_slice()).ok()?;
    Some(characters)
}

// Its host lets it send so many blocks that it asks for, and sends a block then.
fn hears(
    alloc: Global,
    course: Course,
    blocks: u32,
    name: (u8, u8, bool),
    system: u32,
    body: &[u8],
) -> Course {
    match characters(alloc, blocks, name, system, body) {
        Some(characters) => takes(alloc, course, characters.as_slice()),
        None => Course::Stuck,
    }
}

// A start over a spool.
fn started_over(alloc: Global, spool: GemSpool<MemDisk>) -> Course {
    match starts(alloc, spool.retire().into_raw(), NoRecipes) {
        Some((equipment, _)) => Course::Goes(equipment),
        None => Course::Stuck,
    }
}

// It starts over what was stored.
fn started(alloc: Global, spool: Option<GemSpool<MemDisk>>) -> Course {
    match spool {
        Some(spool) => goes_on(alloc, started_over(alloc, spool), NodeInput::Time),
        None => Course::Stuck,
    }
}

// Over this the communication is established, and the tool on-line.
fn online(alloc: Global, spool: Option<GemSpool<MemDisk>>) -> Course {
    let accepted = &[0x01, 0x02, 0x21, 0x01, 0x00, 0x01, 0x00];
    let course = hears(alloc, started(alloc, spool), 1, (1, 14, false), 0, accepted);
    let course = hears(alloc, course, 0, (1, 17, true), 7, &[]);
    takes(alloc, course, &[0x04, 0x06])
}

// Its tool does something.
fn commanded(alloc: Global, course: Course, command: &ToolCommand) -> Course {
    if !command.fits() {
        return Course::Stuck;
    }
    goes_on(alloc, course, NodeInput::Command(command))
}

// Its communication is disabled, and enabled: S1F13 draws one of its system bytes then.
fn enabled_again(alloc: Global, course: Course) -> Course {
    let course = commanded(alloc, course, &ToolCommand::Disable);
    commanded(alloc, course, &ToolCommand::Enable)
}

// It has few system bytes left: 127 of 4,096, the first of which its start has drawn.
fn worn(alloc: Global) -> Course {
    let mut course = started(alloc, stored(alloc, 1));
    for _ in 0..3_968 {
        course = enabled_again(alloc, course);
    }
    course
}

// Its disk stops at a call.
fn armed(course: Course, call: u32) -> Course {
    match course {
        Course::Goes(mut equipment) => {
            equipment.arm(call);
            Course::Goes(equipment)
        }
        other => other,
    }
}

// An alarm is set.
fn alarmed(alloc: Global, course: Course) -> Course {
    commanded(alloc, course, &ToolCommand::Alarm(7, true))
}

// S6F23 with this code.
fn asked(alloc: Global, course: Course, code: u8) -> Course {
    hears(alloc, course, 0, (6, 23, true), 9, &[0xA5, 0x01, code])
}

fn acts(alloc: Global, act: Act, call: u32) -> Course {
    match act {
        Act::Store => alarmed(alloc, armed(online(alloc, stored(alloc, 1)), call)),
        Act::Overwrite => alarmed(alloc, armed(online(alloc, stored(alloc, 2)), call)),
        Act::Purge => asked(alloc, armed(online(alloc, stored(alloc, 2)), call), 1),
        Act::Unload => asked(alloc, armed(online(alloc, stored(alloc, 2)), call), 0),
        Act::UnloadLong => asked(alloc, armed(online(alloc, stored_long(alloc)), call), 0),
        Act::Confirm => {
            let course = asked(alloc, armed(online(alloc, stored(alloc, 2)), call), 0);
            hears(alloc, course, 2, (5, 2, false), 1, &[0x21, 0x01, 0x00])
        }
        Act::Reserve => goes_on(alloc, armed(worn(alloc), call), NodeInput::Time),
        Act::Keep => {
            let course = armed(online(alloc, stored(alloc, 1)), call);
            let enabling = &[0x01, 0x02, 0x25, 0x01, 0x01, 0x01, 0x00];
            hears(alloc, course, 0, (2, 37, true), 9, enabling)
        }
    }
}

// Whether this is found on a disk.
fn is_found(disk: MemDisk, wanted: (u64, u32, u64)) -> bool {
    match Raw::new(disk).recover() {
        Ok(spool) => {
            spool.first() == wanted.0 && spool.len() == wanted.1 && spool.mark() == wanted.2
        }
        Err(_) => false,
    }
}

// Whether a crash leaves this.
fn leaves(alloc: Global, disk: &MemDisk, choice: CutChoice, wanted: (u64, u32, u64)) -> bool {
    match disk.cut(alloc, choice) {
        Ok(cut) => is_found(cut, wanted),
        Err(_) => false,
    }
}

fn loses(alloc: Global, act: Act, loss: &Loss) -> bool {
    match acts(alloc, act, loss.call) {
        Course::Failed(spent, notes) => {
            let disk = spent.into_disk();
            notes.as_slice() == loss.notes
                && leaves(alloc, &disk, CutChoice::Old, loss.old)
                && leaves(alloc, &disk, CutChoice::New, loss.new)
        }
        Course::Goes(_) | Course::Stuck => false,
    }
}

// Whether an act is done without this call.
fn goes_without(alloc: Global, act: Act, call: u32) -> bool {
    matches!(acts(alloc, act, call), Course::Goes(_))
}

// Whether a start over what a crash leaves notes this.
fn starts_with(alloc: Global, disk: &MemDisk, choice: CutChoice, notes: &[u8]) -> bool {
    let Ok(cut) = disk.cut(alloc, choice) else {
        return false;
    };
    match starts(alloc, Raw::new(cut), NoRecipes) {
        Some((_, out)) => noted(alloc, &out).is_some_and(|text| text.as_slice() == notes),
        None => false,
    }
}

// Whether the disk stops at this call of a keep behind its first line, and what is kept then is found from the write of
// its gate on.
fn loses_setup(alloc: Global, call: u32) -> bool {
    let Course::Failed(spent, notes) = acts(alloc, Act::Keep, call) else {
        return false;
    };
    let disk = spent.into_disk();
    let kept: &[u8] = if call > 6 {
        b"start len=1 base=4096\nsetup 1\n"
    } else {
        b"start len=1 base=4096\n"
    };
    let noted: &[u8] = b"rx S2F37 W 00000009 01022501010100\nkeeping S2F37 W\n";
    notes.as_slice() == noted
        && starts_with(alloc, &disk, CutChoice::Old, b"start len=1 base=4096\n")
        && starts_with(alloc, &disk, CutChoice::New, kept)
}

// Whether these are all its losses: one call more is made of none.
fn lose_all(alloc: Global, act: Act, losses: &[Loss]) -> bool {
    let mut next = 0;
    for loss in losses {
        if !loses(alloc, act, loss) {
            return false;
        }
        next = loss.call.saturating_add(1);
    }
    goes_without(alloc, act, next)
}

#[test]
fn a_report_is_stored(rt: HostRuntime) -> Result<(), Fail> {
    assert!(rt; lose_all(rt.alloc(), Act::Store, &STORES));
    Ok(())
}

#[test]
fn a_report_takes_the_place_of_the_oldest(rt: HostRuntime) -> Result<(), Fail> {
    assert!(rt; lose_all(rt.alloc(), Act::Overwrite, &OVERWRITES));
    Ok(())
}

#[test]
fn all_messages_leave(rt: HostRuntime) -> Result<(), Fail> {
    assert!(rt; lose_all(rt.alloc(), Act::Purge, &PURGES));
    Ok(())
}

#[test]
fn a_message_is_read(rt: HostRuntime) -> Result<(), Fail> {
    assert!(rt; lose_all(rt.alloc(), Act::Unload, &UNLOADS));
    Ok(())
}

#[test]
fn a_message_is_read_slot_by_slot(rt: HostRuntime) -> Result<(), Fail> {
    assert!(rt; lose_all(rt.alloc(), Act::UnloadLong, &LONG_UNLOADS));
    Ok(())
}

#[test]
fn a_message_is_confirmed(rt: HostRuntime) -> Result<(), Fail> {
    assert!(rt; lose_all(rt.alloc(), Act::Confirm, &CONFIRMS));
    Ok(())
}

#[test]
fn a_setup_is_kept(rt: HostRuntime) -> Result<(), Fail> {
    for call in 1..9 {
        assert!(rt; loses_setup(rt.alloc(), call));
    }
    assert!(rt; goes_without(rt.alloc(), Act::Keep, 9));
    Ok(())
}

#[test]
fn system_bytes_are_reserved(rt: HostRuntime) -> Result<(), Fail> {
    assert!(rt; lose_all(rt.alloc(), Act::Reserve, &RESERVES));
    Ok(())
}
