//! Has an equipment store a terminal's text again and again, or makes the calls for its message on the bare disk, so
//! that a script of bench/ can time both.
#![tactic(auto)]

use arrayvec::ArrayVec;
use disk_base::{Disk, DiskAnswer, MemDisk, settle};
use equipment_node::{Equipment, EquipmentPlan, ToolCommand};
use gem_recipes::NoRecipes;
use gem_remote::RemotePlan;
use gem_shapes::RuleEntry;
use gem_states::ControlState;
use gem_vars::VarsPlan;
use gl_base::{NoMemory, Row};
use line_end::{LinePlan, Times};
use message_flow::{NodeInput, StepOut};
use spool_file::{AREA, SLOT_SIZE, area_end, slot_place};
use spool_slots::Raw;
use std::alloc::Global;
use std::process::ExitCode;
use std::{env, io};

// What the disk's list has room for: calls, and written bytes.
const MOST_CALLS: u32 = 65_536;

const MOST_WRITTEN: u64 = 64 << 20;

// When the equipment gives up its first asking for the line.
const GIVES_UP: u32 = 10_000;

fn main(rt: HostRuntime) -> io::Result<ExitCode> {
    let mut words = env::args(&rt)?.skip(1);
    let Some(work) = words.next() else {
        return Ok(ExitCode::from(64));
    };
    let slots = words
        .next()
        .and_then(|word| word.as_str().parse::<u32>().ok())
        .unwrap_or(1);
    let turns = words
        .next()
        .and_then(|word| word.as_str().parse::<u32>().ok())
        .unwrap_or(1);
    let length = words
        .next()
        .and_then(|word| word.as_str().parse::<u16>().ok())
        .unwrap_or(16);
    let messages = match work.as_str() {
        "store" => store_again(rt.alloc(), slots, turns, length),
        _ => write_again(rt.alloc(), slots, turns, length),
    };
    match messages {
        Some(count) => {
            println!(rt; "{count}")?;
            Ok(ExitCode::SUCCESS)
        }
        None => Ok(ExitCode::from(74)),
    }
}

// Stores a text of this length so many times, and says how many messages are found then.
fn store_again(alloc: Global, slots: u32, turns: u32, length: u16) -> Option<u32> {
    found(disk_with(alloc, slots, turns, length)?)
}

// Stores it once, writes its message into so many slots, and says how many messages are found then.
fn write_again(alloc: Global, slots: u32, turns: u32, length: u16) -> Option<u32> {
    let mut disk = disk_with(alloc, slots, 1, length)?;
    let mut slot = first_slot(&mut disk)?;
    for number in 0..turns {
        write_message(&mut disk, number, &mut slot)?;
    }
    found(disk)
}

// The disk of an equipment that has stored a text of this length so many times in a spool of these slots.
fn disk_with(alloc: Global, slots: u32, turns: u32, length: u16) -> Option<MemDisk> {
    let command = ToolCommand::Terminal(0, text_of(alloc, length).ok()?);
    let mut equipment = spooling(alloc, slots)?;
    for _ in 0..turns {
        equipment = with_text(alloc, equipment, &command)?;
    }
    let (spent, _) = equipment.power_off();
    Some(spent.into_disk())
}

// How many messages are found on a disk.
fn found(disk: MemDisk) -> Option<u32> {
    match Raw::new(disk).recover() {
        Ok(spool) => Some(spool.len()),
        Err(_) => None,
    }
}

// An equipment that nobody answers, so that its spool is active.
fn spooling(alloc: Global, slots: u32) -> Option<Equipment<MemDisk, NoRecipes>> {
    let plan = plan(alloc).ok()?;
    if !plan.fits() {
        return None;
    }
    let mut out = StepOut {
        line: ArrayVec::new(),
        notes: Row::new(alloc),
    };
    let raw = formatted(alloc, slots)?;
    let equipment = Equipment::start(alloc, &plan, raw, NoRecipes, 0, &mut out).ok()?;
    at_moment(alloc, at_moment(alloc, equipment, 0)?, GIVES_UP)
}

// A disk with an empty spool of these slots.
fn formatted(alloc: Global, slots: u32) -> Option<Raw<MemDisk>> {
    let disk = MemDisk::new(alloc, area_end(slots), MOST_CALLS, MOST_WRITTEN).ok()?;
    match Raw::new(disk).format(slots) {
        Ok(spool) => Some(spool.retire().into_raw()),
        Err(_) => None,
    }
}

// Tries a block once, is on-line, and spools the texts of its terminal.
fn plan(alloc: Global) -> Result<EquipmentPlan, NoMemory> {
    let mut spooled = Row::new(alloc);
    spooled.push(RuleEntry {
        stream: 10,
        functions: Row::of(alloc, &[1])?,
    })?;
    Ok(EquipmentPlan {
        line: LinePlan {
            device: 0,
            times: Times {
                t1: 500,
                t2: GIVES_UP,
                rty: 0,
            },
            t3: 45_000,
            t4: 45_000,
            max_body: 1_048_576,
        },
        mdln: Row::of(alloc, b"GEMLINE")?,
        softrev: Row::of(alloc, b"1")?,
        enable: true,
        control: ControlState::Remote,
        spooled,
        vars: VarsPlan {
            variables: Row::new(alloc),
            constants: Row::new(alloc),
            built_in: [10, 1, 1, 0],
        },
        events: Row::new(alloc),
        alarms: Row::new(alloc),
        remote: RemotePlan {
            commands: Row::new(alloc),
            terminals: 1,
        },
    })
}

// A text of this length.
fn text_of(alloc: Global, length: u16) -> Result<Row<u8>, NoMemory> {
    let mut text = Row::new(alloc);
    for _ in 0..length {
        text.push(b'x')?;
    }
    Ok(text)
}

// An equipment after a step for time alone.
fn at_moment(
    alloc: Global,
    equipment: Equipment<MemDisk, NoRecipes>,
    now: u32,
) -> Option<Equipment<MemDisk, NoRecipes>> {
    let mut out = StepOut {
        line: ArrayVec::new(),
        notes: Row::new(alloc),
    };
    equipment
        .step(alloc, NodeInput::Time, u64::from(now), &mut out)
        .ok()
}

// An equipment after a step that stores the text of a command.
fn with_text(
    alloc: Global,
    equipment: Equipment<MemDisk, NoRecipes>,
    command: &ToolCommand,
) -> Option<Equipment<MemDisk, NoRecipes>> {
    if !command.fits() {
        return None;
    }
    let mut out = StepOut {
        line: ArrayVec::new(),
        notes: Row::new(alloc),
    };
    equipment
        .step(
            alloc,
            NodeInput::Command(command),
            u64::from(GIVES_UP),
            &mut out,
        )
        .ok()
}

// The bytes of the first slot.
fn first_slot(disk: &mut MemDisk) -> Option<[u8; SLOT_SIZE]> {
    if disk.size() < slot_place(1) {
        return None;
    }
    let mut slot = [0; SLOT_SIZE];
    done(disk.read(slot_place(0), &mut slot))?;
    Some(slot)
}

// Writes the message of a slot under this number into the slot for it, as a spool does: five calls. Its gate is its
// first byte: it is read first, and comes last.
fn write_message(disk: &mut MemDisk, number: u32, slot: &mut [u8; SLOT_SIZE]) -> Option<()> {
    let at = slot_place(number);
    if disk.size() < at + SLOT_SIZE as u64 {
        return None;
    }
    let mut gate = [0];
    done(disk.read(at, &mut gate))?;
    slot[1..9].copy_from_slice(&u64::from(number).to_be_bytes());
    let length = u32::from_be_bytes([slot[11], slot[12], slot[13], slot[14]]).min(AREA);
    done(settle(disk, at + 1, &slot[1..15 + length as usize]))?;
    done(settle(disk, at, &slot[..1]))
}

fn done(answer: DiskAnswer) -> Option<()> {
    match answer {
        DiskAnswer::Done => Some(()),
        DiskAnswer::Failed => None,
    }
}
