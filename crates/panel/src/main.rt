//! A tool's panel over the crates as a library: its plan is a text, its spool stands on a disk in memory, and nobody is
//! at its line. It prints what the equipment does until an alarm is in the spool.
#![tactic(auto)]

use arrayvec::ArrayVec;
use disk_base::MemDisk;
use equipment_node::{Equipment, ToolCommand};
use gem_config::read_plans;
use gem_recipes::NoRecipes;
use gl_base::{Row, Side};
use message_flow::{NodeInput, StepOut};
use spool_file::area_end;
use spool_slots::Raw;
use std::io::Write;
use std::process::ExitCode;
use trace_log::put_note;

// An alarm; a try to send a block isn't made again.
const PLAN: &[u8] = b"line.rty = 0\nalarm = [{ alid = 7 }]\n";

fn main(rt: HostRuntime) -> ExitCode {
    match drive(&rt) {
        Some(_) => ExitCode::SUCCESS,
        None => ExitCode::FAILURE,
    }
}

// Starts the equipment, lets time pass until it knows that nobody answers, and sets the alarm.
fn drive(rt: &HostRuntime) -> Option<Equipment<MemDisk, NoRecipes>> {
    let plan = read_plans(rt.alloc(), PLAN).ok()?.equipment;
    if !plan.fits() {
        return None;
    }
    let mut out = StepOut {
        line: ArrayVec::new(),
        notes: Row::new(rt.alloc()),
    };
    let raw = formatted(rt)?;
    let equipment = Equipment::start(rt.alloc(), &plan, raw, NoRecipes, 0, &mut out).ok()?;
    show(rt, 0, &out)?;
    let equipment = step(rt, equipment, None, 0)?;
    let now = equipment.deadline()?;
    let equipment = step(rt, equipment, None, now)?;
    let alarm = ToolCommand::Alarm(7, true);
    step(rt, equipment, Some(&alarm), now)
}

// A disk in memory with an empty spool of four slots.
fn formatted(rt: &HostRuntime) -> Option<Raw<MemDisk>> {
    let disk = MemDisk::new(rt.alloc(), area_end(4), 1000, 1 << 20).ok()?;
    Some(Raw::new(disk).format(4).ok()?.retire().into_raw())
}

// One step, for a command or for time alone, which is shown.
fn step(
    rt: &HostRuntime,
    equipment: Equipment<MemDisk, NoRecipes>,
    command: Option<&ToolCommand>,
    moment: u64,
) -> Option<Equipment<MemDisk, NoRecipes>> {
    let now = moment.min((1 << 62) - 1);
    let input = match command {
        Some(command) if command.fits() => NodeInput::Command(command),
        _ => NodeInput::Time,
    };
    let mut out = StepOut {
        line: ArrayVec::new(),
        notes: Row::new(rt.alloc()),
    };
    let equipment = equipment.step(rt.alloc(), input, now, &mut out).ok()?;
    show(rt, now, &out)?;
    Some(equipment)
}

// Prints the lines of a step.
fn show(rt: &HostRuntime, now: u64, out: &StepOut) -> Option<()> {
    let mut lines = Row::new(rt.alloc());
    for note in out.notes.as_slice() {
        put_note(now, Side::Equipment, note, &mut lines).ok()?;
    }
    rt.stdout().write_all(lines.as_slice()).ok()
}
