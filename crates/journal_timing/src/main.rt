//! Has a host take messages of a tool again and again, each of which it lists in its journal before it answers, so that
//! a script of bench/ can time it.
#![tactic(auto)]

use arrayvec::ArrayVec;
use block_codec::{ACK, Block, ENQ, EOT, Header, frame_of};
use disk_base::{Disk, DiskAnswer};
use file_disk::FileDisk;
use gl_base::Row;
use host_node::HostPlan;
use journal_node::JournalHost;
use line_end::{LinePlan, Times};
use message_flow::{NodeInput, StepOut};
use spool_slots::Raw;
use std::alloc::Global;
use std::process::ExitCode;
use std::{env, io};

fn main(rt: HostRuntime) -> io::Result<ExitCode> {
    let mut words = env::args(&rt)?.skip(1);
    let Some(file) = words.next() else {
        return Ok(ExitCode::from(64));
    };
    let turns = words
        .next()
        .and_then(|word| word.as_str().parse::<u32>().ok())
        .unwrap_or(1);
    let length = words
        .next()
        .and_then(|word| word.as_str().parse::<u32>().ok())
        .unwrap_or(16);
    let mut disk = FileDisk::new(&rt);
    match list_again(rt.alloc(), &mut disk, file.as_str(), turns, length) {
        Some(records) => {
            println!(rt; "{records}")?;
            Ok(ExitCode::SUCCESS)
        }
        None => Ok(ExitCode::from(74)),
    }
}

// A host that takes so many messages with texts of this length, over the journal of this name. Says how many records
// are found there then.
fn list_again<D: Disk>(
    alloc: Global,
    disk: &mut D,
    file: &str,
    turns: u32,
    length: u32,
) -> Option<u32> {
    let body = vec![in alloc; b'x'; length as usize].ok()?;
    match disk.attach(file, 0) {
        DiskAnswer::Done => {}
        DiskAnswer::Failed => return None,
    }
    let mut host = started(alloc, disk)?;
    for turn in 0..turns {
        host = with_message(alloc, host, turn, &body)?;
    }
    match host.power_off().into_raw().recover() {
        Ok(journal) => Some(journal.len()),
        Err(_) => None,
    }
}

// The host at its start.
fn started<D: Disk + Drop>(alloc: Global, disk: D) -> Option<JournalHost<D>> {
    let plan = HostPlan {
        line: LinePlan {
            device: 0,
            times: Times {
                t1: 500,
                t2: 10_000,
                rty: 3,
            },
            t3: 45_000,
            t4: 45_000,
            max_body: 1_048_576,
        },
        enable: true,
    };
    if !plan.fits() {
        return None;
    }
    let mut out = StepOut {
        line: ArrayVec::new(),
        notes: Row::new(alloc),
    };
    JournalHost::start(alloc, plan, Raw::new(disk), 0, &mut out).ok()
}

// The host behind an S6F11 with this text, which has one block, and behind the acknowledgement of its reply.
fn with_message<D: Disk + Drop>(
    alloc: Global,
    host: JournalHost<D>,
    turn: u32,
    body: &[u8],
) -> Option<JournalHost<D>> {
    let header = Header {
        from_equipment: true,
        device: 0,
        wait: true,
        stream: 6,
        function: 11,
        last: true,
        number: 1,
        system: turn,
    };
    let frame = frame_of(&Block::new(header, body)?);
    // (its reply waits for the line)
    let mut line = ArrayVec::<u8, 260>::new();
    line.push(ENQ);
    line.try_extend_from_slice(frame.as_slice()).ok()?;
    line.try_extend_from_slice(&[EOT, ACK]).ok()?;
    with_characters(alloc, host, line.as_slice())
}

// The host behind a step for each of these characters.
fn with_characters<D: Disk + Drop>(
    alloc: Global,
    mut host: JournalHost<D>,
    characters: &[u8],
) -> Option<JournalHost<D>> {
    let mut out = StepOut {
        line: ArrayVec::new(),
        notes: Row::new(alloc),
    };
    for byte in characters.iter() {
        host = match host.step(alloc, NodeInput::Char(*byte), 0, &mut out) {
            Ok(host) => host,
            Err(_) => return None,
        };
        out.line.clear();
        out.notes.truncate(0);
    }
    Some(host)
}
