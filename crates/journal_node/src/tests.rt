//! The host with its journal over a disk in memory: what it lists and when, what it finds again, and how it ends.

ghost use Rattle.std.specs.Prelude.{◌<◌, ◌^◌};
ghost use Rattle.message_end.specs.Ends.{IsEmpty, MayTake, input_of};
ghost use Rattle.trace_log.specs.Commands.{HostCommandFits};

use crate::journal_host::{JournalEnded, JournalHost};
use arrayvec::ArrayVec;
use disk_base::{CutChoice, MemDisk};
use gl_base::Row;
use host_node::{HostCommand, HostPlan};
use line_end::{LinePlan, Times};
use message_flow::{NodeInput, StepOut};
use spool_file::area_end;
use spool_slots::{Raw, Spent, Spool};
use std::alloc::Global;
use std::test::Fail;

const PLAN: HostPlan = HostPlan {
    line: LinePlan {
        device: 0,
        times: Times {
            t1: 500,
            t2: 10_000,
            rty: 0,
        },
        t3: 45_000,
        t4: 45_000,
        max_body: 244,
    },
    enable: true,
};

// S6F11 without W, of an empty list, with system bytes 1.
const REPORT: &[u8] = &[
    0x0C, 0x80, 0x00, 0x06, 0x0B, 0x80, 0x01, 0x00, 0x00, 0x00, 0x01, 0x01, 0x00, 0x01, 0x14,
];

// The same with W, and system bytes 2.
const REPORT_W: &[u8] = &[
    0x0C, 0x80, 0x00, 0x86, 0x0B, 0x80, 0x01, 0x00, 0x00, 0x00, 0x02, 0x01, 0x00, 0x01, 0x95,
];

// S5F1 without W, with system bytes 3.
const ALARM: &[u8] = &[
    0x0C, 0x80, 0x00, 0x05, 0x01, 0x80, 0x01, 0x00, 0x00, 0x00, 0x03, 0x01, 0x00, 0x01, 0x0B,
];

// S10F1 without W, with system bytes 4.
const TERMINAL: &[u8] = &[
    0x0C, 0x80, 0x00, 0x0A, 0x01, 0x80, 0x01, 0x00, 0x00, 0x00, 0x04, 0x01, 0x00, 0x01, 0x11,
];

// S6F11 without W, with system bytes 5.
const LAST_REPORT: &[u8] = &[
    0x0C, 0x80, 0x00, 0x06, 0x0B, 0x80, 0x01, 0x00, 0x00, 0x00, 0x05, 0x01, 0x00, 0x01, 0x18,
];

// S6F1 without W, which no spool takes.
const TRACE: &[u8] = &[
    0x0C, 0x80, 0x00, 0x06, 0x01, 0x80, 0x01, 0x00, 0x00, 0x00, 0x06, 0x01, 0x00, 0x01, 0x0F,
];

fn nothing_yet(alloc: Global) -> StepOut
    ensures { IsEmpty result }
{
    StepOut {
        line: ArrayVec::new(),
        notes: Row::new(alloc),
    }
}

fn is_out(out: &StepOut, line: &[u8], notes: &[&[u8]]) -> bool {
    out.line.as_slice() == line
        && out.notes.len() == notes.len()
        && notes
            .iter()
            .zip(out.notes.as_slice())
            .all(|(wanted, note)| note.text.as_slice() == *wanted)
}

// A journal of so many slots, empty.
fn formatted(alloc: Global, slots: u32) -> Option<Spool<MemDisk>> {
    let Ok(disk) = MemDisk::new(alloc, area_end(slots), 4_096, 1 << 20) else {
        return None;
    };
    match Raw::new(disk).format(slots) {
        Ok(spool) => Some(spool),
        Err(_) => None,
    }
}

// A host that starts over this device, and notes this line.
fn started(alloc: Global, raw: Raw<MemDisk>, line: &[u8]) -> Option<JournalHost<MemDisk>> {
    let plan = PLAN;
    if !plan.fits() {
        return None;
    }
    let mut out = nothing_yet(alloc);
    match JournalHost::start(alloc, plan, raw, 0, &mut out) {
        Ok(host) if is_out(&out, &[], &[line]) => Some(host),
        _ => None,
    }
}

// One over a new journal of so many slots.
fn new_host(alloc: Global, slots: u32) -> Option<JournalHost<MemDisk>> {
    match formatted(alloc, slots) {
        Some(spool) => started(alloc, spool.retire().into_raw(), b"start len=0 base=0"),
        None => None,
    }
}

// The host behind the ENQ and all characters of a frame but its last one.
fn before_last(
    alloc: Global,
    host: JournalHost<MemDisk>,
    frame: &[u8],
) -> Option<JournalHost<MemDisk>> {
    let mut host = host;
    let mut out = nothing_yet(alloc);
    match host.step(alloc, NodeInput::Char(0x05), 0, &mut out) {
        Ok(next) => host = next,
        Err(_) => return None,
    }
    for &character in frame.split_at(frame.len().saturating_sub(1)).0 {
        let mut out = nothing_yet(alloc);
        match host.step(alloc, NodeInput::Char(character), 0, &mut out) {
            Ok(next) => host = next,
            Err(_) => return None,
        }
    }
    Some(host)
}

fn last_of(frame: &[u8]) -> u8 {
    match frame.last() {
        Some(&last) => last,
        None => 0,
    }
}

// The host takes a frame, and makes this of its last character.
fn takes(
    alloc: Global,
    host: Option<JournalHost<MemDisk>>,
    frame: &[u8],
    line: &[u8],
    notes: &[&[u8]],
) -> Option<JournalHost<MemDisk>> {
    let Some(host) = host else {
        return None;
    };
    let Some(host) = before_last(alloc, host, frame) else {
        return None;
    };
    let mut out = nothing_yet(alloc);
    match host.step(alloc, NodeInput::Char(last_of(frame)), 0, &mut out) {
        Ok(host) if is_out(&out, line, notes) => Some(host),
        _ => None,
    }
}

// What is found on a device: how many records, and the mark.
fn finds(spent: Spent<MemDisk>) -> Option<(u32, u64)> {
    match spent.into_raw().recover() {
        Ok(spool) => Some((spool.len(), spool.mark())),
        Err(_) => None,
    }
}

// Each of the three kinds is listed behind what the host itself notes, and before its characters; nothing else is.
fn lists_three_kinds(alloc: Global) -> bool {
    let host = new_host(alloc, 16);
    let host = takes(
        alloc,
        host,
        REPORT,
        &[0x06],
        &[b"rx S6F11 00000001 0100", b"listing 0 S6F11 W", b"listed 0"],
    );
    let host = takes(
        alloc,
        host,
        ALARM,
        &[0x06],
        &[b"rx S5F1 00000003 0100", b"listing 1 S5F1 W", b"listed 1"],
    );
    let host = takes(
        alloc,
        host,
        TERMINAL,
        &[0x06],
        &[b"rx S10F1 00000004 0100", b"listing 2 S10F1 W", b"listed 2"],
    );
    let host = takes(alloc, host, TRACE, &[0x06], &[b"rx S6F1 00000006 0100"]);
    let host = takes(
        alloc,
        host,
        REPORT_W,
        &[0x06, 0x05],
        &[
            b"rx S6F11 W 00000002 0100",
            b"sent S6F12 00000002 210100",
            b"listing 3 S6F11 W",
            b"listed 3",
        ],
    );
    match host {
        Some(host) => finds(host.power_off()) == Some((4, 4_096)),
        None => false,
    }
}

// A host that is told to disable drops what comes, and lists it.
fn lists_while_disabled(alloc: Global) -> bool {
    let Some(host) = new_host(alloc, 16) else {
        return false;
    };
    let command = HostCommand::Disable;
    let mut out = nothing_yet(alloc);
    if !command.fits() {
        return false;
    }
    let host = match host.step(alloc, NodeInput::Command(&command), 0, &mut out) {
        Ok(host) => Some(host),
        Err(_) => None,
    };
    takes(
        alloc,
        host,
        REPORT_W,
        &[0x06],
        &[
            b"rx S6F11 W 00000002 0100",
            b"dropped S6F11 W",
            b"listing 0 S6F11 W",
            b"listed 0",
        ],
    )
    .is_some()
}

// Three slots take three records. At the fourth the step ends, and sends nothing; the three are there.
fn ends_where_it_is_full(alloc: Global) -> bool {
    let host = new_host(alloc, 3);
    let host = takes(
        alloc,
        host,
        REPORT,
        &[0x06],
        &[b"rx S6F11 00000001 0100", b"listing 0 S6F11 W", b"listed 0"],
    );
    let host = takes(
        alloc,
        host,
        ALARM,
        &[0x06],
        &[b"rx S5F1 00000003 0100", b"listing 1 S5F1 W", b"listed 1"],
    );
    let host = takes(
        alloc,
        host,
        TERMINAL,
        &[0x06],
        &[b"rx S10F1 00000004 0100", b"listing 2 S10F1 W", b"listed 2"],
    );
    let Some(host) = host else {
        return false;
    };
    let Some(host) = before_last(alloc, host, LAST_REPORT) else {
        return false;
    };
    let mut out = nothing_yet(alloc);
    match host.step(alloc, NodeInput::Char(last_of(LAST_REPORT)), 0, &mut out) {
        Err(JournalEnded::JournalFull(spent)) => {
            is_out(&out, &[], &[b"rx S6F11 00000005 0100"]) && finds(spent) == Some((3, 4_096))
        }
        _ => false,
    }
}

// The disk stops at a call of the put; with these bytes a host finds so many records, and goes on with the next
// numbers.
fn finds_behind(alloc: Global, call: u32, choice: CutChoice, line: &[u8]) -> bool {
    let Some(host) = new_host(alloc, 16) else {
        return false;
    };
    let Some(mut host) = before_last(alloc, host, REPORT_W) else {
        return false;
    };
    host.arm(call);
    let mut out = nothing_yet(alloc);
    match host.step(alloc, NodeInput::Char(last_of(REPORT_W)), 0, &mut out) {
        Err(JournalEnded::DiskFailed(spent)) => {
            let noted = is_out(
                &out,
                &[],
                &[
                    b"rx S6F11 W 00000002 0100",
                    b"sent S6F12 00000002 210100",
                    b"listing 0 S6F11 W",
                ],
            );
            match spent.into_disk().cut(alloc, choice) {
                Ok(disk) => noted && started(alloc, Raw::new(disk), line).is_some(),
                Err(_) => false,
            }
        }
        _ => false,
    }
}

#[test]
fn what_is_to_be_listed_is_listed_in_its_step(rt: HostRuntime) -> Result<(), Fail> {
    assert!(rt; lists_three_kinds(rt.alloc()));
    Ok(())
}

#[test]
fn a_host_that_is_disabled_lists_what_it_drops(rt: HostRuntime) -> Result<(), Fail> {
    assert!(rt; lists_while_disabled(rt.alloc()));
    Ok(())
}

#[test]
fn a_full_journal_ends_the_step(rt: HostRuntime) -> Result<(), Fail> {
    assert!(rt; ends_where_it_is_full(rt.alloc()));
    Ok(())
}

#[test]
fn a_record_is_found_where_its_gate_was_written(rt: HostRuntime) -> Result<(), Fail> {
    assert!(rt; finds_behind(rt.alloc(), 3, CutChoice::New, b"start len=0 base=4096"));
    assert!(rt; finds_behind(rt.alloc(), 4, CutChoice::New, b"start len=1 base=4096"));
    assert!(rt; finds_behind(rt.alloc(), 4, CutChoice::Old, b"start len=0 base=4096"));
    assert!(rt; finds_behind(rt.alloc(), 5, CutChoice::New, b"start len=1 base=4096"));
    Ok(())
}
