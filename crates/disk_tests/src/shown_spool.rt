//! `spool_show`: how a spool file is made and shown, and each end of both.

use disk_base::{MemDisk, settle};
use gl_base::MemSink;
use spool_file::NotSpool;
use spool_show::{SpoolEnd, format_spool, show_spool};
use std::alloc::Global;

// The front of a file of three slots.
const FRONT: [u8; 12] = [0x47, 0x4C, 0x53, 0x50, 0x4F, 0x4F, 0x4C, 0x31, 0, 0, 0, 3];

// An S6F11 with an empty list, number 4, and one without a body, number 5, each with its gate.
const FOURTH: [u8; 17] = [0x5A, 0, 0, 0, 0, 0, 0, 0, 4, 0x86, 11, 0, 0, 0, 2, 1, 0];

const FIFTH: [u8; 15] = [0x5A, 0, 0, 0, 0, 0, 0, 0, 5, 0x86, 11, 0, 0, 0, 0];

const LIST: &[u8] = b"spool slots=3 mark=0 len=2\n4 S6F11 W 0100\n5 S6F11 W -\n";

// Whether the file is shown so.
fn shows(alloc: Global, disk: &mut MemDisk, end: SpoolEnd, text: &[u8]) -> bool {
    match MemSink::new(alloc, 100) {
        Ok(mut out) => show_spool(disk, "SPOOL", &mut out) == end && out.bytes() == text,
        Err(_) => false,
    }
}

// A disk with the front, and the messages in their slots.
fn filled(alloc: Global) -> Option<MemDisk> {
    let Ok(mut disk) = MemDisk::new(alloc, 16384, 100, 65536) else {
        return None;
    };
    let _ = settle(&mut disk, 0, &FRONT);
    let _ = settle(&mut disk, 8192, &FOURTH);
    let _ = settle(&mut disk, 12288, &FIFTH);
    Some(disk)
}

fn shows_a_list(alloc: Global) -> bool {
    match filled(alloc) {
        Some(mut disk) => shows(alloc, &mut disk, SpoolEnd::Done, LIST),
        None => false,
    }
}

fn names_a_break(alloc: Global) -> bool {
    match MemDisk::new(alloc, 16384, 100, 65536) {
        Ok(mut disk) => {
            let not_spool = NotSpool {
                at: 0,
                got: Some(0),
            };
            shows(alloc, &mut disk, SpoolEnd::NotSpool(not_spool), b"")
        }
        Err(_) => false,
    }
}

fn fails_with_the_disk(alloc: Global) -> bool {
    match filled(alloc) {
        Some(mut disk) => {
            disk.fail_at(3);
            shows(alloc, &mut disk, SpoolEnd::DiskFailed, b"")
        }
        None => false,
    }
}

fn fails_with_the_output(alloc: Global) -> bool {
    match (filled(alloc), MemSink::new(alloc, 10)) {
        (Some(mut disk), Ok(mut out)) => {
            show_spool(&mut disk, "SPOOL", &mut out) == SpoolEnd::WriteFailed
                && out.bytes().is_empty()
        }
        _ => false,
    }
}

// Whether making a file of three slots on a disk of this size, of which this call fails, ends so with this line.
fn formats(
    alloc: Global,
    size: u64,
    failing: u32,
    room: usize,
    end: SpoolEnd,
    line: &[u8],
) -> bool {
    match (
        MemDisk::new(alloc, size, 100, 600_000),
        MemSink::new(alloc, room),
    ) {
        (Ok(mut disk), Ok(mut out)) => {
            disk.fail_at(failing);
            format_spool(&mut disk, "SPOOL", 3, &mut out) == end && out.bytes() == line
        }
        _ => false,
    }
}

const LINE: &[u8] = b"formatted slots=3 bytes=540672\n";

const EMPTY: &[u8] = b"spool slots=3 mark=0 len=0\n";

// Whether a file that was made on a disk of this size is shown as an empty one.
fn shows_what_it_made(alloc: Global, size: u64) -> bool {
    match (
        MemDisk::new(alloc, size, 100, 600_000),
        MemSink::new(alloc, 100),
    ) {
        (Ok(mut disk), Ok(mut out)) => format_spool(&mut disk, "SPOOL", 3, &mut out)
            == SpoolEnd::Done
            && out.bytes() == LINE
            && shows(alloc, &mut disk, SpoolEnd::Done, EMPTY),
        _ => false,
    }
}

#[test]
fn each_end_of_a_format(rt: HostRuntime) {
    let alloc = rt.alloc();
    assert!(rt; formats(alloc, 540_672, 0, 100, SpoolEnd::Done, LINE));
    assert!(rt; formats(alloc, 540_671, 0, 100, SpoolEnd::DiskFailed, b""));
    assert!(rt; formats(alloc, 540_672, 38, 100, SpoolEnd::DiskFailed, b""));
    assert!(rt; formats(alloc, 540_672, 0, 9, SpoolEnd::WriteFailed, b""));
    assert!(rt; shows_what_it_made(alloc, 600_000));
}

#[test]
fn each_end_of_a_list(rt: HostRuntime) {
    assert!(rt; shows_a_list(rt.alloc()));
    assert!(rt; names_a_break(rt.alloc()));
    assert!(rt; fails_with_the_disk(rt.alloc()));
    assert!(rt; fails_with_the_output(rt.alloc()));
}
