//! The first messages of a file are dropped: some, all, more than there are, and where a call of the disk fails.

use crate::drop_messages;
use disk_base::{Disk, MemDisk};
use gl_base::MemSink;
use spool_show::{SpoolEnd, show_spool};
use spool_slots::{Raw, Spool, Stored};
use std::alloc::Global;

// A file of four slots with the messages 0, 1 and 2.
fn three(alloc: Global) -> Option<MemDisk> {
    let Ok(disk) = MemDisk::new(alloc, spool_file::area_end(4), 1000, 1 << 20) else {
        return None;
    };
    let Ok(spool) = Raw::new(disk).format(4) else {
        return None;
    };
    let spool = put(put(put(Some(spool))))?;
    Some(spool.retire().into_disk())
}

fn put(spool: Option<Spool<MemDisk>>) -> Option<Spool<MemDisk>> {
    let message = Stored {
        stream: 6,
        function: 11,
        body: &[1, 0],
    };
    match spool?.stage(&message) {
        Ok(staged) => staged.seal().ok(),
        Err(_) => None,
    }
}

// Whether so many are dropped, and this is left.
fn drops(alloc: Global, disk: &mut MemDisk, count: u32, text: &[u8], left: &[u8]) -> bool {
    let (Ok(mut out), Ok(mut list)) = (MemSink::new(alloc, 100), MemSink::new(alloc, 200)) else {
        return false;
    };
    drop_messages(disk, "JOURNAL", count, &mut out) == SpoolEnd::Done
        && out.bytes() == text
        && show_spool(disk, "JOURNAL", &mut list) == SpoolEnd::Done
        && list.bytes() == left
}

fn drops_from_the_front(alloc: Global) -> bool {
    let Some(mut disk) = three(alloc) else {
        return false;
    };
    drops(
        alloc,
        &mut disk,
        2,
        b"dropped 2\n",
        b"spool slots=4 mark=0 len=1\n2 S6F11 W 0100\n",
    ) && drops(
        alloc,
        &mut disk,
        5,
        b"dropped 1\n",
        b"spool slots=4 mark=0 len=0\n",
    ) && drops(
        alloc,
        &mut disk,
        1,
        b"dropped 0\n",
        b"spool slots=4 mark=0 len=0\n",
    )
}

// Where a call fails the messages that were dropped by then are off, from the front, and nothing is written; where none
// does, all are.
fn stays_whole(alloc: Global, call: u32) -> bool {
    let Some(mut disk) = three(alloc) else {
        return false;
    };
    let (Ok(mut out), Ok(mut list)) = (MemSink::new(alloc, 100), MemSink::new(alloc, 200)) else {
        return false;
    };
    disk.fail_at(call);
    let ended = drop_messages(&mut disk, "JOURNAL", 3, &mut out);
    disk.fail_at(0);
    let told: &[u8] = match ended {
        SpoolEnd::Done => b"dropped 3\n",
        SpoolEnd::DiskFailed => b"",
        _ => return false,
    };
    out.bytes() == told
        && show_spool(&mut disk, "JOURNAL", &mut list) == SpoolEnd::Done
        && is_left(list.bytes(), told.is_empty())
}

// Whether this is the list without some of its first messages; where the drops have ended, without all.
fn is_left(list: &[u8], failed: bool) -> bool {
    let none = b"spool slots=4 mark=0 len=0\n".as_slice();
    let one = b"spool slots=4 mark=0 len=1\n2 S6F11 W 0100\n".as_slice();
    let two = b"spool slots=4 mark=0 len=2\n1 S6F11 W 0100\n2 S6F11 W 0100\n".as_slice();
    let three =
        b"spool slots=4 mark=0 len=3\n0 S6F11 W 0100\n1 S6F11 W 0100\n2 S6F11 W 0100\n".as_slice();
    list == none || failed && (list == one || list == two || list == three)
}

#[test]
fn the_first_messages_are_dropped(rt: HostRuntime) {
    assert!(rt; drops_from_the_front(rt.alloc()));
}

#[test]
fn each_call_may_fail(rt: HostRuntime) {
    for call in 1..60 {
        assert!(rt; stays_whole(rt.alloc(), call));
    }
}
