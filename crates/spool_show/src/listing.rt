//! The list of a spool file is written, a line a message.

ghost use Rattle.std.specs.Prelude.{◌≡◌, ◌+◌, ◌-◌, ◌^◌, ◌<◌, ◌≤◌, Some, IfErr, IfOk, codes};
ghost use Rattle.hex.specs.Hex.{encode_upper};
ghost use Rattle.disk_base.specs.Story.{Story};
ghost use Rattle.gl_base.specs.Told.{sink_told};
ghost use Rattle.spool_show.specs.Text.{piece_in, start_text};
ghost use Rattle.spool_show.specs.Showing.{AreInHand, AreRead, HasShown, HasStopped, IsOfList, IsSize, Puts, PutsText, ShowsFile};
ghost use Rattle.spool_show.specs.Showing.{ShowsList, ShowsSpool, end_by, end_of_refusal, line_of, list_lines};
ghost use Rattle.spool_show.specs.Showing.{piece_of, pieces_of, refused_disk};
ghost use Rattle.spool_show.specs.Told.{disk_told};
ghost use Rattle.spool_file.specs.Sizes.{slots_for as slots_of};
ghost use Rattle.spool_slots.specs.Changes.{IsListed};
ghost use Rattle.spool_slots.specs.Spool.{known_of};

use crate::lines::{LINE, put_head_line, put_piece, put_start};
use crate::spool_end::SpoolEnd;
use disk_base::{Disk, DiskAnswer};
use gl_base::{Page, Sink, SinkAnswer};
use short_text::put;
use spool_file::{AREA, SLOT_SIZE, SlotHead, slots_for};
use spool_slots::{OldestAnswer, Raw, Recovering, Spool};

/// Writes how many slots the spool file of this name has, its mark, and its list, a line a message, oldest first. The
/// disk takes the file as it is and keeps its list and mark. Where the disk or the output fails, a part of the lines
/// was written, from the front, perhaps within a line. It takes no memory, and reads each slot of a message once behind
/// a recovery.
pub fn show_spool<D: Disk, W: Sink>(disk: &mut D, file: &str, out: &mut W) -> SpoolEnd
    ensures { ShowsSpool file.now (disk_told D.Disk disk.old disk.new) (sink_told W.Sink out.old out.new) result }
{
    match disk.attach(file, 0) {
        DiskAnswer::Done => show_attached(disk, out),
        DiskAnswer::Failed => SpoolEnd::DiskFailed,
    }
}

// The same of a disk that has taken its file.
fn show_attached<D: Disk, W: Sink>(disk: &mut D, out: &mut W) -> SpoolEnd
    ensures shown { ShowsFile (disk_told D.Disk disk.old disk.new) (sink_told W.Sink out.old out.new) result }
    ensures file { D.file_is disk.new ≡ D.file_is disk.old }
{
    match Raw::new(disk).recover() {
        Ok(spool) => {
            let mut spool = spool;
            let end = show_list(&mut spool, out);
            let _disk = spool.retire().into_disk();
            end
        }
        Err(refusal) => {
            let end = end_of(&refusal);
            let _disk = disk_of(refusal);
            end
        }
    }
}

// How it ends where the device wasn't recovered.
fn end_of<D>(refusal: &Recovering<D>) -> SpoolEnd
    ensures { result ≡ end_of_refusal refusal.now }
{
    match refusal {
        Recovering::NotSpool(_, not_spool) => SpoolEnd::NotSpool(*not_spool),
        Recovering::Failed(_) => SpoolEnd::DiskFailed,
    }
}

// Gives the disk back that wasn't recovered.
fn disk_of<D: Disk>(refusal: Recovering<D>) -> D
    ensures { result ≡ refused_disk refusal }
{
    match refusal {
        Recovering::NotSpool(raw, _) => raw.into_disk(),
        Recovering::Failed(spent) => spent.into_disk(),
    }
}

// Writes the list in hand.
fn show_list<D: Disk, W: Sink>(spool: &mut Spool<D>, out: &mut W) -> SpoolEnd
    ensures shown { ShowsList (D.told spool.old.disk) (sink_told W.Sink out.old out.new) result }
    ensures read { HasShown D.Disk spool.old spool.new result }
{
    let mut page = Page::new();
    put_head_line(&mut page.bytes, spool.slots(), spool.mark(), spool.len());
    match put_list(spool, &mut page, out) {
        SpoolEnd::Done => match page.send(out) {
            SinkAnswer::Done => SpoolEnd::Done,
            SinkAnswer::Failed => SpoolEnd::WriteFailed,
        },
        stopped => stopped,
    }
}

// Puts the lines of the messages, oldest first, whose numbers have no gap. Where a disk that doesn't tell its bytes has
// no message of a number, none is put.
fn put_list<D: Disk, W: Sink>(spool: &mut Spool<D>, page: &mut Page, out: &mut W) -> SpoolEnd
    requires { AreInHand (D.told spool.old.disk) (known_of spool.old) }
    ensures read { HasShown D.Disk spool.old spool.new result }
    ensures lines { Puts (D.told spool.old.disk) list_lines
        (sink_told W.Sink out.old out.new) page.old.bytes.items page.new.bytes.items result }
{
    let mut slot = [0; SLOT_SIZE];
    let mut number = spool.first();
    let next = spool.next();
    while number < next {
        match put_next(spool, page, out, number, &mut slot) {
            Ok(size) => number += u64::from(size),
            Err(stopped) => return stopped,
        }
    }
    SpoolEnd::Done
}

// Puts the line of the message of a number, and answers how many numbers it takes.
fn put_next<D: Disk, W: Sink>(
    spool: &mut Spool<D>,
    page: &mut Page,
    out: &mut W,
    number: u64,
    slot: &mut [u8; SLOT_SIZE],
) -> Result<u32, SpoolEnd>
    requires number { number ≤ 2 ^ 63 + 65535 }
    requires rests { AreInHand (D.told spool.old.disk) (known_of spool.old) }
    requires there { (s : Story) → D.told spool.old.disk ≡ Some s → IsOfList number s.now.bytes }
    ensures read { HasShown D.Disk spool.old spool.new (end_by result) }
    ensures line { Puts (D.told spool.old.disk) (line_of number)
        (sink_told W.Sink out.old out.new) page.old.bytes.items page.new.bytes.items (end_by result) }
    ensures size { IfOk result (λ size. IsSize (D.told spool.old.disk) number size) }
    ensures stops { IfErr result HasStopped }
{
    match spool.message_at(number, slot) {
        OldestAnswer::Found(head) => match put_message(spool, page, out, &head, slot) {
            SpoolEnd::Done => Ok(slots_for(head.len)),
            stopped => Err(stopped),
        },
        OldestAnswer::Failed => Err(SpoolEnd::DiskFailed),
        OldestAnswer::Empty => Ok(1),
    }
}

// Puts the line of a message whose head and first slot were read.
fn put_message<D: Disk, W: Sink>(
    spool: &mut Spool<D>,
    page: &mut Page,
    out: &mut W,
    head: &SlotHead,
    slot: &mut [u8; SLOT_SIZE],
) -> SpoolEnd
    requires number { head.now.number ≤ 2 ^ 63 + 65535 }
    requires rests { AreInHand (D.told spool.old.disk) (known_of spool.old) }
    requires first { (s : Story) → D.told spool.old.disk ≡ Some s → AreRead head.now slot.old s }
    ensures read { HasShown D.Disk spool.old spool.new result }
    ensures line { Puts (D.told spool.old.disk) (line_of head.now.number)
        (sink_told W.Sink out.old out.new) page.old.bytes.items page.new.bytes.items result }
{
    match put_first(page, out, head, slot) {
        SpoolEnd::Done => {}
        stopped => return stopped,
    }
    match put_further(spool, page, out, head, slot) {
        SpoolEnd::Done => {}
        stopped => return stopped,
    }
    put_end(page, out)
}

// Puts what goes on of a body in further slots.
fn put_further<D: Disk, W: Sink>(
    spool: &mut Spool<D>,
    page: &mut Page,
    out: &mut W,
    head: &SlotHead,
    slot: &mut [u8; SLOT_SIZE],
) -> SpoolEnd
    requires number { head.now.number ≤ 2 ^ 63 + 65535 }
    requires rests { AreInHand (D.told spool.old.disk) (known_of spool.old) }
    requires listed { (s : Story) → D.told spool.old.disk ≡ Some s → IsListed s head.now }
    ensures read { HasShown D.Disk spool.old spool.new result }
    ensures pieces { Puts (D.told spool.old.disk)
        (pieces_of (head.now.len - 4081) (head.now.number + 1) (slots_of head.now.len - 1))
        (sink_told W.Sink out.old out.new) page.old.bytes.items page.new.bytes.items result }
{
    let mut left = head.len;
    for part in 0..slots_for(head.len) - 1 {
        left = left.saturating_sub(AREA);
        match put_part(spool, page, out, head, part + 1, left, slot) {
            SpoolEnd::Done => {}
            stopped => return stopped,
        }
    }
    SpoolEnd::Done
}

// Puts what a further slot has of a body, of which so many bytes are left.
fn put_part<D: Disk, W: Sink>(
    spool: &mut Spool<D>,
    page: &mut Page,
    out: &mut W,
    head: &SlotHead,
    part: u32,
    left: u32,
    slot: &mut [u8; SLOT_SIZE],
) -> SpoolEnd
    requires number { head.now.number ≤ 2 ^ 63 + 65535 }
    requires rests { AreInHand (D.told spool.old.disk) (known_of spool.old) }
    requires listed { (s : Story) → D.told spool.old.disk ≡ Some s → IsListed s head.now }
    requires from { 1 ≤ part }
    requires to { part < slots_of head.now.len }
    ensures read { HasShown D.Disk spool.old spool.new result }
    ensures piece { Puts (D.told spool.old.disk) (piece_of left (head.now.number + part))
        (sink_told W.Sink out.old out.new) page.old.bytes.items page.new.bytes.items result }
{
    match spool.part(head, part, slot) {
        DiskAnswer::Done => put_more(page, out, left, slot),
        DiskAnswer::Failed => SpoolEnd::DiskFailed,
    }
}

// Puts the start of a line, and a further piece of its body, by the bytes of a slot, and the end of a line.

fn put_first<W: Sink>(
    page: &mut Page,
    out: &mut W,
    head: &SlotHead,
    slot: &[u8; SLOT_SIZE],
) -> SpoolEnd
    ensures { PutsText (start_text head.now slot.now)
        (sink_told W.Sink out.old out.new) page.old.bytes.items page.new.bytes.items result }
{
    match page.make_room(out, LINE) {
        SinkAnswer::Done => put_start(&mut page.bytes, head, slot),
        SinkAnswer::Failed => return SpoolEnd::WriteFailed,
    }
    SpoolEnd::Done
}

fn put_more<W: Sink>(page: &mut Page, out: &mut W, left: u32, slot: &[u8; SLOT_SIZE]) -> SpoolEnd
    ensures { PutsText (encode_upper (piece_in left slot.now))
        (sink_told W.Sink out.old out.new) page.old.bytes.items page.new.bytes.items result }
{
    match page.make_room(out, LINE) {
        SinkAnswer::Done => put_piece(&mut page.bytes, left, slot),
        SinkAnswer::Failed => return SpoolEnd::WriteFailed,
    }
    SpoolEnd::Done
}

fn put_end<W: Sink>(page: &mut Page, out: &mut W) -> SpoolEnd
    ensures { PutsText (codes "\n")
        (sink_told W.Sink out.old out.new) page.old.bytes.items page.new.bytes.items result }
{
    match page.make_room(out, LINE) {
        SinkAnswer::Done => put(&mut page.bytes, b"\n"),
        SinkAnswer::Failed => return SpoolEnd::WriteFailed,
    }
    SpoolEnd::Done
}
