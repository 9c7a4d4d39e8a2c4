//! The first messages of a spool file are dropped, behind a recovery, and their count is written.

ghost use Rattle.std.specs.Prelude.{◌≡◌, ◌+◌, ◌++◌, ◌≤◌};
ghost use Rattle.arrayvec.specs.ArrayVec.{array_vec_len};
ghost use Rattle.gl_base.specs.Told.{sink_told};
ghost use Rattle.spool_drop.specs.Dropping.{DropsListed, DropsMessages, DropsOf, dropped_line};
ghost use Rattle.spool_drop.specs.Dropping.{WritesDropped};
ghost use Rattle.spool_show.specs.Showing.{end_of_refusal, refused_disk};
ghost use Rattle.spool_show.specs.Told.{disk_told};

use arrayvec::ArrayVec;
use disk_base::{Disk, DiskAnswer};
use gl_base::{Sink, SinkAnswer, copy_out};
use short_text::{put, put_number};
use spool_show::SpoolEnd;
use spool_slots::{Dropping, Raw, Recovering, Spent, Spool};

/// The line of a drop.
type Line = ArrayVec<u8, 40>;

/// Drops the first messages of the spool file of this name, as many as asked for, or all where there are fewer, makes a
/// file of version 1 one of version 2 before, and writes how many were dropped. The disk takes the file as it is. A
/// crash finds it as it was, or without some of these messages, from the front; where the disk failed, it has dropped
/// some of them, or none, and nothing is written. It takes no memory, and makes a read, a write and a sync
/// a message.
pub fn drop_messages<D: Disk, W: Sink>(
    disk: &mut D,
    file: &str,
    count: u32,
    out: &mut W,
) -> SpoolEnd
    ensures { DropsMessages file.now count (disk_told D.Disk disk.old disk.new)
        (sink_told W.Sink out.old out.new) result }
{
    match disk.attach(file, 0) {
        DiskAnswer::Done => drop_attached(disk, count, out),
        DiskAnswer::Failed => SpoolEnd::DiskFailed,
    }
}

// The same of a disk that has taken its file.
fn drop_attached<D: Disk, W: Sink>(disk: &mut D, count: u32, out: &mut W) -> SpoolEnd
    ensures dropped { DropsOf count (disk_told D.Disk disk.old disk.new) (sink_told W.Sink out.old out.new) result }
    ensures file { D.file_is disk.new ≡ D.file_is disk.old }
{
    match Raw::new(disk).recover() {
        Ok(spool) => match drop_listed(spool, count) {
            Ok((spool, few)) => {
                let _disk = spool.retire().into_disk();
                write_dropped(few, out)
            }
            Err(spent) => {
                let _disk = spent.into_disk();
                SpoolEnd::DiskFailed
            }
        },
        Err(refusal) => {
            let end = end_of(&refusal);
            let _disk = disk_of(refusal);
            end
        }
    }
}

// How it ends where no list is in hand.
fn end_of<D: Disk>(refusal: &Recovering<D>) -> SpoolEnd
    ensures { result ≡ end_of_refusal refusal.now }
{
    match refusal {
        Recovering::NotSpool(_, not_spool) => SpoolEnd::NotSpool(*not_spool),
        Recovering::Failed(_) => SpoolEnd::DiskFailed,
    }
}

// Gives the disk back that wasn't recovered.
fn disk_of<D: Disk>(refusal: Recovering<D>) -> D
    ensures { result ≡ refused_disk refusal }
{
    match refusal {
        Recovering::NotSpool(raw, _) => raw.into_disk(),
        Recovering::Failed(spent) => spent.into_disk(),
    }
}

// Drops the first ones of a list in hand, in a file of version 2, and tells how many these were.
fn drop_listed<D: Disk>(spool: Spool<D>, count: u32) -> Result<(Spool<D>, u32), Spent<D>>
    ensures { DropsListed D.Disk spool count result }
{
    if spool.version() != 1 {
        return drop_first(spool, count);
    }
    match spool.upgrade() {
        Ok(spool) => drop_first(spool, count),
        Err(spent) => Err(spent),
    }
}

// The same of one whose file is of version 2.
fn drop_first<D: Disk>(spool: Spool<D>, count: u32) -> Result<(Spool<D>, u32), Spent<D>>
    requires { spool.version ≡ 2 }
    ensures { DropsListed D.Disk spool count result }
{
    let few = count.min(spool.len());
    let mut spool = spool;
    for _off in 0..few {
        match spool.drop_oldest() {
            Ok(rest) => spool = rest,
            Err(Dropping::Empty(_)) => unreachable!("more were in the list"),
            Err(Dropping::Failed(spent)) => return Err(spent),
        }
    }
    Ok((spool, few))
}

// Writes how many were dropped.
fn write_dropped<W: Sink>(few: u32, out: &mut W) -> SpoolEnd
    ensures { WritesDropped few (sink_told W.Sink out.old out.new) result }
{
    let mut line = Line::new();
    put(&mut line, b"dropped ");
    put_number(&mut line, u64::from(few));
    put(&mut line, b"\n");
    match copy_out(out, &line) {
        SinkAnswer::Done => SpoolEnd::Done,
        SinkAnswer::Failed => SpoolEnd::WriteFailed,
    }
}
