//! A new spool file is made, with its line.

ghost use Rattle.std.specs.Prelude.{◌≡◌, ◌+◌, ◌<◌, ◌≤◌};
ghost use Rattle.disk_base.specs.Disk.{TellsAsBefore};
ghost use Rattle.disk_base.specs.Faults.{HasCause};
ghost use Rattle.gl_base.specs.Told.{sink_told};
ghost use Rattle.spool_show.specs.Formatting.{FormatsSpool, MakesSpool, WritesFormatted};
ghost use Rattle.spool_show.specs.Formatting.{answer_by, unformatted_disk};
ghost use Rattle.spool_show.specs.Told.{disk_told};
ghost use Rattle.spool_file.specs.Added.{OnlyAdds, WritesOrSyncs};
ghost use Rattle.spool_file.specs.Format.{StandsEmpty};
ghost use Rattle.spool_file.specs.Setup.{area_end};

use crate::lines::formatted_line;
use crate::spool_end::SpoolEnd;
use disk_base::{Disk, DiskAnswer};
use gl_base::{Sink, SinkAnswer, copy_out};
use spool_file::area_end;
use spool_slots::{Formatting, Raw};

/// Makes the file of this name the spool file of an empty list in so many slots, with mark 0, and writes how many slots
/// and bytes that takes. The disk takes the file, and is asked for these bytes and no more. It takes no memory.
pub fn format_spool<D: Disk, W: Sink>(disk: &mut D, file: &str, slots: u32, out: &mut W) -> SpoolEnd
    requires some { 1 ≤ slots }
    requires most { slots ≤ 65535 }
    ensures { FormatsSpool file.now slots (disk_told D.Disk disk.old disk.new) (sink_told W.Sink out.old out.new)
        result }
{
    match disk.attach(file, area_end(slots)) {
        DiskAnswer::Done => format_attached(disk, slots, out),
        DiskAnswer::Failed => SpoolEnd::DiskFailed,
    }
}

// The same of a disk that has taken its file.
fn format_attached<D: Disk, W: Sink>(disk: &mut D, slots: u32, out: &mut W) -> SpoolEnd
    requires some { 1 ≤ slots }
    requires most { slots ≤ 65535 }
    requires size { area_end slots ≤ D.size_is disk.old }
    ensures made { MakesSpool slots (D.told disk.new) (sink_told W.Sink out.old out.new) result }
    ensures cause { HasCause (D.health disk.old) (D.health disk.new) (slots + 34) (slots + 528384)
        ((D.health disk.old).room < slots + 528384) (answer_by result) }
    ensures file { D.file_is disk.new ≡ D.file_is disk.old }
    ensures tells { TellsAsBefore (D.told disk.old) (D.told disk.new) }
    ensures calls { OnlyAdds WritesOrSyncs (D.calls disk.old) (D.calls disk.new) }
{
    match make_file(disk, slots) {
        DiskAnswer::Done => write_formatted(slots, out),
        DiskAnswer::Failed => SpoolEnd::DiskFailed,
    }
}

// Makes the file on the disk.
fn make_file<D: Disk>(disk: &mut D, slots: u32) -> DiskAnswer
    requires some { 1 ≤ slots }
    requires most { slots ≤ 65535 }
    requires size { area_end slots ≤ D.size_is disk.old }
    ensures stands { StandsEmpty (D.told disk.new) slots result }
    ensures cause { HasCause (D.health disk.old) (D.health disk.new) (slots + 34) (slots + 528384)
        ((D.health disk.old).room < slots + 528384) result }
    ensures file { D.file_is disk.new ≡ D.file_is disk.old }
    ensures tells { TellsAsBefore (D.told disk.old) (D.told disk.new) }
    ensures calls { OnlyAdds WritesOrSyncs (D.calls disk.old) (D.calls disk.new) }
{
    match Raw::new(disk).format(slots) {
        Ok(spool) => {
            let _disk = spool.retire().into_disk();
            DiskAnswer::Done
        }
        Err(refusal) => {
            let _disk = disk_of(refusal);
            DiskAnswer::Failed
        }
    }
}

// Gives the disk back that wasn't made a file.
fn disk_of<D: Disk>(refusal: Formatting<D>) -> D
    ensures { result ≡ unformatted_disk refusal }
{
    match refusal {
        Formatting::Slots(raw) => raw.into_disk(),
        Formatting::Small { raw, .. } => raw.into_disk(),
        Formatting::Failed(spent) => spent.into_disk(),
    }
}

// Writes that it was made.
fn write_formatted<W: Sink>(slots: u32, out: &mut W) -> SpoolEnd
    requires { slots ≤ 65535 }
    ensures { WritesFormatted slots (sink_told W.Sink out.old out.new) result }
{
    match copy_out(out, &formatted_line(slots)) {
        SinkAnswer::Done => SpoolEnd::Done,
        SinkAnswer::Failed => SpoolEnd::WriteFailed,
    }
}
