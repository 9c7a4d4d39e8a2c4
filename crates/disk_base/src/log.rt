//! The list of calls that a disk in memory keeps, and the bytes that come of them when they are made again.

ghost use Rattle.std.specs.Prelude.{◌≡◌, ◌+◌, ◌≤◌, [], fold, length};
ghost use Rattle.disk_base.specs.Log.{AreWithin, bytes_after, bytes_under, calls_of, settled_count};
ghost use Rattle.disk_base.specs.Story.{with_part};

use crate::disk::{CallKind, DiskAnswer};

/// A call in the log, whose written bytes stand behind those of the calls before it.
#[derive(Clone, Copy, Debug)]
pub struct LoggedCall {
    pub kind: CallKind,
    pub at: u64,
    pub size: u64,
    /// How many bytes it was to write.
    pub count: usize,
    pub answer: DiskAnswer,
}

/// Puts a part over the bytes from a place on.
pub fn put_part(bytes: &mut [u8], at: usize, part: &[u8])
    requires { at + length part.now ≤ length bytes.old }
    ensures bytes { bytes.new ≡ with_part bytes.old at part.now }
    ensures len { length bytes.new ≡ length bytes.old }
{
    bytes[at..at + part.len()].copy_from_slice(part);
}

/// Changes the bytes as a call of this kind does.
pub fn run_call(bytes: &mut [u8], kind: CallKind, at: usize, part: &[u8])
    requires { at + length part.now ≤ length bytes.old }
    ensures bytes { bytes.new ≡ bytes_under kind at part.now bytes.old }
    ensures len { length bytes.new ≡ length bytes.old }
{
    match kind {
        CallKind::Write => put_part(bytes, at, part),
        CallKind::Attach | CallKind::Read | CallKind::Sync => {}
    }
}

/// Changes the bytes as these calls do.
pub fn replay(bytes: &mut [u8], entries: &[LoggedCall], written: &[u8])
    requires { AreWithin (length bytes.old) entries.now written.now }
    ensures bytes { bytes.new ≡ fold bytes_after bytes.old (calls_of entries.now written.now) }
    ensures len { length bytes.new ≡ length bytes.old }
{
    let (mut entries, mut written) = (entries, written);
    while let [entry, more @ ..] = entries {
        let (part, rest) = written.split_at(entry.count);
        run_call(bytes, entry.kind, entry.at as usize, part);
        entries = more;
        written = rest;
    }
}

/// How many of the calls lie before the last good sync, after one more call.
pub fn count_settled(kind: CallKind, answer: DiskAnswer, before: usize, all: usize) -> usize
    ensures { result ≡ settled_count kind answer before all }
{
    match (kind, answer) {
        (CallKind::Sync, DiskAnswer::Done) => all,
        _ => before,
    }
}
