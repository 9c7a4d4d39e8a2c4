//! A disk in memory, which tells all that a crash may leave, and can be cut there.

ghost use Rattle.std.specs.Prelude.{◌≡◌, ◌+◌, ◌^◌, ◌<◌, ◌≤◌, ◌&&◌, ◌||◌, nat_le, nat_lt, false};
ghost use Rattle.std.specs.Prelude.{Option, Some, List, [], ◌∷◌, ◌++◌, length, replicate, refl, All, IfOk};
ghost use Rattle.disk_base.specs.Calls.{DiskCall, Logs, attach_call, read_call, sync_call, write_call};
ghost use Rattle.disk_base.specs.Cut.{image_of, marks_at, marks_of, settled_bytes};
ghost use Rattle.disk_base.specs.Disk.{Attaches, HasSize, Reads, Syncs, TellsBytes, Writes};
ghost use Rattle.disk_base.specs.Faults.{GoesAsListed, HasCause, IsLeftOut};
ghost use Rattle.disk_base.specs.Images.{IsImage};
ghost use Rattle.disk_base.specs.Listed.{AsListed};
ghost use Rattle.disk_base.specs.MemDisk.{after_attaching, after_call, after_cut, answer_of, answer_planned, call_due};
ghost use Rattle.disk_base.specs.MemDisk.{HasFitted, disk_health, disk_size, disk_with, spare_now};
ghost use Rattle.disk_base.specs.MemDisk.{next_attach, next_read, next_sync, next_write};
ghost use Rattle.disk_base.specs.MemDisk.{faults_after as counted};
ghost use Rattle.disk_base.specs.declared.cut.CutChoice.{CutChoice};
ghost use Rattle.disk_base.specs.declared.disk.DiskAnswer.TheVariants.{Failed};
ghost use Rattle.disk_base.specs.SizeLaws.{told_size};

use crate::attached::AttachedFile;
use crate::cut::{CutChoice, left_bytes, mark_writes};
use crate::disk::{CallKind, Disk, DiskAnswer};
use crate::fault_plan::FaultPlan;
use crate::log::{LoggedCall, count_settled, replay, run_call};
use crate::no_memory::NoMemory;
use std::alloc::Global;
use std::marker::Model;

/// A disk in memory. It takes all its memory when it is made, and is whatever file it is to attach. Its list of calls
/// has room for so many calls and so many written bytes; a call past either fails, and isn't listed. It may have room
/// to spare for the one call at which the disk is to stop. An attaching that asks for more bytes than there are fails
/// too, and is listed.
#[derive(Debug, Drop)]
pub struct MemDisk {
    // what it began with
    base: Vec<u8>,
    bytes: Vec<u8>,
    entries: Vec<LoggedCall>,
    written: Vec<u8>,
    most: usize,
    room: usize,
    spare_calls: usize,
    spare_bytes: usize,
    // how many of the calls were made before it stopped, or as it stopped
    live: usize,
    // how many of them lie before the last good sync, itself counted
    synced: usize,
    plan: FaultPlan,
    faults: u64,
    file: AttachedFile,
}

impl Model for MemDisk {
    ghost use Rattle.disk_base.specs.MemDisk.{DiskState};

    ghost Value = { DiskState };

    ghost use Rattle.disk_base.specs.Kept.{IsMemDisk, disk_state};

    ghost view = { disk_state };

    ghost invariant = { IsMemDisk };
}

impl MemDisk {
    /// A disk of `size` bytes, all 0 and settled, whose list has room for `calls` calls and `room` written bytes. No
    /// call is to fail.
    pub fn new(alloc: Global, size: u64, calls: u32, room: u64) -> Result<MemDisk, NoMemory>
        ensures { IfOk result (λ disk. disk ≡ disk_with (replicate size 0) calls room (0, 0)) }
    {
        MemDisk::with_spare(alloc, size, calls, room, (0, 0))
    }

    /// The same, and its list has room for so many calls and bytes more at the call at which the disk is to stop: so a
    /// stop can be tried also where there is no room.
    pub fn with_spare(
        alloc: Global,
        size: u64,
        calls: u32,
        room: u64,
        spare: (u32, u32),
    ) -> Result<MemDisk, NoMemory>
        ensures { IfOk result (λ disk. disk ≡ disk_with (replicate size 0) calls room spare) }
    {
        let bytes = vec![in alloc; 0; size as usize]?;
        let spare = (spare.0 as usize, spare.1 as usize);
        MemDisk::over(alloc, bytes, calls as usize, room as usize, spare)
    }

    // A disk of these bytes.
    fn over(
        alloc: Global,
        bytes: Vec<u8>,
        most: usize,
        room: usize,
        spare: (usize, usize),
    ) -> Result<MemDisk, NoMemory>
        ensures { IfOk result (λ disk. disk ≡ disk_with bytes.items most room spare) }
    {
        let (Some(calls), Some(long)) = (most.checked_add(spare.0), room.checked_add(spare.1))
        else {
            return Err(NoMemory);
        };
        let base = copy_of(alloc, bytes.as_slice())?;
        let entries = Vec::with_capacity(alloc, calls)?;
        let written = Vec::with_capacity(alloc, long)?;
        Ok(MemDisk {
            base,
            bytes,
            entries,
            written,
            most,
            room,
            spare_calls: spare.0,
            spare_bytes: spare.1,
            live: 0,
            synced: 0,
            plan: FaultPlan::new(),
            faults: 0,
            file: AttachedFile::none(),
        })
    }

    /// Plans that one call fails alone, the next one for 1, and none for 0. This replaces what was planned so before.
    /// Calls of `size` don't count, calls that aren't listed do. A write that fails as planned has changed its range.
    pub fn fail_at(&mut self, call: u32)
        ensures { self.new ≡ record self.old { plan = record self.old.plan { fail_in = call } } }
    {
        self.plan.fail_in = call;
    }

    /// Plans that the disk stops at a call, the next one for 1, and at none for 0: this call fails, and so do all that
    /// follow. This replaces what was planned so before, and wakes no disk that has stopped. A write at which the disk
    /// stops has changed its range, and no later one does. Where the call isn't listed, which then changes nothing, the
    /// disk stops at the next one that is.
    pub fn stop_at(&mut self, call: u32)
        ensures { self.new ≡ record self.old { plan = record self.old.plan { stop_in = call } } }
    {
        self.plan.stop_in = call;
    }

    /// How many calls are left up to the one at which it is to stop, itself counted, 0 for none. What is listed found
    /// room, up to the one at which the disk stopped.
    pub fn stops_in(&self) -> u32
        ensures left { result ≡ self.now.plan.stop_in }
        ensures fitted { HasFitted self.now }
    {
        self.plan.stop_in
    }

    /// Whether the call was made, and is listed, from which on all fail. Stopped or not, what is listed found room, but
    /// for that call and those behind it, and a crash leaves one of the images, whatever is chosen.
    pub fn stopped(&self) -> bool
        ensures stopped { result ≡ self.now.plan.stopped }
        ensures fitted { HasFitted self.now }
        ensures images { (choice : CutChoice) → IsImage self.now.story.now (image_of choice self.now.story) }
    {
        self.plan.stopped
    }

    /// What the call has answered that is listed last, `Done` where none is.
    pub fn last_answer(&self) -> DiskAnswer
        ensures { (front : List DiskCall) (call : DiskCall) → self.now.calls ≡ front ++ call ∷ [] →
            result ≡ call.answer }
    {
        let made = self.entries.len();
        if made == 0 {
            return DiskAnswer::Done;
        }
        self.entries[made - 1].answer
    }

    /// Whether its list has room for so many more calls, and for so many bytes that they write, without what it has to
    /// spare.
    pub fn has_room(&self, calls: u32, bytes: u64) -> bool
        ensures { result ≡ nat_le calls (disk_health self.now).calls && nat_le bytes (disk_health self.now).room }
    {
        let made = self.entries.len();
        let used = self.written.len();
        are_left(
            calls as usize,
            self.most.saturating_sub(made),
            bytes as usize,
            self.room.saturating_sub(used),
        )
    }

    /// The disk after a crash. Its bytes are settled, no call is in its list, which has as much room as this disk's
    /// had at first, none is to fail, and no fault was counted.
    pub fn cut(&self, alloc: Global, choice: CutChoice) -> Result<MemDisk, NoMemory>
        ensures state { IfOk result (λ disk. disk ≡ after_cut choice self.now) }
        ensures image { IfOk result (λ disk. IsImage self.now.story.now disk.story.now.bytes) }
    {
        let settled = self.settled(alloc)?;
        let (from, marks) = self.marks(alloc)?;
        let image = left_bytes(alloc, choice, from, &marks, &settled, &self.bytes)?;
        let spare = (self.spare_calls, self.spare_bytes);
        MemDisk::over(alloc, image, self.most, self.room, spare)
    }

    // The settled bytes.
    fn settled(&self, alloc: Global) -> Result<Vec<u8>, NoMemory>
        ensures bytes { IfOk result (λ bytes. bytes.items ≡ settled_bytes self.now.story) }
        ensures len { IfOk result (λ bytes. length bytes.items ≡ disk_size self.now) }
    {
        let mut bytes = copy_of(alloc, self.base.as_slice())?;
        replay(
            bytes.as_mut_slice(),
            &self.entries[..self.synced],
            &self.written,
        );
        Ok(bytes)
    }

    // The lowest place that was written since, and a truth value for each place from there up to the highest: whether it
    // was written.
    fn marks(&self, alloc: Global) -> Result<(usize, Vec<bool>), NoMemory>
        ensures marks { IfOk result (λ marked. marks_at (disk_size self.now) marked.0 marked.1.items
            ≡ marks_of (disk_size self.now) self.now.story.now.loose) }
        ensures len { IfOk result (λ marked. marked.0 + length marked.1.items ≤ disk_size self.now) }
    {
        mark_writes(
            alloc,
            self.bytes.len(),
            &self.entries[self.synced..self.live],
        )
    }

    // Tells that its bytes are bytes, which the numbers of its view aren't by themselves.
    fn tells_bytes(&self)
        ensures { All (λ byte. byte < 256) self.now.story.now.bytes }
    {
        are_bytes(&self.bytes);
    }

    // The room beyond its bounds for the next call.
    fn spare_now(&self) -> (usize, usize)
        ensures is { result ≡ spare_now self.now }
        ensures bounds { (result.0 ≤ self.now.spare.0) × (result.1 ≤ self.now.spare.1) }
    {
        if self.plan.stops_next() {
            (self.spare_calls, self.spare_bytes)
        } else {
            (0, 0)
        }
    }

    // Makes a call that lies within the disk.
    fn call(&mut self, kind: CallKind, at: u64, size: u64, bytes: &[u8]) -> DiskAnswer
        requires { at + length bytes.now ≤ disk_size self.old }
        ensures range { self.old.faults < 2 ^ 64 }
        ensures answer { result ≡ answer_of (call_due kind at size bytes.now self.old) self.old }
        ensures state { self.new ≡ after_call (call_due kind at size bytes.now self.old) self.old }
    {
        let spare = self.spare_now();
        let room = (self.room + spare.1).saturating_sub(self.written.len());
        if is_crowded(self.entries.len(), self.most + spare.0, room, bytes.len()) {
            self.plan.refuse();
            self.faults = self.faults.saturating_add(1);
            return DiskAnswer::Failed;
        }
        let stopped = self.plan.stopped;
        let planned = self.plan.step();
        let answer = judge(kind, size, self.bytes.len() as u64, planned);
        let count = bytes.len();
        let entry = LoggedCall {
            kind,
            at,
            size,
            count,
            answer,
        };
        self.entries.push(entry).unwrap();
        self.written.extend_from_slice(bytes).unwrap();
        self.faults = faults_after(answer, self.faults);
        if stopped {
            return answer;
        }
        self.live += 1;
        self.synced = count_settled(kind, answer, self.synced, self.live);
        run_call(self.bytes.as_mut_slice(), kind, at as usize, bytes);
        answer
    }
}

// A copy of these bytes, made at once; `to_vec` would go over them one by one.
fn copy_of(alloc: Global, bytes: &[u8]) -> Result<Vec<u8>, NoMemory>
    ensures { IfOk result (λ copy. copy.items ≡ bytes.now) }
{
    let mut copy = Vec::with_capacity(alloc, bytes.len())?;
    copy.extend_from_slice(bytes)?;
    Ok(copy)
}

// Tells that the elements of a slice of bytes are bytes.
fn are_bytes(bytes: &[u8])
    ensures { All (λ byte. byte < 256) bytes.now }
{
    let _ = bytes;
}

// What a call answers for which the list has room, on a disk of so many bytes.
fn judge(kind: CallKind, size: u64, held: u64, planned: DiskAnswer) -> DiskAnswer
    ensures { result ≡ answer_planned kind size held planned }
{
    match kind {
        CallKind::Attach if size > held => DiskAnswer::Failed,
        CallKind::Attach | CallKind::Read | CallKind::Write | CallKind::Sync => planned,
    }
}

// Whether a list has room for so many calls and bytes.
fn are_left(calls: usize, calls_left: usize, n: usize, room: usize) -> bool
    ensures { result ≡ nat_le calls calls_left && nat_le n room }
{
    calls <= calls_left && n <= room
}

// Whether a list has no room for one more call that writes n bytes.
fn is_crowded(calls: usize, most: usize, room: usize, n: usize) -> bool
    ensures crowded { result ≡ nat_le most calls || nat_lt room n }
    ensures fits { result ≡ false → (calls < most) × (n ≤ room) }
{
    calls >= most || n > room
}

// The count of faults after a call with this answer.
fn faults_after(answer: DiskAnswer, faults: u64) -> u64
    ensures { result ≡ counted answer faults }
{
    match answer {
        DiskAnswer::Done => faults,
        DiskAnswer::Failed => faults.saturating_add(1),
    }
}

impl Disk for MemDisk {
    ghost told = { λ s. Some s.story };

    ghost calls = { λ s. Some s.calls };

    ghost size_is = { disk_size };

    ghost health = { disk_health };

    ghost name = { λ s. 0 };

    ghost file_is = { λ s. s.file };

    ghost sized = { λ s story is. told_size s story is };

    ghost calls_told = { λ s story is. (s.calls, refl) };

    fn attach(&mut self, file: &str, grow: u64) -> DiskAnswer
        ensures told { Attaches grow (Some self.old.story) (Some self.new.story) }
        ensures bytes { TellsBytes (Some self.new.story) }
        ensures size { HasSize grow (disk_size self.new) result }
        ensures calls { Logs (attach_call grow) (IsLeftOut (disk_health self.old) (disk_health self.new) 0 0)
            (Some self.old.calls) (Some self.new.calls) result }
        ensures cause { HasCause (disk_health self.old) (disk_health self.new) 1 0 (disk_size self.old < grow) result }
        ensures answer { result ≡ answer_of (next_attach grow self.old) self.old }
        ensures state { self.new ≡ after_attaching file.now (next_attach grow self.old) self.old }
    {
        let answer = self.call(CallKind::Attach, 0, grow, &[]);
        self.tells_bytes();
        match answer {
            DiskAnswer::Done => self.file = AttachedFile::of(file.as_bytes()),
            DiskAnswer::Failed => {}
        }
        answer
    }

    fn size(&self) -> u64
        ensures { result ≡ disk_size self.now }
    {
        self.bytes.len() as u64
    }

    fn read(&mut self, at: u64, into: &mut [u8]) -> DiskAnswer
        requires { at + length into.old ≤ disk_size self.old }
        ensures bytes { Reads (Some self.old.story) at into.new result }
        ensures told { Some self.new.story ≡ Some self.old.story }
        ensures size { disk_size self.new ≡ disk_size self.old }
        ensures calls { Logs (read_call at (length into.old))
            (IsLeftOut (disk_health self.old) (disk_health self.new) 0 0)
            (Some self.old.calls) (Some self.new.calls) result }
        ensures listed { GoesAsListed (disk_health self.old) →
            AsListed (Some self.old.story) (Some self.old.calls) (Some self.new.story) (Some self.new.calls) }
        ensures cause { HasCause (disk_health self.old) (disk_health self.new) 1 0 ⊥ result }
        ensures answer { result ≡ answer_of (next_read at (length into.old) self.old) self.old }
        ensures state { self.new ≡ after_call (next_read at (length into.old) self.old) self.old }
        ensures kept { result ≡ Failed → into.new ≡ into.old }
    {
        let answer = self.call(CallKind::Read, at, into.len() as u64, &[]);
        match answer {
            DiskAnswer::Done => {
                let at = at as usize;
                into.copy_from_slice(&self.bytes[at..at + into.len()]);
            }
            DiskAnswer::Failed => {}
        }
        answer
    }

    fn write(&mut self, at: u64, bytes: &[u8]) -> DiskAnswer
        requires { at + length bytes.now ≤ disk_size self.old }
        ensures told { Writes (Some self.old.story) at bytes.now (Some self.new.story) result }
        ensures size { disk_size self.new ≡ disk_size self.old }
        ensures calls { Logs (write_call at bytes.now)
            (IsLeftOut (disk_health self.old) (disk_health self.new) 0 (length bytes.now))
            (Some self.old.calls) (Some self.new.calls) result }
        ensures listed { GoesAsListed (disk_health self.old) →
            AsListed (Some self.old.story) (Some self.old.calls) (Some self.new.story) (Some self.new.calls) }
        ensures cause { HasCause (disk_health self.old) (disk_health self.new) 1 (length bytes.now)
            ((disk_health self.old).room < length bytes.now) result }
        ensures answer { result ≡ answer_of (next_write at bytes.now self.old) self.old }
        ensures state { self.new ≡ after_call (next_write at bytes.now self.old) self.old }
    {
        self.call(CallKind::Write, at, bytes.len() as u64, bytes)
    }

    fn sync(&mut self) -> DiskAnswer
        ensures told { Syncs (Some self.old.story) (Some self.new.story) result }
        ensures size { disk_size self.new ≡ disk_size self.old }
        ensures calls { Logs sync_call (IsLeftOut (disk_health self.old) (disk_health self.new) 0 0)
            (Some self.old.calls) (Some self.new.calls) result }
        ensures listed { GoesAsListed (disk_health self.old) →
            AsListed (Some self.old.story) (Some self.old.calls) (Some self.new.story) (Some self.new.calls) }
        ensures cause { HasCause (disk_health self.old) (disk_health self.new) 1 0 ⊥ result }
        ensures answer { result ≡ answer_of (next_sync self.old) self.old }
        ensures state { self.new ≡ after_call (next_sync self.old) self.old }
    {
        self.call(CallKind::Sync, 0, 0, &[])
    }
}
