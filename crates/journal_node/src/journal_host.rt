//! The host over the disk of its journal.

ghost use Rattle.std.specs.Prelude.{◌≡◌, ◌+◌, ◌≤◌, ◌<◌, ◌^◌, [], IfOk, Some};
ghost use Rattle.disk_base.specs.MemDisk.{HasFitted};
ghost use Rattle.disk_base.specs.Story.{Story};
ghost use Rattle.line_end.specs.Plan.{HostPlanFits};
ghost use Rattle.line_end.specs.Step.{is_due};
ghost use Rattle.message_end.specs.Calls.{deadline_of_end};
ghost use Rattle.message_end.specs.Ends.{IsEmpty, MayTake, input_of};
ghost use Rattle.spool_file.specs.File.{file_in};
ghost use Rattle.trace_log.specs.Commands.{HostCommandFits};
ghost use Rattle.journal_node.specs.Amid.{Acts, ListsHeld, StartsOn, StartsOver, StartsWith};
ghost use Rattle.journal_node.specs.Causes.{IsEndedByCause, IsStartSpentByCause};
ghost use Rattle.journal_node.specs.Held.{IsIn, IsReady, Moves};
ghost use Rattle.journal_node.specs.Starting.{Begins, CallsInStart, FindsFile, KeepsSure, StartHandsBack, UpgradesOnce};
ghost use Rattle.journal_node.specs.Starting.{starting_by};
ghost use Rattle.journal_node.specs.Stepping.{BreaksBy, CallsInStep, StepHandsBack};

use crate::disk_step::{list, reserve};
use disk_base::{Disk, MemDisk};
use gem_spool::GemSpool;
use host_node::{Host, HostCommand, HostEnded, HostPlan};
use line_end::Phase;
use message_end::End;
use message_flow::{NodeInput, StepOut};
use spool_file::NotSpool;
use spool_slots::{Raw, Recovering, Spent, Spool};
use std::alloc::Global;
use std::marker::Model;
use trace_log::equipment_started_note;

/// The host with a journal: an end of the line that lists each S5F1, S6F11 and S10F1 which it takes in a file, before
/// it answers it or sends anything else. All that was listed is found again at its next start.
#[derive(Drop)]
pub struct JournalHost<D: Disk> {
    host: Host,
    journal: GemSpool<D>,
}

impl<D: Disk> Model for JournalHost<D> {
    ghost use Rattle.host_node.specs.contracts.host.Host as host_code;
    ghost use Rattle.journal_node.specs.Held.{Held, IsReady, held_code};

    ghost Value = { Held D };

    ghost coded = { held_code host_code.the_row.coded D.code };

    ghost view = { λ inside. record { host = inside.host; journal = inside.journal } };

    ghost invariant = { λ inside. IsReady inside.journal.spool inside.host };
}

/// Why a host with a journal didn't start. Its device is handed back.
#[derive(Debug, Drop)]
pub enum JournalStarting<D> {
    /// Memory was wanting for the host. The file is of version 2 then, and its mark is moved.
    NoMemory(Spent<D>),
    /// The device's bytes stand for no journal: the first place at which they break. Nothing was written.
    NotSpool(Raw<D>, NotSpool),
    /// A call of the disk failed.
    DiskFailed(Spent<D>),
    /// No system bytes are left. The file is of version 2 then.
    NumbersSpent(Spent<D>),
}

/// Why a host with a journal has stopped in a step. Its device is handed back, and keeps all that was listed.
#[derive(Debug, Drop)]
pub enum JournalEnded<D> {
    /// Memory ran out. The mark may be moved; nothing was listed in the step.
    NoMemory(Spent<D>),
    /// The disk failed. The works before that call are done, and the one that it is of is done or not.
    DiskFailed(Spent<D>),
    /// No system bytes are left, or no number for a record that has room.
    NumbersSpent(Spent<D>),
    /// What was delivered has no room in the journal: its record has more than 1,048,576 bytes, or takes more slots
    /// than are free.
    JournalFull(Spent<D>),
}

impl<D: Disk> JournalHost<D> {
    /// A start: the journal is taken up from its device and made one of version 2, and system bytes are reserved there.
    /// The plan must fit. The disk's calls are a sync, a read of what is in front of the slots, those of the slots, the
    /// four of an upgrade where the file is of version 1, and those five that move the mark, up to the first that
    /// fails. `NotSpool` comes exactly where the bytes stand for no journal. `NumbersSpent` comes where the mark of the
    /// file can't move on, and nowhere else, and no start goes on there. Whether the disk tells its bytes or not, it is
    /// handed back with its file, and counts a fault where the answer is `DiskFailed` and nowhere else. A disk of which
    /// no call is to fail stays such.
    pub fn start(
        alloc: Global,
        plan: HostPlan,
        raw: Raw<D>,
        now: u64,
        out: &mut StepOut,
    ) -> Result<JournalHost<D>, JournalStarting<D>>
        requires plan { HostPlanFits plan }
        requires out { IsEmpty out.old }
        ensures begins { (s : Story) → D.told raw.disk ≡ Some s → Begins D.Disk plan s out.new result }
        ensures spent { (s : Story) → D.told raw.disk ≡ Some s → IsStartSpentByCause (file_in s.now.bytes) result }
        ensures calls { (s : Story) → D.told raw.disk ≡ Some s → CallsInStart D.Disk raw.disk s.now.bytes result }
        ensures finds { (s : Story) → D.told raw.disk ≡ Some s → FindsFile s result }
        ensures disk { StartHandsBack D.Disk raw.disk result }
        ensures keeps { IfOk result (λ h. KeepsSure D.Disk raw.disk h.journal.spool.disk) }
    {
        match raw.recover() {
            Ok(spool) => start_over(alloc, plan, spool, now, out),
            Err(unknown) => Err(why_not(unknown)),
        }
    }

    /// One step. On an ending the notes keep what was noted before it, and no character is written. All that the disk
    /// is asked in a step is done before its characters are sent: system bytes are reserved where fewer than 128 are
    /// left, and what was delivered is listed; its calls are those of these works, in their order, up to the first that
    /// fails, and no others. `JournalFull` comes where what was delivered has no room in the journal, `NumbersSpent`
    /// where it needs more system bytes and the mark can't move on, or where a record that has room has no number; and
    /// neither elsewhere. The disk is handed back as by a start. Where a planned call stops the disk, what is noted and
    /// what a crash leaves then is what that call comes to.
    pub fn step(
        self,
        alloc: Global,
        input: NodeInput<'_, HostCommand>,
        now: u64,
        out: &mut StepOut,
    ) -> Result<JournalHost<D>, JournalEnded<D>>
        requires now { now < 2 ^ 62 }
        requires input { MayTake HostCommandFits (input_of input) }
        requires out { IsEmpty out.old }
        ensures moves { IsIn D.Disk self → Moves D.Disk self (input_of input.entry) now out.new result }
        ensures calls { IsIn D.Disk self → CallsInStep D.Disk self (input_of input.entry) now result }
        ensures causes { IsIn D.Disk self → IsEndedByCause D.Disk self (input_of input.entry) now result }
        ensures breaks { IsIn D.Disk self →
            BreaksBy D.Disk self (input_of input.entry) now out.new.notes result }
        ensures disk { StepHandsBack D.Disk self.journal.spool.disk result }
    {
        let JournalHost { mut host, journal } = self;
        match reserve(alloc, &mut host, journal) {
            Ok(journal) => act(alloc, host, journal, input, now, out),
            Err(ended) => Err(ended),
        }
    }

    /// When the host next acts by itself: the least moment of the line's, of T4 and of T3.
    pub fn deadline(&self) -> Option<u64>
        ensures { result ≡ deadline_of_end self.now.host.core }
    {
        self.host.deadline()
    }

    /// The phase of its line.
    pub fn phase(&self) -> Phase
        ensures { result ≡ self.now.host.core.line.phase }
    {
        self.host.phase()
    }

    /// Whether the timer of its line is due.
    pub fn is_late(&self, now: u64) -> bool
        ensures { result ≡ is_due self.now.host.core.line.deadline now }
    {
        self.host.is_late(now)
    }

    /// Gives the device back as it is.
    pub fn power_off(self) -> Spent<D>
        ensures { result.disk ≡ self.journal.spool.disk }
    {
        self.journal.retire()
    }
}

impl JournalHost<MemDisk> {
    /// Plans that the disk stops at a call, the next one for 1, and at none for 0.
    pub fn arm(&mut self, call: u32)
        ensures { self.new ≡ record self.old {
          journal = record self.old.journal {
            spool = record self.old.journal.spool {
              disk = record self.old.journal.spool.disk {
                plan = record self.old.journal.spool.disk.plan {
                  stop_in = call;
                };
              };
            };
          };
        } }
    {
        self.journal.arm(call);
    }

    /// How many calls are left up to the one at which its disk is to stop, itself counted, 0 for none. What is listed
    /// found room, up to the one at which the disk stopped.
    pub fn stops_in(&self) -> u32
        ensures left { result ≡ self.now.journal.spool.disk.plan.stop_in }
        ensures fitted { HasFitted self.now.journal.spool.disk }
    {
        self.journal.stops_in()
    }
}

// A step that has system bytes enough: the host makes its own, and what it has delivered is listed. Where that isn't
// listed nothing is sent.
fn act<D: Disk>(
    alloc: Global,
    host: Host,
    journal: GemSpool<D>,
    input: NodeInput<'_, HostCommand>,
    now: u64,
    out: &mut StepOut,
) -> Result<JournalHost<D>, JournalEnded<D>>
    requires now { now < 2 ^ 62 }
    requires input { MayTake HostCommandFits (input_of input) }
    requires out { IsEmpty out.old }
    requires ready { IsReady journal.spool host }
    ensures { Acts D.Disk host journal (input_of input.entry) now out.new result }
{
    match host.step(alloc, input, now, out) {
        Ok(host) => list_delivered(alloc, host, journal, out),
        Err(HostEnded::NoMemory) => Err(JournalEnded::NoMemory(journal.retire())),
        Err(HostEnded::NumbersSpent) => Err(JournalEnded::NumbersSpent(journal.retire())),
    }
}

// Lists what the host has delivered.
fn list_delivered<D: Disk>(
    alloc: Global,
    host: Host,
    journal: GemSpool<D>,
    out: &mut StepOut,
) -> Result<JournalHost<D>, JournalEnded<D>>
    requires ready { IsReady journal.spool host }
    ensures { ListsHeld D.Disk host journal out.old out.new result }
{
    match list(alloc, &host, journal, out) {
        Ok(journal) => Ok(JournalHost { host, journal }),
        Err(ended) => {
            out.line.clear();
            Err(ended)
        }
    }
}

// Why it doesn't start.
fn why_not<D: Disk>(unknown: Recovering<D>) -> JournalStarting<D>
    ensures { result ≡ starting_by unknown }
{
    match unknown {
        Recovering::NotSpool(raw, place) => JournalStarting::NotSpool(raw, place),
        Recovering::Failed(spent) => JournalStarting::DiskFailed(spent),
    }
}

/// A start over a journal in hand that was just made or taken up: it is made one of version 2, and system bytes are
/// reserved. Its clause says which calls of the layers below it comes of.
pub fn start_over<D: Disk>(
    alloc: Global,
    plan: HostPlan,
    spool: Spool<D>,
    now: u64,
    out: &mut StepOut,
) -> Result<JournalHost<D>, JournalStarting<D>>
    requires plan { HostPlanFits plan }
    requires out { IsEmpty out.old }
    ensures { StartsOver D.Disk plan spool out.new result }
{
    match upgrade(spool) {
        Ok(spool) => start_ready(alloc, plan, GemSpool::new(spool), now, out),
        Err(spent) => Err(JournalStarting::DiskFailed(spent)),
    }
}

// Makes a journal one of version 2, where it isn't.
fn upgrade<D: Disk>(spool: Spool<D>) -> Result<Spool<D>, Spent<D>>
    ensures { UpgradesOnce D.Disk spool result }
{
    if spool.version() != 1 {
        return Ok(spool);
    }
    spool.upgrade()
}

// A start over a journal of version 2.
fn start_ready<D: Disk>(
    alloc: Global,
    plan: HostPlan,
    journal: GemSpool<D>,
    now: u64,
    out: &mut StepOut,
) -> Result<JournalHost<D>, JournalStarting<D>>
    requires plan { HostPlanFits plan }
    requires out { IsEmpty out.old }
    requires version { journal.spool.version ≡ 2 }
    ensures { StartsOn D.Disk plan journal out.new result }
{
    match journal.reserve() {
        Ok((journal, base)) => match base {
            Some(base) => start_with(alloc, plan, journal, base, now, out),
            None => Err(JournalStarting::NumbersSpent(journal.retire())),
        },
        Err(spent) => Err(JournalStarting::DiskFailed(spent)),
    }
}

// A start with the system bytes from a base on, which is noted.
fn start_with<D: Disk>(
    alloc: Global,
    plan: HostPlan,
    journal: GemSpool<D>,
    base: u32,
    now: u64,
    out: &mut StepOut,
) -> Result<JournalHost<D>, JournalStarting<D>>
    requires plan { HostPlanFits plan }
    requires out { IsEmpty out.old }
    requires numbers { base + 4096 ≤ 2 ^ 32 }
    requires version { journal.spool.version ≡ 2 }
    requires mark { journal.spool.mark ≡ base + 4096 }
    ensures { StartsWith plan journal base out.new result }
{
    let Ok(host) = Host::start_from(alloc, plan, base, now, out) else {
        return Err(JournalStarting::NoMemory(journal.retire()));
    };
    let len = u64::from(journal.len());
    match equipment_started_note(alloc, len, u64::from(base)) {
        Ok(note) => match out.notes.push(note) {
            Ok(()) => Ok(JournalHost { host, journal }),
            Err(_full) => Err(JournalStarting::NoMemory(journal.retire())),
        },
        Err(_none) => Err(JournalStarting::NoMemory(journal.retire())),
    }
}
