//! The host with its journal over a disk in memory.

ghost use Rattle.std.specs.Prelude.{◌≡◌, ◌<◌, ◌^◌};
ghost use Rattle.filed_end.specs.Breaking.{Breaks, Moves};
ghost use Rattle.journal_node.specs.Held.{view_in};
ghost use Rattle.journal_node.specs.Works.{losses};
ghost use Rattle.message_end.specs.Ends.{IsEmpty, MayTake, input_of};
ghost use Rattle.trace_log.specs.Commands.{HostCommandFits};
ghost use Rattle.journal_end.specs.Filed.{CanStep, MayHold, ended_by, form, stop_at_start};

use disk_base::{Disk, MemDisk};
use filed_end::{Ended, FiledEnd, InMemory};
use gl_base::NoMemory;
use host_node::{HostCommand, HostPlan};
use journal_node::{JournalEnded, JournalHost, JournalStarting, start_over};
use line_end::Phase;
use message_end::Stop;
use message_flow::{NodeInput, StepOut};
use spool_slots::{Raw, Spool};
use std::alloc::Global;

/// The host with its journal on a disk in memory.
#[derive(Drop)]
pub struct JournalOnDisk {
    host: JournalHost<MemDisk>,
}

/// The host with its journal as an end of a world: as long as it has power, and what a start anew begins with.
pub type JournalEnd = InMemory<JournalOnDisk>;

impl FiledEnd for JournalOnDisk {
    type Plan = HostPlan;

    type Command = HostCommand;

    ghost use Rattle.std.specs.Prelude.{refl};
    ghost use Rattle.host_node.specs.Host.{end_plan};
    ghost use Rattle.journal_end.specs.Filed.{CanStep, MayHold, form as journal_form};
    ghost use Rattle.journal_end.specs.Standing.{rests-so, stands-so};
    ghost use Rattle.journal_node.proofs.Lawful.{journal_lawful};
    ghost use Rattle.journal_node.specs.Journal.{JournalView};
    ghost use Rattle.journal_node.specs.Law.{DidOf};
    ghost use Rattle.line_end.specs.Plan.{HostPlanFits};
    ghost use Rattle.message_end.specs.Calls.{deadline_of_end};
    ghost use Rattle.trace_log.specs.Commands.{HostCommandFits};

    ghost State = { JournalView };

    ghost form = { journal_form ⟦<MemDisk as Disk>⟧ };

    ghost can_step = { CanStep ⟦<MemDisk as Disk>⟧ };

    ghost may_hold = { MayHold };

    ghost fits = { HostPlanFits };

    ghost takes = { HostCommandFits };

    ghost plan_of = { end_plan };

    ghost did = { DidOf };

    ghost due = { λ s. deadline_of_end s.node.core };

    ghost restarts = { λ s now. refl };

    ghost stands = { stands-so };

    ghost rests = { rests-so };

    ghost lawful = { λ plan file fits may. journal_lawful plan file fits };

    fn copy_plan(alloc: Global, plan: &HostPlan) -> Result<HostPlan, NoMemory> {
        Ok(*plan)
    }

    fn start_over(
        alloc: Global,
        plan: &HostPlan,
        spool: Spool<MemDisk>,
        out: &mut StepOut,
    ) -> Result<JournalOnDisk, Stop> {
        // (that it stands as it says is told by the call that counts its messages)
        let _ = spool.len();
        match start_over(alloc, *plan, spool, 0, out) {
            Ok(host) => {
                // (asked for nothing but what the list of its disk says)
                let _ = host.stops_in();
                Ok(JournalOnDisk { host })
            }
            Err(why) => Err(stop_at_start(&why)),
        }
    }

    fn start_anew(
        alloc: Global,
        plan: &HostPlan,
        disk: MemDisk,
        now: u64,
        out: &mut StepOut,
    ) -> Result<JournalOnDisk, Stop> {
        match JournalHost::start(alloc, *plan, Raw::new(disk), now, out) {
            Ok(host) => {
                // (asked for nothing but what the list of its disk says)
                let _ = host.stops_in();
                Ok(JournalOnDisk { host })
            }
            Err(why) => Err(stop_at_start(&why)),
        }
    }

    fn step(
        self,
        alloc: Global,
        input: NodeInput<'_, HostCommand>,
        now: u64,
        out: &mut StepOut,
    ) -> Result<JournalOnDisk, Ended<MemDisk>>
        requires now { now < 2 ^ 62 }
        requires can { CanStep ⟦<MemDisk as Disk>⟧ self }
        requires input { MayTake HostCommandFits (input_of input) }
        requires out { IsEmpty out.old }
        ensures moves { Moves
            (form ⟦<MemDisk as Disk>⟧)
            (CanStep ⟦<MemDisk as Disk>⟧)
            self
            (input_of input.entry)
            now
            out.new
            result }
        ensures breaks { Breaks
            (form ⟦<MemDisk as Disk>⟧)
            ⟦<MemDisk as Disk>⟧
            MayHold
            self
            (losses (view_in ⟦<MemDisk as Disk>⟧ self.host) (input_of input.entry) now)
            out.new.notes
            result }
    {
        match self.host.step(alloc, input, now, out) {
            Ok(host) => {
                // (asked for nothing but what the list of its disk says)
                let _ = host.stops_in();
                Ok(JournalOnDisk { host })
            }
            Err(ended) => Err(left_by(ended)),
        }
    }

    fn arm(&mut self, call: u32) {
        self.host.arm(call);
    }

    fn into_disk(self) -> MemDisk {
        self.host.power_off().into_disk()
    }

    fn deadline(&self) -> Option<u64> {
        self.host.deadline()
    }

    fn phase(&self) -> Phase {
        self.host.phase()
    }

    fn is_late(&self, now: u64) -> bool {
        self.host.is_late(now)
    }
}

// Why it has stopped, with its disk.
fn left_by(ended: JournalEnded<MemDisk>) -> Ended<MemDisk>
    ensures { result ≡ ended_by ended }
{
    match ended {
        JournalEnded::NoMemory(_) => Ended::NoMemory,
        JournalEnded::DiskFailed(spent) => Ended::DiskFailed(spent.into_disk()),
        JournalEnded::NumbersSpent(spent) => Ended::NumbersSpent(spent.into_disk()),
        JournalEnded::JournalFull(spent) => Ended::Full(spent.into_disk()),
    }
}

// Why it doesn't start.
fn stop_at_start(why: &JournalStarting<MemDisk>) -> Stop
    ensures { result ≡ stop_at_start why.now }
{
    match why {
        JournalStarting::NumbersSpent(_) => Stop::NumbersSpent,
        // (the list of its disk's calls has no memory for them, or for looking at the file)
        JournalStarting::NoMemory(_)
        | JournalStarting::NotSpool(_, _)
        | JournalStarting::DiskFailed(_) => Stop::NoMemory,
    }
}
