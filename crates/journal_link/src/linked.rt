//! The host with its journal as it is run over a link: it goes on, or a step has stopped it and its device is left.

ghost use Rattle.std.specs.Prelude.{◌≡◌, ◌<◌, ◌^◌, None, Some};
ghost use Rattle.end_run.specs.Counts.{StepCounts};
ghost use Rattle.end_run.specs.Scenes.{Stays};
ghost use Rattle.journal_node.specs.Held.{IsIn, disk_held, view_in};
ghost use Rattle.message_end.specs.Ends.{IsEmpty, Leaves, MayTake, Uses, input_of, none_asked};
ghost use Rattle.trace_log.specs.Commands.{HostCommandFits};
ghost use Rattle.journal_link.specs.Linked.{HoldsOne, IsGoing, IsKnown, LeavesDevice, device_by, device_of, disk_in};
ghost use Rattle.journal_link.specs.Linked.{linked_machine, linked_view, spent_by, stop_by};

use disk_base::Disk;
use end_run::LinkedEnd;
use host_node::HostCommand;
use journal_node::{JournalEnded, JournalHost};
use line_schedule::ScriptStep;
use message_end::Stop;
use message_flow::{NodeInput, StepOut};
use spool_slots::Spent;
use std::alloc::Global;

/// The host with its journal as it is run over a link: it goes on, or a step has stopped it and its device is left.
#[derive(Drop)]
pub struct LinkedJournal<D: Disk> {
    going: Option<JournalHost<D>>,
    spent: Option<Spent<D>>,
}

impl<D: Disk + Drop> LinkedEnd for LinkedJournal<D> {
    type Command = HostCommand;

    ghost use Rattle.message_end.specs.Ends.{none_asked};
    ghost use Rattle.trace_log.specs.Commands.{HostCommandFits};
    ghost use Rattle.journal_node.specs.Journal.{JournalView};
    ghost use Rattle.end_run.specs.Sides.{told_host};
    ghost use Rattle.journal_link.specs.Linked.{Fixed, HoldsOne, IsKnown, LeavesDevice, device_by, disk_in};
    ghost use Rattle.journal_link.specs.Linked.{journal_due, linked_machine, linked_view};

    ghost State = { JournalView };

    ghost means = { λ linked. linked_view D.Disk linked.going };

    ghost known = { IsKnown D.Disk };

    ghost sound = { λ linked. HoldsOne linked.going linked.spent };

    ghost takes = { HostCommandFits };

    ghost machine = { linked_machine };

    ghost left = { LeavesDevice D.Disk };

    ghost due = { journal_due };

    ghost room = { λ linked. none_asked };

    ghost Fixed = { Fixed };

    ghost device = { λ linked. device_by D.Disk (disk_in linked.going linked.spent) };

    ghost told = { told_host };

    fn step(
        &mut self,
        alloc: Global,
        input: NodeInput<'_, HostCommand>,
        now: u64,
        out: &mut StepOut,
    ) -> Result<(), Stop>
        requires now { now < 2 ^ 62 }
        requires sound { HoldsOne self.old.going self.old.spent }
        requires input { MayTake HostCommandFits (input_of input) }
        requires out { IsEmpty out.old }
        ensures step { IsGoing D.Disk self.old.going → Leaves
            (linked_machine.stops (linked_view D.Disk self.old.going) (input_of input.entry) now)
            (linked_machine.lacks_room (linked_view D.Disk self.old.going) (input_of input.entry) now)
            (linked_machine.act (linked_view D.Disk self.old.going) (input_of input.entry) now)
            (linked_view D.Disk self.new.going)
            out.new
            result }
        ensures end { IsGoing D.Disk self.old.going → Stays
            (IsKnown D.Disk)
            (LeavesDevice D.Disk)
            (linked_view D.Disk self.old.going)
            (input_of input.entry)
            now
            out.new
            self.new
            result }
        ensures room { IsGoing D.Disk self.old.going → Uses
            none_asked
            (linked_machine.asks (linked_view D.Disk self.old.going) (input_of input.entry) now)
            none_asked
            result }
        ensures device { StepCounts
            (device_by D.Disk (disk_in self.old.going self.old.spent))
            (device_by D.Disk (disk_in self.new.going self.new.spent))
            result }
        ensures sound { HoldsOne self.new.going self.new.spent }
    {
        match self.going.take() {
            Some(host) => self.step_with(alloc, host, input, now, out),
            // (a run makes no step behind one that has stopped it)
            None => Err(Stop::NoMemory),
        }
    }

    fn deadline(&self) -> Option<u64> {
        match &self.going {
            Some(host) => host.deadline(),
            None => None,
        }
    }

    fn told(step: &ScriptStep) -> Option<&HostCommand> {
        match step {
            ScriptStep::Host(command) => Some(command),
            ScriptStep::Tool(_) | ScriptStep::Stop => None,
        }
    }
}

impl<D: Disk + Drop> LinkedJournal<D> {
    /// One that has started, and goes on.
    pub fn new(host: JournalHost<D>) -> LinkedJournal<D>
        ensures { result ≡ record { going = Some host; spent = None } }
    {
        LinkedJournal {
            going: Some(host),
            spent: None,
        }
    }

    // One step, with the host that it had in hand.
    fn step_with(
        &mut self,
        alloc: Global,
        host: JournalHost<D>,
        input: NodeInput<'_, HostCommand>,
        now: u64,
        out: &mut StepOut,
    ) -> Result<(), Stop>
        requires now { now < 2 ^ 62 }
        requires gone { self.old.going ≡ None }
        requires none_left { self.old.spent ≡ None }
        requires input { MayTake HostCommandFits (input_of input) }
        requires out { IsEmpty out.old }
        ensures step { IsIn D.Disk host → Leaves
            (linked_machine.stops (view_in D.Disk host) (input_of input.entry) now)
            (linked_machine.lacks_room (view_in D.Disk host) (input_of input.entry) now)
            (linked_machine.act (view_in D.Disk host) (input_of input.entry) now)
            (linked_view D.Disk self.new.going)
            out.new
            result }
        ensures end { IsIn D.Disk host → Stays
            (IsKnown D.Disk)
            (LeavesDevice D.Disk)
            (view_in D.Disk host)
            (input_of input.entry)
            now
            out.new
            self.new
            result }
        ensures room { IsIn D.Disk host → Uses
            none_asked
            (linked_machine.asks (view_in D.Disk host) (input_of input.entry) now)
            none_asked
            result }
        ensures device { StepCounts
            (device_of D.Disk (disk_held host))
            (device_by D.Disk (disk_in self.new.going self.new.spent))
            result }
        ensures sound { HoldsOne self.new.going self.new.spent }
    {
        match host.step(alloc, input, now, out) {
            Ok(host) => {
                self.going = Some(host);
                Ok(())
            }
            Err(ended) => Err(self.stop(ended)),
        }
    }

    // A step has stopped it, and left its device.
    fn stop(&mut self, ended: JournalEnded<D>) -> Stop
        ensures why { result ≡ stop_by ended }
        ensures spent { self.new.spent ≡ Some (spent_by ended) }
        ensures going { self.new.going ≡ self.old.going }
    {
        match ended {
            JournalEnded::NoMemory(spent) => {
                self.spent = Some(spent);
                Stop::NoMemory
            }
            JournalEnded::DiskFailed(spent) => {
                self.spent = Some(spent);
                Stop::DiskFailed
            }
            JournalEnded::NumbersSpent(spent) => {
                self.spent = Some(spent);
                Stop::NumbersSpent
            }
            JournalEnded::JournalFull(spent) => {
                self.spent = Some(spent);
                Stop::Full
            }
        }
    }

    /// Gives its disk back.
    pub fn into_disk(self) -> D
        requires { HoldsOne self.going self.spent }
        ensures { disk_in self.going self.spent ≡ Some result }
    {
        let LinkedJournal { going, spent } = self;
        match going {
            Some(host) => host.power_off().into_disk(),
            None => left_disk(spent),
        }
    }
}

// The device that was left.
fn left_disk<D: Disk>(spent: Option<Spent<D>>) -> D
    requires { HoldsOne None spent }
    ensures { disk_in None spent ≡ Some result }
{
    match spent {
        Some(spent) => spent.into_disk(),
        None => unreachable!(),
    }
}
