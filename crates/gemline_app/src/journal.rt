//! The host with its journal, run by a script over the journal's file.

ghost use Rattle.std.specs.Prelude.{◌≡◌, Some};
ghost use Rattle.disk_base.specs.Disk.{TellsAsBefore};
ghost use Rattle.disk_base.specs.SameDisk.{IsSameDisk};
ghost use Rattle.end_run.specs.Counts.{Counts, counted};
ghost use Rattle.end_run.specs.Script.{AreTold};
ghost use Rattle.end_run.specs.Sides.{told_host};
ghost use Rattle.gl_base.specs.Told.{files_told, sink_told, source_told};
ghost use Rattle.gl_base.specs.declared.side.Side.TheVariants as side;
ghost use Rattle.journal_link.specs.Linked.{device_of};
ghost use Rattle.journal_node.specs.Held.{IsIn, disk_held, view_in};
ghost use Rattle.journal_node.specs.Journal.{JournalView};
ghost use Rattle.line_end.specs.Plan.{HostPlanFits};
ghost use Rattle.message_end.specs.Core.{Step};
ghost use Rattle.message_end.specs.Ends.{printed};
ghost use Rattle.spool_show.specs.Told.{disk_told};
ghost use Rattle.trace_log.specs.Commands.{HostCommandFits};
ghost use Rattle.trace_log.specs.Log.{Happening};
ghost use Rattle.gemline_app.specs.Filed.{bytes_told};
ghost use Rattle.gemline_app.specs.Journal.{FileRuns, JournalComes, RunsFrom, SpoolRuns, outcome_of_start, unstarted_disk};
ghost use Rattle.gemline_app.specs.LinkTold.{ConnectsOnce, link_told};
ghost use Rattle.gemline_app.specs.Linked.{outcome_of_journal};

use crate::host::outcome_of_ending;
use crate::inputs::plans_and_script;
use crate::outcome::Outcome;
use arrayvec::ArrayVec;
use disk_base::{Disk, DiskAnswer};
use end_run::{Ending, run_started};
use gl_base::{Files, Link, Row, Side, Sink, Source};
use host_node::HostPlan;
use journal_link::LinkedJournal;
use journal_node::{JournalHost, JournalStarting};
use line_schedule::Script;
use message_flow::{Note, StepOut};
use spool_slots::Raw;
use std::alloc::Global;

/// Runs the host with a journal by a plan and by the script on the input, up to so many polls, with the peer at an
/// address. The journal is recovered from its file before the line is connected.
pub(crate) fn journal_host<F: Files, R: Source, D: Disk, L: Link, W: Sink>(
    alloc: Global,
    plan: &str,
    address: &str,
    journal: &str,
    polls: u32,
    files: &mut F,
    input: &mut R,
    disk: &mut D,
    link: &mut L,
    out: &mut W,
) -> Outcome
    ensures came { JournalComes plan.now journal.now polls
        (source_told R.Source input.old input.new)
        (files_told F.Files files.old files.new)
        (disk_told D.Disk disk.old disk.new)
        (link_told L.Link link.old link.new)
        (sink_told W.Sink out.old out.new)
        result }
    ensures connects { ConnectsOnce side.Host address.now (link_told L.Link link.old link.new) }
    ensures tells { TellsAsBefore (D.told disk.old) (D.told disk.new) }
{
    match plans_and_script(alloc, Side::Host, plan, files, input) {
        Ok(inputs) => run_file(
            alloc,
            &inputs.plans.host,
            &inputs.script,
            address,
            journal,
            polls,
            disk,
            link,
            out,
        ),
        Err(refusal) => refusal,
    }
}

// Runs it by a script, over the journal's file of this name.
fn run_file<D: Disk, L: Link, W: Sink>(
    alloc: Global,
    plan: &HostPlan,
    script: &Script,
    address: &str,
    journal: &str,
    polls: u32,
    disk: &mut D,
    link: &mut L,
    out: &mut W,
) -> Outcome
    requires plan { HostPlanFits plan.now }
    requires script { AreTold told_host HostCommandFits script.now.lines }
    ensures came { FileRuns plan.now journal.now script.now.lines polls
        (disk_told D.Disk disk.old disk.new)
        (link_told L.Link link.old link.new)
        (sink_told W.Sink out.old out.new)
        result }
    ensures connects { ConnectsOnce side.Host address.now (link_told L.Link link.old link.new) }
    ensures tells { TellsAsBefore (D.told disk.old) (D.told disk.new) }
{
    match disk.attach(journal, 0) {
        DiskAnswer::Done => run_attached(alloc, plan, script, address, polls, disk, link, out),
        DiskAnswer::Failed => Outcome::DiskFailed,
    }
}

// The same of a disk that has taken its file. It is lent to a run that is generic in its disk, and what that gives back
// is the disk as it is then.
fn run_attached<D: Disk, L: Link, W: Sink>(
    alloc: Global,
    plan: &HostPlan,
    script: &Script,
    address: &str,
    polls: u32,
    disk: &mut D,
    link: &mut L,
    out: &mut W,
) -> Outcome
    requires plan { HostPlanFits plan.now }
    requires script { AreTold told_host HostCommandFits script.now.lines }
    ensures runs { SpoolRuns plan.now script.now.lines polls
        (bytes_told (disk_told D.Disk disk.old disk.new))
        (link_told L.Link link.old link.new)
        (sink_told W.Sink out.old out.new)
        result }
    ensures file { D.file_is disk.new ≡ D.file_is disk.old }
    ensures connects { ConnectsOnce side.Host address.now (link_told L.Link link.old link.new) }
    ensures tells { TellsAsBefore (D.told disk.old) (D.told disk.new) }
{
    let (outcome, _disk) = run_over(
        alloc,
        plan,
        script,
        address,
        polls,
        Raw::new(disk),
        link,
        out,
    );
    outcome
}

// Starts it over a device, and runs it by a script. The device is given back.
fn run_over<D: Disk + Drop, L: Link, W: Sink>(
    alloc: Global,
    plan: &HostPlan,
    script: &Script,
    address: &str,
    polls: u32,
    raw: Raw<D>,
    link: &mut L,
    out: &mut W,
) -> (Outcome, D)
    requires plan { HostPlanFits plan.now }
    requires script { AreTold told_host HostCommandFits script.now.lines }
    ensures runs { SpoolRuns plan.now script.now.lines polls
        (bytes_told (disk_told D.Disk raw.disk result.1))
        (link_told L.Link link.old link.new)
        (sink_told W.Sink out.old out.new)
        result.0 }
    ensures same_disk { IsSameDisk D.Disk raw.disk result.1 }
    ensures connects { ConnectsOnce side.Host address.now (link_told L.Link link.old link.new) }
{
    let mut step = StepOut {
        line: ArrayVec::new(),
        notes: Row::new(alloc),
    };
    match JournalHost::start(alloc, *plan, raw, 0, &mut step) {
        Ok(host) => {
            let (ended, disk) = run_linked(
                alloc,
                host,
                step.notes.as_slice(),
                script,
                address,
                polls,
                link,
                out,
            );
            (outcome_of_journal(ended), disk)
        }
        Err(why) => not_started(why),
    }
}

// Runs it, of whose start these are the notes.
fn run_linked<D: Disk + Drop, L: Link, W: Sink>(
    alloc: Global,
    host: JournalHost<D>,
    notes: &[Note],
    script: &Script,
    address: &str,
    polls: u32,
    link: &mut L,
    out: &mut W,
) -> (Ending, D)
    requires script { AreTold told_host HostCommandFits script.now.lines }
    ensures runs { IsIn D.Disk host → (start : Step JournalView Happening)
        → start.next ≡ view_in D.Disk host → printed start.notes ≡ notes.now → RunsFrom
        start
        script.now.lines
        polls
        (D.told result.1)
        (link_told L.Link link.old link.new)
        (sink_told W.Sink out.old out.new)
        result.0 }
    ensures counts { Counts
        (counted L.Link W.Sink link.old out.old (device_of D.Disk (disk_held host)))
        (counted L.Link W.Sink link.new out.new (device_of D.Disk result.1))
        (Some result.0) }
    ensures connects { ConnectsOnce side.Host address.now (link_told L.Link link.old link.new) }
{
    let mut linked = LinkedJournal::new(host);
    let ended = run_started::<LinkedJournal<D>, L, W>(
        alloc,
        &mut linked,
        notes,
        script,
        Side::Host,
        address,
        polls,
        link,
        out,
    );
    (ended, linked.into_disk())
}

// What a start that was refused comes to, and its device.
fn not_started<D: Disk>(why: JournalStarting<D>) -> (Outcome, D)
    ensures outcome { result.0 ≡ outcome_of_start why }
    ensures disk { result.1 ≡ unstarted_disk why }
{
    match why {
        JournalStarting::NoMemory(spent) => (Outcome::NoMemory, spent.into_disk()),
        JournalStarting::NotSpool(raw, place) => {
            (Outcome::NotSpool { at: place.at }, raw.into_disk())
        }
        JournalStarting::DiskFailed(spent) => (Outcome::DiskFailed, spent.into_disk()),
        JournalStarting::NumbersSpent(spent) => (Outcome::NumbersSpent, spent.into_disk()),
    }
}

// What the end of a run came to.
fn outcome_of_journal(ended: Ending) -> Outcome
    ensures { result ≡ outcome_of_journal ended }
{
    match ended {
        Ending::Full => Outcome::JournalFull,
        _ => outcome_of_ending(ended),
    }
}
