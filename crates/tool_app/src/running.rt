//! A tool that is run by the commands that come, over its spool file.

ghost use Rattle.std.specs.Prelude.{◌≡◌, Some};
ghost use Rattle.disk_base.specs.Disk.{TellsAsBefore, TellsBytes};
ghost use Rattle.disk_base.specs.SameDisk.{IsSameDisk};
ghost use Rattle.gl_base.specs.declared.side.Side.TheVariants as side;
ghost use Rattle.gl_base.specs.Told.{files_told, sink_told};
ghost use Rattle.spool_show.specs.Told.{disk_told};
ghost use Rattle.trace_log.specs.Log.{Happening};
ghost use Rattle.message_end.specs.Core.{Step};
ghost use Rattle.message_end.specs.Ends.{printed};
ghost use Rattle.equipment_tables.specs.Plan.{EquipmentPlanFits};
ghost use Rattle.tool_step.specs.Equipment.{EquipmentView};
ghost use Rattle.end_run.specs.Counts.{Counts, counted};
ghost use Rattle.gemline_app.specs.Filed.{bytes_told};
ghost use Rattle.gemline_app.specs.LinkTold.{ConnectsOnce, link_told};
ghost use Rattle.gemline_app.specs.LinkedEquipment.{IsTool, device_of, tool_view};
ghost use Rattle.tool_app.specs.Run.{RunsLive};
ghost use Rattle.live_teller.specs.Stages.{IsFresh};
ghost use Rattle.tool_app.specs.Tool.{FileComes, SpoolComes, ToolComes, beside_told, outcome_of_run};

use arrayvec::ArrayVec;
use disk_base::{Disk, DiskAnswer};
use end_run::{Ending, run_told};
use equipment_node::{Equipment, EquipmentPlan};
use gem_recipes::NoRecipes;
use gemline_app::{LinkedEquipment, Outcome, not_started, outcome_of_ending, plans_in};
use gl_base::{Files, Link, Row, Side, Sink};
use live_teller::{Beside, LiveTeller};
use message_flow::{Note, StepOut};
use spool_slots::Raw;
use std::alloc::Global;

/// Runs a tool by a plan in `files` and by the commands that come beside its link, over a spool file on `disk`, with
/// the hosts that call at an address. The spool is recovered before the line is listened at.
///
/// `out` gets the lines of its trace as they come, before the characters of their step are sent; behind the lines of a
/// command `ok N`, where N is its line's number, and `bad N at P` of a line that is no command; and who is at the line.
pub fn tool<F: Files, B: Beside<L>, D: Disk, L: Link, W: Sink>(
    alloc: Global,
    plan: &str,
    address: &str,
    spool: &str,
    files: &mut F,
    told: &mut LiveTeller<B>,
    disk: &mut D,
    link: &mut L,
    out: &mut W,
) -> Outcome
    requires { IsFresh told.old.reader told.old.stage }
    ensures came { ToolComes plan.now spool.now
        (beside_told B.Beside told.old.beside told.new.beside)
        (files_told F.Files files.old files.new)
        (disk_told D.Disk disk.old disk.new)
        (link_told L.Link link.old link.new)
        (sink_told W.Sink out.old out.new)
        result }
    ensures connects { ConnectsOnce side.Equipment address.now (link_told L.Link link.old link.new) }
    ensures tells { TellsAsBefore (D.told disk.old) (D.told disk.new) }
{
    match plans_in(alloc, plan, files) {
        Ok(plans) => run_file(
            alloc,
            &plans.equipment,
            address,
            spool,
            told,
            disk,
            link,
            out,
        ),
        Err(refusal) => refusal,
    }
}

// Runs it over the spool file of this name.
fn run_file<B: Beside<L>, D: Disk, L: Link, W: Sink>(
    alloc: Global,
    plan: &EquipmentPlan,
    address: &str,
    spool: &str,
    told: &mut LiveTeller<B>,
    disk: &mut D,
    link: &mut L,
    out: &mut W,
) -> Outcome
    requires plan { EquipmentPlanFits plan.now }
    requires fresh { IsFresh told.old.reader told.old.stage }
    ensures came { FileComes plan.now spool.now
        (beside_told B.Beside told.old.beside told.new.beside)
        (disk_told D.Disk disk.old disk.new)
        (link_told L.Link link.old link.new)
        (sink_told W.Sink out.old out.new)
        result }
    ensures connects { ConnectsOnce side.Equipment address.now (link_told L.Link link.old link.new) }
    ensures tells { TellsAsBefore (D.told disk.old) (D.told disk.new) }
{
    match disk.attach(spool, 0) {
        DiskAnswer::Done => run_attached(alloc, plan, address, told, disk, link, out),
        DiskAnswer::Failed => Outcome::DiskFailed,
    }
}

// The same of a disk that has taken its file. It is lent to a run that is generic in its disk, and what that gives back
// is the disk as it is then.
fn run_attached<B: Beside<L>, D: Disk, L: Link, W: Sink>(
    alloc: Global,
    plan: &EquipmentPlan,
    address: &str,
    told: &mut LiveTeller<B>,
    disk: &mut D,
    link: &mut L,
    out: &mut W,
) -> Outcome
    requires plan { EquipmentPlanFits plan.now }
    requires fresh { IsFresh told.old.reader told.old.stage }
    requires bytes { TellsBytes (D.told disk.old) }
    ensures came { SpoolComes plan.now
        (beside_told B.Beside told.old.beside told.new.beside)
        (bytes_told (disk_told D.Disk disk.old disk.new))
        (link_told L.Link link.old link.new)
        (sink_told W.Sink out.old out.new)
        result }
    ensures file { D.file_is disk.new ≡ D.file_is disk.old }
    ensures connects { ConnectsOnce side.Equipment address.now (link_told L.Link link.old link.new) }
    ensures tells { TellsAsBefore (D.told disk.old) (D.told disk.new) }
{
    let (outcome, _disk) = run_over(alloc, plan, address, told, Raw::new(disk), link, out);
    outcome
}

// Starts the tool over a device, and runs it. The device is given back.
fn run_over<B: Beside<L>, D: Disk + Drop, L: Link, W: Sink>(
    alloc: Global,
    plan: &EquipmentPlan,
    address: &str,
    told: &mut LiveTeller<B>,
    raw: Raw<D>,
    link: &mut L,
    out: &mut W,
) -> (Outcome, D)
    requires plan { EquipmentPlanFits plan.now }
    requires fresh { IsFresh told.old.reader told.old.stage }
    requires bytes { TellsBytes (D.told raw.disk) }
    ensures came { SpoolComes plan.now
        (beside_told B.Beside told.old.beside told.new.beside)
        (bytes_told (disk_told D.Disk raw.disk result.1))
        (link_told L.Link link.old link.new)
        (sink_told W.Sink out.old out.new)
        result.0 }
    ensures same_disk { IsSameDisk D.Disk raw.disk result.1 }
    ensures connects { ConnectsOnce side.Equipment address.now (link_told L.Link link.old link.new) }
{
    let mut step = StepOut {
        line: ArrayVec::new(),
        notes: Row::new(alloc),
    };
    match Equipment::start(alloc, plan, raw, NoRecipes, 0, &mut step) {
        Ok(equipment) => {
            let faults = told.beside().faults();
            let notes = step.notes.as_slice();
            let (ended, disk) = run_linked(alloc, equipment, notes, address, told, link, out);
            (outcome_of(faults < told.beside().faults(), ended), disk)
        }
        Err(why) => not_started(why),
    }
}

// Runs a tool, of whose start these are the notes.
fn run_linked<B: Beside<L>, D: Disk + Drop, L: Link, W: Sink>(
    alloc: Global,
    equipment: Equipment<D, NoRecipes>,
    notes: &[Note],
    address: &str,
    told: &mut LiveTeller<B>,
    link: &mut L,
    out: &mut W,
) -> (Ending, D)
    requires { IsFresh told.old.reader told.old.stage }
    ensures runs { IsTool D.Disk equipment → (start : Step EquipmentView Happening)
        → start.next ≡ tool_view D.Disk equipment → printed start.notes ≡ notes.now → RunsLive
        start
        (B.to_come told.old.beside)
        (D.told result.1)
        (link_told L.Link link.old link.new)
        (sink_told W.Sink out.old out.new)
        result.0 }
    ensures counts { Counts
        (counted L.Link W.Sink link.old out.old (device_of D.Disk equipment.spool.spool.disk))
        (counted L.Link W.Sink link.new out.new (device_of D.Disk result.1))
        (Some result.0) }
    ensures connects { ConnectsOnce side.Equipment address.now (link_told L.Link link.old link.new) }
{
    let mut linked = LinkedEquipment::new(equipment);
    let ended = run_told::<LinkedEquipment<D>, L, LiveTeller<B>, W>(
        alloc,
        &mut linked,
        notes,
        told,
        Side::Equipment,
        address,
        u64::MAX,
        link,
        out,
    );
    (ended, linked.into_disk())
}

// What the end of a run came to, where a read of the input has failed or none has.
fn outcome_of(input_failed: bool, ended: Ending) -> Outcome
    ensures { result ≡ outcome_of_run input_failed ended }
{
    match ended {
        Ending::LinkFailed if input_failed => Outcome::ReadFailed,
        _ => outcome_of_ending(ended),
    }
}
