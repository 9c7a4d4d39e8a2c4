//! A schedule carried out over a tool and its host, as a plan says.

ghost use Rattle.std.specs.Prelude.{◌≡◌, ◌≤◌, IfSome, None, Some};
ghost use Rattle.equipment_tables.specs.Plan.{PlansFit};
ghost use Rattle.gemline_app.specs.Replay.{ReplayComes, ScheduleComes, TextRuns, outcome_of_end, outcome_of_journal_end};
ghost use Rattle.gemline_app.specs.Replay.{schedule_refusal};
ghost use Rattle.gl_base.specs.Told.{files_told, sink_told};

use crate::inputs::{plans_in, whole_file};
use crate::outcome::{FileRole, Outcome};
use gl_base::{Files, Sink};
use journal_world::run as run_with_journal;
use line_schedule::{ScheduleFault, read_journal_schedule, read_schedule};
use line_world::{Plans, RunEnd, run};
use std::alloc::Global;

/// Writes the trace of a schedule over a plan, whose host has a journal of so many slots or none.
pub(crate) fn replay<F: Files, W: Sink>(
    alloc: Global,
    plan: &str,
    schedule: &str,
    journal: Option<u32>,
    files: &mut F,
    out: &mut W,
) -> Outcome
    requires some { IfSome journal (λ slots. 1 ≤ slots) }
    requires most { IfSome journal (λ slots. slots ≤ 1024) }
    ensures { ReplayComes journal plan.now schedule.now
        (files_told F.Files files.old files.new)
        (sink_told W.Sink out.old out.new)
        result }
{
    match plans_in(alloc, plan, files) {
        Ok(plans) => replay_over(alloc, &plans, schedule, journal, files, out),
        Err(refusal) => refusal,
    }
}

// Writes the trace of a schedule over these plans.
fn replay_over<F: Files, W: Sink>(
    alloc: Global,
    plans: &Plans,
    schedule: &str,
    journal: Option<u32>,
    files: &mut F,
    out: &mut W,
) -> Outcome
    requires plans { PlansFit plans.now }
    requires some { IfSome journal (λ slots. 1 ≤ slots) }
    requires most { IfSome journal (λ slots. slots ≤ 1024) }
    ensures { ScheduleComes journal plans.now schedule.now
        (files_told F.Files files.old files.new)
        (sink_told W.Sink out.old out.new)
        result }
{
    match whole_file(alloc, FileRole::Schedule, schedule, files) {
        Ok(text) => run_text(alloc, plans, text.as_slice(), journal, out),
        Err(refusal) => refusal,
    }
}

// Writes the trace of the schedule that a text means.
fn run_text<W: Sink>(
    alloc: Global,
    plans: &Plans,
    text: &[u8],
    journal: Option<u32>,
    out: &mut W,
) -> Outcome
    requires plans { PlansFit plans.now }
    requires some { IfSome journal (λ slots. 1 ≤ slots) }
    requires most { IfSome journal (λ slots. slots ≤ 1024) }
    ensures { TextRuns journal plans.now text.now
        (sink_told W.Sink out.old out.new)
        result }
{
    match journal {
        None => run_plain(alloc, plans, text, out),
        Some(slots) => run_journaled(alloc, plans, text, slots, out),
    }
}

// Writes it of a host without a journal.
fn run_plain<W: Sink>(alloc: Global, plans: &Plans, text: &[u8], out: &mut W) -> Outcome
    requires { PlansFit plans.now }
    ensures { TextRuns None plans.now text.now
        (sink_told W.Sink out.old out.new)
        result }
{
    match read_schedule(alloc, text) {
        Ok(schedule) => {
            let (end, _world) = run(alloc, plans, &schedule, out);
            outcome_of_end(end)
        }
        Err(fault) => schedule_refusal(fault),
    }
}

// Writes it of a host with a journal of so many slots.
fn run_journaled<W: Sink>(
    alloc: Global,
    plans: &Plans,
    text: &[u8],
    slots: u32,
    out: &mut W,
) -> Outcome
    requires plans { PlansFit plans.now }
    requires some { 1 ≤ slots }
    requires most { slots ≤ 1024 }
    ensures { TextRuns (Some slots) plans.now text.now
        (sink_told W.Sink out.old out.new)
        result }
{
    match read_journal_schedule(alloc, text) {
        Ok(schedule) => {
            let (end, _world) = run_with_journal(alloc, plans, slots, &schedule, out);
            outcome_of_journal_end(end)
        }
        Err(fault) => schedule_refusal(fault),
    }
}

/// What the end of a run came to, of two ends without a journal.
pub(crate) fn outcome_of_end(end: RunEnd) -> Outcome
    ensures { result ≡ outcome_of_end end }
{
    match end {
        RunEnd::Whole => Outcome::Done,
        RunEnd::Slip => Outcome::Slip,
        RunEnd::Turns => Outcome::TurnsSpent,
        RunEnd::NumbersSpent => Outcome::NumbersSpent,
        // (they have no store of their own that could be full)
        RunEnd::JournalFull | RunEnd::NoMemory => Outcome::NoMemory,
        RunEnd::WriteFailed => Outcome::WriteFailed,
    }
}

// What the end of a run came to, of a host with a journal.
fn outcome_of_journal_end(end: RunEnd) -> Outcome
    ensures { result ≡ outcome_of_journal_end end }
{
    match end {
        RunEnd::JournalFull => Outcome::JournalFull,
        _ => outcome_of_end(end),
    }
}

// The refusal of a schedule's text.
fn schedule_refusal(fault: ScheduleFault) -> Outcome
    ensures { result ≡ schedule_refusal fault }
{
    match fault {
        ScheduleFault::Line(number) => Outcome::BadLine { number },
        ScheduleFault::NoMemory => Outcome::NoMemory,
    }
}
