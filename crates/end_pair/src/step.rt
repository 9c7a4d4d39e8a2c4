//! An end's start, a step of it on the line, and its start anew.

ghost use Rattle.std.specs.Prelude.{◌≡◌, ◌<◌, ◌≤◌, ◌+◌, ◌-◌, ◌^◌, ◌++◌, ◌∷◌, ◌&&◌, ℕ, false, IfOk, OnErr, OnOk};
ghost use Rattle.disk_base.specs.declared.cut.CutChoice.{CutChoice};
ghost use Rattle.gl_base.specs.declared.side.Side.{Side};
ghost use Rattle.line_end.specs.Step.{is_due};
ghost use Rattle.line_way.specs.Kept.{IsSlipOf, direction_to, gathered_with_next, makes_slip_in};
ghost use Rattle.message_end.specs.Ends.{MayTake, Opens, input_of, reach_behind};
ghost use Rattle.std.specs.List.{flat_map};
ghost use Rattle.message_end.specs.Core.{step_in};
ghost use Rattle.trace_log.specs.Log.Entry.{Slipped};
ghost use Rattle.trace_log.specs.Log.Happening.{Power};
ghost use Rattle.trace_log.specs.Text.{entry_text, note_line, note_of, text_of};
ghost use Rattle.end_pair.specs.declared.answers.WorldStep.TheVariants as answer;
ghost use Rattle.end_pair.specs.Kept.{IfLeft, IfWent, IsPowered, PutPart, Puts, gone};
ghost use Rattle.end_pair.specs.Steps.{entries_of, gives, slip_of, spent_for, stepped, stopped_for};

use crate::answers::WorldStep;
use crate::putting::{put_notes, put_step};
use arrayvec::ArrayVec;
use disk_base::CutChoice;
use gl_base::{NoMemory, Row, Side};
use line_way::{Slip, Ways};
use message_end::{End, Stop};
use message_flow::{NodeInput, Note, StepOut};
use std::alloc::Global;
use trace_log::{notes_are_lines, power_note, put_note, put_slip};

/// An end starts, and the line of that is put.
pub(crate) fn start_end<E: End>(
    alloc: Global,
    side: Side,
    plan: &E::Plan,
    store: E::Store,
    lines: &mut Row<u8>,
) -> Result<E, NoMemory>
    requires fits { E.fits plan.now }
    requires store { E.holds store }
    requires opens { Opens (E.start plan.now store) }
    ensures end { IfOk result (λ end. E.means end ≡ (step_in (E.start plan.now store)).next) }
    ensures sound { IfOk result (λ end. E.sound end) }
    ensures reach { IfOk result (λ end. E.reach end ≡ reach_behind (E.machine.first_use (E.means end))) }
    ensures going { IfOk result (λ end. E.stopped end ≡ false) }
    ensures lines { OnOk result (lines.new
        ≡ lines.old ++ text_of (entries_of side 0 (step_in (E.start plan.now store)).notes)) }
    ensures part { OnErr result (PutPart
        (text_of (entries_of side 0 (step_in (E.start plan.now store)).notes))
        lines.old
        lines.new) }
{
    notes_are_lines();
    let mut out = StepOut {
        line: ArrayVec::new(),
        notes: Row::new(alloc),
    };
    let end = match E::start(alloc, plan, store, &mut out) {
        Ok(end) => end,
        Err(Stop::NoMemory) => return Err(NoMemory),
        Err(Stop::DiskFailed) => unreachable!("no start is stopped by its disk"),
        Err(Stop::NumbersSpent) => unreachable!("there are numbers to start with"),
        Err(Stop::Full) => unreachable!("no start puts into a store"),
    };
    let Ok(()) = put_notes(0, side, out.notes.as_slice(), lines) else {
        return Err(NoMemory);
    };
    Ok(end)
}

/// An end makes a step, with the next character on its way where it is given that; its lines are put.
pub(crate) fn step_end<E: End>(
    alloc: Global,
    now: u64,
    side: Side,
    input: NodeInput<'_, E::Command>,
    end: &mut E,
    ways: &mut Ways,
    lines: &mut Row<u8>,
) -> WorldStep
    requires now { now < 2 ^ 62 }
    requires input { MayTake E.takes (input_of input) }
    requires sound { E.sound end.old }
    requires count { ways.old.written < 2 ^ 62 }
    ensures lines { (choice : CutChoice) →
        let step = stepped
        E.machine side now (E.reach end.old) choice (input_of input.entry) (E.means end.old) ways.old in
        Puts step.went (text_of step.entries) lines.old lines.new result }
    ensures end { (choice : CutChoice) →
        let step = stepped
        E.machine side now (E.reach end.old) choice (input_of input.entry) (E.means end.old) ways.old in
        IfLeft result
        (E.means end.new ≡ step.end)
        (λ lost. (later : ℕ) → E.anew end.new choice later ≡ E.machine.restart step.end later) }
    ensures ways { (choice : CutChoice) →
        let step = stepped
        E.machine side now (E.reach end.old) choice (input_of input.entry) (E.means end.old) ways.old in
        IfLeft result (ways.new ≡ step.ways) (λ lost. ways.new ≡ step.ways) }
    ensures reach { (choice : CutChoice) →
        let step = stepped
        E.machine side now (E.reach end.old) choice (input_of input.entry) (E.means end.old) ways.old in
        IfWent result (E.reach end.new ≡ step.reach) }
    ensures going { IfWent result (E.stopped end.new ≡ false) }
    ensures powered { (E.reach end.old).cut ≡ 0 → IsPowered result }
    ensures sound { E.sound end.new }
    ensures count { ways.new.written ≤ ways.old.written + 1 }
{
    notes_are_lines();
    let gives = is_character(&input);
    match find_slip(now, side, gives, end, ways) {
        Some(slip) => return put_slipped(now, side, &slip, lines),
        None => {}
    }
    let mut out = StepOut {
        line: ArrayVec::new(),
        notes: Row::new(alloc),
    };
    match end.step(alloc, input, now, &mut out) {
        Ok(()) => {}
        Err(Stop::NumbersSpent) => {
            return put_spent(now, side, false, out.notes.as_slice(), lines);
        }
        Err(Stop::Full) => return put_spent(now, side, true, out.notes.as_slice(), lines),
        Err(Stop::DiskFailed) => {
            let is_lost = end.has_stopped();
            return put_stopped(now, side, is_lost, out.notes.as_slice(), lines);
        }
        Err(Stop::NoMemory) => return WorldStep::NoMemory,
    }
    let Ok(()) = put_step(alloc, now, side, &out, lines) else {
        return WorldStep::NoMemory;
    };
    match ways.step(side, gives, end.phase(), out.line.as_slice()) {
        Ok(()) => WorldStep::Went,
        Err(NoMemory) => WorldStep::NoMemory,
    }
}

/// An end has lost its power: that is noted, and it starts anew with its disk as the choice leaves it.
pub(crate) fn restart_end<E: End>(
    alloc: Global,
    now: u64,
    side: Side,
    choice: CutChoice,
    end: &mut E,
    lines: &mut Row<u8>,
) -> WorldStep
    requires now { now < 2 ^ 62 }
    requires sound { E.sound end.old }
    ensures lines { let went = E.anew end.old choice now in
        Puts (gone went) (text_of (entries_of side now (Power ∷ (step_in went).notes)))
        lines.old lines.new result }
    ensures end { IfWent result (E.means end.new ≡ (step_in (E.anew end.old choice now)).next) }
    ensures reach { IfWent result (E.reach end.new ≡ reach_behind (E.machine.anew_use (E.means end.new))) }
    ensures going { IfWent result (E.stopped end.new ≡ false) }
    ensures sound { E.sound end.new }
    ensures powered { IsPowered result }
{
    notes_are_lines();
    let Ok(()) = put_power(alloc, now, side, lines) else {
        return WorldStep::NoMemory;
    };
    let mut out = StepOut {
        line: ArrayVec::new(),
        notes: Row::new(alloc),
    };
    match end.restart(alloc, choice, now, &mut out) {
        Ok(()) => {}
        Err(Stop::NumbersSpent) => {
            return put_spent(now, side, false, out.notes.as_slice(), lines);
        }
        Err(Stop::Full) => unreachable!("no start puts into a store"),
        Err(Stop::DiskFailed) => unreachable!("no start is stopped by its disk"),
        Err(Stop::NoMemory) => return WorldStep::NoMemory,
    }
    let Ok(()) = put_notes(now, side, out.notes.as_slice(), lines) else {
        return WorldStep::NoMemory;
    };
    WorldStep::Went
}

// Puts the line of a loss of power.
fn put_power(alloc: Global, now: u64, side: Side, lines: &mut Row<u8>) -> Result<(), NoMemory>
    ensures ok { OnOk result (lines.new ≡ lines.old ++ note_line now side (note_of Power)) }
    ensures err { OnErr result (lines.new ≡ lines.old) }
{
    let note = power_note(alloc)?;
    put_note(now, side, &note, lines)
}

// The slip that a step makes, where it gives the end the next character.
fn find_slip<E: End>(now: u64, side: Side, gives: bool, end: &E, ways: &Ways) -> Option<Slip>
    ensures { let line = E.machine.line (E.means end.now) in
        let way = direction_to side ways.now in
        IsSlipOf (gives && makes_slip_in line.phase (is_due line.deadline now) way) (gathered_with_next way) result }
{
    if gives {
        ways.slip(side, end.phase(), end.is_late(now))
    } else {
        None
    }
}

fn is_character<C>(input: &NodeInput<'_, C>) -> bool
    ensures { result ≡ gives (input_of input.now) }
{
    match input {
        NodeInput::Char(_) => true,
        NodeInput::Time | NodeInput::Command(_) => false,
    }
}

// Puts the line of a slip.
fn put_slipped(now: u64, side: Side, slip: &Slip, lines: &mut Row<u8>) -> WorldStep
    ensures puts { Puts
        answer.Slip
        (entry_text (Slipped now side slip.now.frame slip.now.characters.items))
        lines.old
        lines.new
        result }
{
    match put_slip(now, side, slip.frame, slip.characters.as_slice(), lines) {
        Ok(()) => WorldStep::Slip,
        Err(NoMemory) => WorldStep::NoMemory,
    }
}

// Puts the lines of a step that has ended early: it lacked room in the end's own store, or numbers.
fn put_spent(
    now: u64,
    side: Side,
    lacks_room: bool,
    notes: &[Note],
    lines: &mut Row<u8>,
) -> WorldStep
    ensures puts { Puts (spent_for lacks_room) (flat_map (note_line now side) notes.now) lines.old lines.new result }
{
    match put_notes(now, side, notes, lines) {
        Ok(()) if lacks_room => WorldStep::JournalFull,
        Ok(()) => WorldStep::NumbersSpent,
        Err(NoMemory) => WorldStep::NoMemory,
    }
}

// Puts the lines of a step that its disk has stopped: its power is lost, or there is no room for a call.
fn put_stopped(
    now: u64,
    side: Side,
    is_lost: bool,
    notes: &[Note],
    lines: &mut Row<u8>,
) -> WorldStep
    ensures puts { Puts (stopped_for side is_lost) (flat_map (note_line now side) notes.now)
        lines.old lines.new result }
    ensures powered { is_lost ≡ false → IsPowered result }
{
    match put_notes(now, side, notes, lines) {
        Ok(()) if is_lost => WorldStep::PowerLost(side),
        Ok(()) => WorldStep::Turns,
        Err(NoMemory) => WorldStep::NoMemory,
    }
}
