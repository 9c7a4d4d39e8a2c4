//! One step of an end: its lines are written, and then its characters are sent.

ghost use Rattle.std.specs.Prelude.{◌≡◌, ℕ, ◌<◌, ◌^◌, ◌++◌, List, ◌∷◌, None, Option};
ghost use Rattle.std.specs.List.{flat_map};
ghost use Rattle.gl_base.specs.Sink.{SinkHealth};
ghost use Rattle.gl_base.specs.Told.{sink_told};
ghost use Rattle.message_end.specs.Ends.{Asked, MayTake, input_of, printed, wrote};
ghost use Rattle.trace_log.specs.Log.{Entry};
ghost use Rattle.trace_log.specs.Text.{note_line, text_of};
ghost use Rattle.end_run.specs.Acts.Act.{Writes};
ghost use Rattle.end_run.specs.declared.ending.Ending.TheVariants as ending;
ghost use Rattle.end_run.specs.Calls.{EndsWith, IsExact, IsPlainInput, PutsAsCan, plain_input};
ghost use Rattle.end_run.specs.Counts.{Counts, Device, counted, counted_by};
ghost use Rattle.end_run.specs.Outcome.{Comes, Does};
ghost use Rattle.end_run.specs.Scenes.{StopAt, beside, scene};
ghost use Rattle.end_run.specs.Steps.{replied, sends, stepped};

use crate::ending::Ending;
use crate::linked_end::LinkedEnd;
use crate::putting::{lines_of_notes, lines_of_step};
use arrayvec::ArrayVec;
use gl_base::{Link, LinkAnswer, Row, Side, Sink, SinkAnswer, copy_out};
use message_end::Stop;
use message_flow::{NodeInput, Note, StepOut};
use std::alloc::Global;
use trace_log::notes_are_lines;

/// An end makes a step with a character, or with time. Tells how the run ends with it, where it does.
pub(crate) fn step_plain<E: LinkedEnd, L: Link, W: Sink>(
    alloc: Global,
    side: Side,
    now: u64,
    byte: Option<u8>,
    end: &mut E,
    link: &mut L,
    out: &mut W,
) -> Option<Ending>
    requires now { now < 2 ^ 62 }
    requires sound { E.sound end.old }
    ensures runs { E.known end.old → Comes E.known E.left end.new
        (scene L.Link W.Sink link.old out.old (E.means end.old) (E.room end.old) None)
        (scene L.Link W.Sink link.new out.new (E.means end.new) (E.room end.new))
        (stepped E.machine side now (plain_input byte) (E.means end.old))
        result }
    ensures counts { Counts
        (counted L.Link W.Sink link.old out.old (E.device end.old))
        (counted L.Link W.Sink link.new out.new (E.device end.new))
        result }
    ensures sound { E.sound end.new }
    ensures connected { L.connected link.new ≡ L.connected link.old }
{
    let input = plain_input(byte, &[]);
    step_end(alloc, side, now, input, &[], end, link, out)
}

// A character or time as the input of an end. The commands, of which none is looked at, tell how long an input lives.
fn plain_input<C>(byte: Option<u8>, _commands: &[C]) -> NodeInput<'_, C>
    ensures input { input_of result ≡ plain_input byte }
    ensures plain { IsPlainInput (input_of result) }
{
    match byte {
        Some(byte) => NodeInput::Char(byte),
        None => NodeInput::Time,
    }
}

/// An end makes a step, and this is replied behind its lines. Tells how the run ends with it, where it does.
pub(crate) fn step_end<E: LinkedEnd, L: Link, W: Sink>(
    alloc: Global,
    side: Side,
    now: u64,
    input: NodeInput<'_, E::Command>,
    reply: &[u8],
    end: &mut E,
    link: &mut L,
    out: &mut W,
) -> Option<Ending>
    requires now { now < 2 ^ 62 }
    requires input { MayTake E.takes (input_of input) }
    requires sound { E.sound end.old }
    ensures runs { E.known end.old → Comes E.known E.left end.new
        (scene L.Link W.Sink link.old out.old (E.means end.old) (E.room end.old) None)
        (scene L.Link W.Sink link.new out.new (E.means end.new) (E.room end.new))
        (replied E.machine side reply.now now (input_of input.entry) (E.means end.old))
        result }
    ensures counts { Counts
        (counted L.Link W.Sink link.old out.old (E.device end.old))
        (counted L.Link W.Sink link.new out.new (E.device end.new))
        result }
    ensures sound { E.sound end.new }
    ensures connected { L.connected link.new ≡ L.connected link.old }
{
    notes_are_lines();
    let mut step = StepOut {
        line: ArrayVec::new(),
        notes: Row::new(alloc),
    };
    match end.step(alloc, input, now, &mut step) {
        Ok(()) => {}
        Err(Stop::NumbersSpent) => {
            return Some(end_with(
                alloc,
                now,
                side,
                step.notes.as_slice(),
                Ending::NumbersSpent,
                out,
            ));
        }
        Err(Stop::Full) => {
            return Some(end_with(alloc, now, side, step.notes.as_slice(), Ending::Full, out));
        }
        Err(Stop::DiskFailed) => {
            return Some(put_stopped(alloc, now, side, step.notes.as_slice(), out));
        }
        Err(Stop::NoMemory) => return Some(Ending::NoMemory),
    }
    hand_on::<E, L, W>(alloc, now, side, &step, reply, link, out)
}

// Writes the lines of a step and a reply, and sends its characters. The end is past that step.
fn hand_on<E: LinkedEnd, L: Link, W: Sink>(
    alloc: Global,
    now: u64,
    side: Side,
    step: &StepOut,
    reply: &[u8],
    link: &mut L,
    out: &mut W,
) -> Option<Ending>
    ensures does { (s : E.State) (room : Asked) (stop : Option (StopAt E.State E.Command)) (entries : List Entry)
        → text_of entries
        ≡ flat_map (note_line now side) step.now.notes
        ++ flat_map (note_line now side) (printed (wrote step.now.line.items))
        → Does
        (scene L.Link W.Sink link.old out.old s room stop)
        (scene L.Link W.Sink link.new out.new s room stop)
        None
        (Writes entries (text_of entries ++ reply.now) ∷ sends step.now.line.items)
        result }
    ensures counts { (disk : Device E.Fixed) → Counts
        (counted L.Link W.Sink link.old out.old disk)
        (counted L.Link W.Sink link.new out.new disk)
        result }
    ensures connected { L.connected link.new ≡ L.connected link.old }
{
    let Ok(lines) = lines_of_step(alloc, now, side, step, reply) else {
        return Some(Ending::NoMemory);
    };
    let SinkAnswer::Done = copy_out(out, lines.as_slice()) else {
        return Some(Ending::WriteFailed);
    };
    send_all::<E, L>(link, step.line.as_slice())
}

// Sends characters, where there are any.
fn send_all<E: LinkedEnd, L: Link>(link: &mut L, characters: &[u8]) -> Option<Ending>
    ensures does { (received : Option (List ℕ)) (health : SinkHealth) (s : E.State) (room : Asked)
        (stop : Option (StopAt E.State E.Command)) → Does
        (beside L.Link received health s room stop link.old)
        (beside L.Link received health s room stop link.new)
        None
        (sends characters.now)
        result }
    ensures counts { (out : ℕ) (disk : Device E.Fixed) → Counts
        (counted_by (L.health link.old).faults out disk)
        (counted_by (L.health link.new).faults out disk)
        result }
    ensures connected { L.connected link.new ≡ L.connected link.old }
{
    if characters.is_empty() {
        return None;
    }
    match link.send(characters) {
        LinkAnswer::Done => None,
        LinkAnswer::Failed => Some(Ending::LinkFailed),
    }
}

/// Writes the lines of notes, with which a run ends so.
pub(crate) fn end_with<W: Sink>(
    alloc: Global,
    now: u64,
    side: Side,
    notes: &[Note],
    how: Ending,
    out: &mut W,
) -> Ending
    requires { IsExact how }
    ensures { EndsWith (sink_told W.Sink out.old out.new) (flat_map (note_line now side) notes.now) how result }
{
    let Ok(lines) = lines_of_notes(alloc, now, side, notes) else {
        return Ending::NoMemory;
    };
    match copy_out(out, lines.as_slice()) {
        SinkAnswer::Done => how,
        SinkAnswer::Failed => Ending::WriteFailed,
    }
}

/// Writes the lines of what a step had noted before its disk failed, as far as memory and the output let it: whatever
/// fails then, it is the disk that ends the run.
pub(crate) fn put_stopped<W: Sink>(
    alloc: Global,
    now: u64,
    side: Side,
    notes: &[Note],
    out: &mut W,
) -> Ending
    ensures is { result ≡ ending.DiskFailed }
    ensures put { PutsAsCan (sink_told W.Sink out.old out.new) (flat_map (note_line now side) notes.now) }
{
    let Ok(lines) = lines_of_notes(alloc, now, side, notes) else {
        return Ending::DiskFailed;
    };
    match copy_out(out, lines.as_slice()) {
        SinkAnswer::Done => Ending::DiskFailed,
        SinkAnswer::Failed => Ending::DiskFailed,
    }
}
