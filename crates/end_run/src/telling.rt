//! What an answer brings: the lines of the script that are due, and then its character or time.

ghost use Rattle.std.specs.Prelude.{◌≡◌, ◌+◌, ◌<◌, ◌≤◌, ◌^◌, None, length};
ghost use Rattle.end_run.specs.Calls.{plain_input};
ghost use Rattle.end_run.specs.Counts.{Counts, counted};
ghost use Rattle.end_run.specs.Outcome.{Comes};
ghost use Rattle.end_run.specs.Scenes.{scene};
ghost use Rattle.end_run.specs.Commands.{MayTell};
ghost use Rattle.end_run.specs.Script.{AreTold, due_count, due_lines, told_by};
ghost use Rattle.end_run.specs.Steps.{all_told, answered, tells};

use crate::ending::Ending;
use crate::linked_end::LinkedEnd;
use crate::polls::Place;
use crate::step::{step_end, step_plain};
use gl_base::{Link, Side, Sink};
use line_schedule::ScriptStep;
use message_flow::NodeInput;
use std::alloc::Global;

/// The lines that are due at an answer's moment are given, and then its character, or time.
pub(crate) fn answer<E: LinkedEnd, L: Link, W: Sink>(
    alloc: Global,
    side: Side,
    lines: &[(u64, ScriptStep)],
    byte: Option<u8>,
    now: u64,
    place: &mut Place,
    end: &mut E,
    link: &mut L,
    out: &mut W,
) -> Option<Ending>
    requires now { now < 2 ^ 62 }
    requires sound { E.sound end.old }
    requires lines { AreTold E.told E.takes lines.now }
    requires given { place.old.given + length lines.now < 2 ^ 64 }
    ensures runs { E.known end.old → Comes E.known E.left end.new
        (scene L.Link W.Sink link.old out.old (E.means end.old) (E.room end.old) None)
        (scene L.Link W.Sink link.new out.new (E.means end.new) (E.room end.new))
        (answered E.machine side now (told_by E.told (due_lines now lines.now)) (plain_input byte) (E.means end.old))
        result }
    ensures counts { Counts
        (counted L.Link W.Sink link.old out.old (E.device end.old))
        (counted L.Link W.Sink link.new out.new (E.device end.new))
        result }
    ensures sound { E.sound end.new }
    ensures now { place.new.now ≡ now }
    ensures given { place.new.given ≡ place.old.given + due_count now lines.now }
    ensures connected { L.connected link.new ≡ L.connected link.old }
{
    let count = due_count(now, lines);
    let (due, _) = lines.split_at(count);
    place.now = now;
    place.given += count;
    match tell_all::<E, L, W>(alloc, side, now, due, end, link, out) {
        Some(ending) => Some(ending),
        None => step_plain(alloc, side, now, byte, end, link, out),
    }
}

// How many lines are due, from the front on.
fn due_count(now: u64, lines: &[(u64, ScriptStep)]) -> usize
    ensures count { result ≡ due_count now lines.now }
    ensures within { result ≤ length lines.now }
{
    let mut count = 0;
    let mut left = lines;
    'lines: while let [line, later @ ..] = left {
        if line.0 > now {
            return count;
        }
        count += 1;
        left = later;
    }
    count
}

// Gives lines of the script one after the other, as long as the run goes on.
fn tell_all<E: LinkedEnd, L: Link, W: Sink>(
    alloc: Global,
    side: Side,
    now: u64,
    lines: &[(u64, ScriptStep)],
    end: &mut E,
    link: &mut L,
    out: &mut W,
) -> Option<Ending>
    requires now { now < 2 ^ 62 }
    requires sound { E.sound end.old }
    requires lines { AreTold E.told E.takes lines.now }
    ensures runs { E.known end.old → Comes E.known E.left end.new
        (scene L.Link W.Sink link.old out.old (E.means end.old) (E.room end.old) None)
        (scene L.Link W.Sink link.new out.new (E.means end.new) (E.room end.new))
        (all_told E.machine side now (told_by E.told lines.now) (E.means end.old))
        result }
    ensures counts { Counts
        (counted L.Link W.Sink link.old out.old (E.device end.old))
        (counted L.Link W.Sink link.new out.new (E.device end.new))
        result }
    ensures sound { E.sound end.new }
    ensures connected { L.connected link.new ≡ L.connected link.old }
{
    'lines: for line in lines {
        match tell::<E, L, W>(alloc, side, now, &line.1, end, link, out) {
            None => {}
            Some(ending) => return Some(ending),
        }
    }
    None
}

// Gives one line of the script.
fn tell<E: LinkedEnd, L: Link, W: Sink>(
    alloc: Global,
    side: Side,
    now: u64,
    step: &ScriptStep,
    end: &mut E,
    link: &mut L,
    out: &mut W,
) -> Option<Ending>
    requires now { now < 2 ^ 62 }
    requires sound { E.sound end.old }
    requires step { MayTell E.takes (E.told step.now) }
    ensures runs { E.known end.old → Comes E.known E.left end.new
        (scene L.Link W.Sink link.old out.old (E.means end.old) (E.room end.old) None)
        (scene L.Link W.Sink link.new out.new (E.means end.new) (E.room end.new))
        (tells E.machine side now (E.told step.now) (E.means end.old))
        result }
    ensures counts { Counts
        (counted L.Link W.Sink link.old out.old (E.device end.old))
        (counted L.Link W.Sink link.new out.new (E.device end.new))
        result }
    ensures sound { E.sound end.new }
    ensures connected { L.connected link.new ≡ L.connected link.old }
{
    match E::told(step) {
        None => Some(Ending::Stopped),
        Some(command) => {
            step_end(
                alloc,
                side,
                now,
                NodeInput::Command(command),
                &[],
                end,
                link,
                out,
            )
        }
    }
}
