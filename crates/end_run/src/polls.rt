//! The polls of a run, one after the other.

ghost use Rattle.std.specs.Prelude.{◌≡◌, ℕ, ◌<◌, ◌≤◌, ◌^◌, length, [], ◌∷◌, None, Option, Some};
ghost use Rattle.gl_base.specs.Told.{sink_told};
ghost use Rattle.trace_log.specs.Log.Happening.{Closed};
ghost use Rattle.trace_log.specs.Text.{text_of};
ghost use Rattle.end_run.specs.declared.ending.Ending.TheVariants as ending;
ghost use Rattle.end_run.specs.Calls.{EndsWith, HasTurned, left_of};
ghost use Rattle.end_run.specs.Counts.{Counts, counted};
ghost use Rattle.end_run.specs.Outcome.{ComesOver};
ghost use Rattle.end_run.specs.Run.{polled};
ghost use Rattle.end_run.specs.Scenes.{scene};
ghost use Rattle.end_run.specs.Commands.{wait_until};
ghost use Rattle.end_run.specs.Script.{AreTold, by_script, next_moment};
ghost use Rattle.end_run.specs.Steps.{entries_at};

use crate::ending::Ending;
use crate::linked_end::LinkedEnd;
use crate::step::end_with;
use crate::telling::answer;
use gl_base::{Link, LinkIn, Side, Sink};
use line_schedule::ScriptStep;
use message_end::least;
use std::alloc::Global;
use trace_log::{closed_note, notes_are_lines};

/// The last moment that a poll may ask for.
pub(crate) const LAST_MOMENT: u64 = (1 << 62) - 1;

/// How far a run is: how many lines of its script were given, and the moment of the last answer that had one.
#[derive(Clone, Copy)]
pub(crate) struct Place {
    pub(crate) given: usize,
    pub(crate) now: u64,
}

/// Polls so many times, or until the run ends.
pub(crate) fn poll_all<E: LinkedEnd, L: Link, W: Sink>(
    alloc: Global,
    side: Side,
    lines: &[(u64, ScriptStep)],
    polls: u32,
    end: &mut E,
    link: &mut L,
    out: &mut W,
) -> Ending
    requires sound { E.sound end.old }
    requires lines { AreTold E.told E.takes lines.now }
    ensures runs { E.known end.old → ComesOver E.known E.left end.new
        (scene L.Link W.Sink link.old out.old (E.means end.old) (E.room end.old) None)
        (scene L.Link W.Sink link.new out.new (E.means end.new) (E.room end.new))
        (λ answers. polled E.machine E.due (by_script E.told) side polls lines.now 0 answers (E.means end.old))
        result }
    ensures counts { Counts
        (counted L.Link W.Sink link.old out.old (E.device end.old))
        (counted L.Link W.Sink link.new out.new (E.device end.new))
        (Some result) }
    ensures sound { E.sound end.new }
    ensures connected { L.connected link.new ≡ L.connected link.old }
{
    let mut place = Place { given: 0, now: 0 };
    let mut left = polls;
    'polls: while left > 0 {
        match turn::<E, L, W>(alloc, side, lines, &mut place, end, link, out) {
            None => {}
            Some(ending) => return ending,
        }
        left -= 1;
    }
    Ending::Turns
}

// One poll, with all that follows from its answer.
fn turn<E: LinkedEnd, L: Link, W: Sink>(
    alloc: Global,
    side: Side,
    lines: &[(u64, ScriptStep)],
    place: &mut Place,
    end: &mut E,
    link: &mut L,
    out: &mut W,
) -> Option<Ending>
    requires sound { E.sound end.old }
    requires lines { AreTold E.told E.takes lines.now }
    requires given { place.old.given ≤ length lines.now }
    ensures turned { E.known end.old → HasTurned E.known E.left end.new E.machine E.due (by_script E.told) side
        (scene L.Link W.Sink link.old out.old (E.means end.old) (E.room end.old) None)
        (scene L.Link W.Sink link.new out.new (E.means end.new) (E.room end.new))
        (left_of (E.means end.old) lines.now place.old)
        (left_of (E.means end.new) lines.now place.new)
        result }
    ensures counts { Counts
        (counted L.Link W.Sink link.old out.old (E.device end.old))
        (counted L.Link W.Sink link.new out.new (E.device end.new))
        result }
    ensures sound { E.sound end.new }
    ensures given { place.new.given ≤ length lines.now }
    ensures connected { L.connected link.new ≡ L.connected link.old }
{
    let (_, left) = lines.split_at(place.given);
    let until = wait_until(end.deadline(), left);
    match link.poll(until) {
        LinkIn::Char(byte, now) => {
            answer::<E, L, W>(alloc, side, left, Some(byte), now, place, end, link, out)
        }
        LinkIn::Quiet(now) => {
            answer::<E, L, W>(alloc, side, left, None, now, place, end, link, out)
        }
        LinkIn::Closed => Some(close(alloc, side, place.now, out)),
        LinkIn::Failed => Some(Ending::LinkFailed),
    }
}

// Up to when the next poll waits.
fn wait_until(deadline: Option<u64>, lines: &[(u64, ScriptStep)]) -> u64
    ensures until { result ≡ wait_until deadline (next_moment lines.now) }
    ensures range { result < 2 ^ 62 }
{
    match least(deadline, next_moment(lines)) {
        Some(moment) => moment.min(LAST_MOMENT),
        None => LAST_MOMENT,
    }
}

fn next_moment(lines: &[(u64, ScriptStep)]) -> Option<u64>
    ensures { result ≡ next_moment lines.now }
{
    match lines.first() {
        Some(line) => Some(line.0),
        None => None,
    }
}

// The line of the peer's closing, with which the run ends.
fn close<W: Sink>(alloc: Global, side: Side, now: u64, out: &mut W) -> Ending
    ensures { EndsWith
        (sink_told W.Sink out.old out.new)
        (text_of (entries_at side now (Closed ∷ [])))
        ending.Closed
        result }
{
    notes_are_lines();
    let Ok(note) = closed_note(alloc) else {
        return Ending::NoMemory;
    };
    end_with(alloc, now, side, &[note], Ending::Closed, out)
}
