//! A run, from the lines of the start to how it ends.

ghost use Rattle.std.specs.Prelude.{◌≡◌, None, Some};
ghost use Rattle.std.specs.List.{flat_map};
ghost use Rattle.gl_base.specs.Connections.{connected_as};
ghost use Rattle.gl_base.specs.Told.{sink_told};
ghost use Rattle.message_end.specs.Core.{Step};
ghost use Rattle.message_end.specs.Ends.{printed};
ghost use Rattle.trace_log.specs.Log.{Happening};
ghost use Rattle.trace_log.specs.Text.{note_line};
ghost use Rattle.end_run.specs.Calls.{HasConnected, PutsStart};
ghost use Rattle.end_run.specs.Counts.{Counts, counted};
ghost use Rattle.end_run.specs.Outcome.{Comes, ComesOver, IfOn};
ghost use Rattle.end_run.specs.Run.{begun, started_run};
ghost use Rattle.end_run.specs.Scenes.{scene};
ghost use Rattle.end_run.specs.Script.{AreTold};

use crate::ending::Ending;
use crate::linked_end::LinkedEnd;
use crate::polls::poll_all;
use crate::putting::lines_of_notes;
use crate::step::step_plain;
use gl_base::{Link, LinkAnswer, Side, Sink, SinkAnswer, copy_out};
use line_schedule::Script;
use message_flow::Note;
use std::alloc::Global;
use trace_log::notes_are_lines;

/// Runs an end that has started over a link by a script. The lines of its start, which are those of these notes, are
/// written; it connects; it makes a step with time at moment 0. Then each of at most so many polls waits for a
/// character until the end acts next by itself or by its script. Lines of the script that are due by the moment of an
/// answer are given before its character, each as a step of its own. The lines of a step are written before its
/// characters are sent.
///
/// All moments, the script's too, count from the connection. Each character takes a poll. The last line of the script
/// doesn't end the run.
///
/// Each line of the script must tell the end what it takes, or stop it. An end that is known stays so, unless a step
/// has stopped it: then what the end says of that step is left.
pub fn run_started<E: LinkedEnd, L: Link, W: Sink>(
    alloc: Global,
    end: &mut E,
    notes: &[Note],
    script: &Script,
    side: Side,
    address: &str,
    polls: u32,
    link: &mut L,
    out: &mut W,
) -> Ending
    requires sound { E.sound end.old }
    requires script { AreTold E.told E.takes script.now.lines }
    ensures runs { E.known end.old
        → (start : Step E.State Happening) → start.next ≡ E.means end.old → printed start.notes ≡ notes.now
        → ComesOver E.known E.left end.new
        (scene L.Link W.Sink link.old out.old (E.means end.old) (E.room end.old) None)
        (scene L.Link W.Sink link.new out.new (E.means end.new) (E.room end.new))
        (started_run E.machine E.due E.told side start script.now.lines polls)
        result }
    ensures counts { Counts
        (counted L.Link W.Sink link.old out.old (E.device end.old))
        (counted L.Link W.Sink link.new out.new (E.device end.new))
        (Some result) }
    ensures sound { E.sound end.new }
    ensures connected { HasConnected side address.now L.Link link.old link.new }
{
    match begin::<E, L, W>(alloc, end, notes, side, address, link, out) {
        None => {}
        Some(ending) => return ending,
    }
    poll_all::<E, L, W>(alloc, side, script.lines.as_slice(), polls, end, link, out)
}

/// The lines of an end's start are written, it connects, and makes a step with time at moment 0. Tells how the run ends
/// with that, where it does.
pub(crate) fn begin<E: LinkedEnd, L: Link, W: Sink>(
    alloc: Global,
    end: &mut E,
    notes: &[Note],
    side: Side,
    address: &str,
    link: &mut L,
    out: &mut W,
) -> Option<Ending>
    requires sound { E.sound end.old }
    ensures runs { E.known end.old
        → (start : Step E.State Happening) → start.next ≡ E.means end.old → printed start.notes ≡ notes.now
        → Comes E.known E.left end.new
        (scene L.Link W.Sink link.old out.old (E.means end.old) (E.room end.old) None)
        (scene L.Link W.Sink link.new out.new (E.means end.new) (E.room end.new))
        (begun E.machine side start)
        result }
    ensures counts { Counts
        (counted L.Link W.Sink link.old out.old (E.device end.old))
        (counted L.Link W.Sink link.new out.new (E.device end.new))
        result }
    ensures sound { E.sound end.new }
    ensures connected { HasConnected side address.now L.Link link.old link.new }
    ensures opened { IfOn result (L.connected link.new ≡ connected_as side address.now (L.connected link.old)) }
{
    notes_are_lines();
    match put_start(alloc, side, notes, out) {
        None => {}
        Some(ending) => return Some(ending),
    }
    let LinkAnswer::Done = link.connect(side, address) else {
        return Some(Ending::LinkFailed);
    };
    step_plain(alloc, side, 0, None, end, link, out)
}

// The lines of a start are written. Tells how the run ends with them, where it does.
fn put_start<W: Sink>(alloc: Global, side: Side, notes: &[Note], out: &mut W) -> Option<Ending>
    ensures { PutsStart (sink_told W.Sink out.old out.new) (flat_map (note_line 0 side) notes.now) result }
{
    let Ok(lines) = lines_of_notes(alloc, 0, side, notes) else {
        return Some(Ending::NoMemory);
    };
    match copy_out(out, lines.as_slice()) {
        SinkAnswer::Done => None,
        SinkAnswer::Failed => Some(Ending::WriteFailed),
    }
}
