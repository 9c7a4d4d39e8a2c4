//! A run by what comes beside the link.

ghost use Rattle.std.specs.Prelude.{◌≡◌, ◌<◌, ◌^◌, None, Option, Some};
ghost use Rattle.message_end.specs.Core.{Step};
ghost use Rattle.message_end.specs.Ends.{printed};
ghost use Rattle.trace_log.specs.Log.{Happening};
ghost use Rattle.end_run.specs.Calls.{HasConnected, TurnedTold, plain_input};
ghost use Rattle.end_run.specs.Commands.{IsTaken, as_it_comes, wait_until};
ghost use Rattle.end_run.specs.Counts.{Counts, counted};
ghost use Rattle.end_run.specs.Outcome.{ByWhatComes, Comes, ComesOver};
ghost use Rattle.end_run.specs.Run.{commanded_run, polled};
ghost use Rattle.end_run.specs.Scenes.{scene};
ghost use Rattle.end_run.specs.Steps.{all_told, answered, said, tells};
ghost use Rattle.end_run.specs.Told.{telling_of};

use crate::ending::Ending;
use crate::linked_end::LinkedEnd;
use crate::polls::LAST_MOMENT;
use crate::run::begin;
use crate::step::{step_end, step_plain};
use crate::teller::{Teller, Told};
use gl_base::{Link, LinkIn, Side, Sink, SinkAnswer, copy_out};
use message_flow::{NodeInput, Note};
use std::alloc::Global;

/// Runs an end that has started over a link, as `run_started` does, but by what comes beside the link in place of a
/// script. What has come by an answer is told before its character, each command as a step of its own with its reply
/// behind its lines. A poll waits until the end acts next by itself, or something comes.
pub fn run_told<E: LinkedEnd, L: Link, N: Teller<L, Command = E::Command>, W: Sink>(
    alloc: Global,
    end: &mut E,
    notes: &[Note],
    told: &mut N,
    side: Side,
    address: &str,
    polls: u64,
    link: &mut L,
    out: &mut W,
) -> Ending
    requires sound { E.sound end.old }
    requires takes { (command : E.Command) → N.takes command → E.takes command }
    ensures runs { E.known end.old
        → (start : Step E.State Happening) → start.next ≡ E.means end.old → printed start.notes ≡ notes.now
        → ByWhatComes (N.to_come told.old) (λ coming. ComesOver E.known E.left end.new
        (scene L.Link W.Sink link.old out.old (E.means end.old) (E.room end.old) None)
        (scene L.Link W.Sink link.new out.new (E.means end.new) (E.room end.new))
        (commanded_run E.machine E.due as_it_comes side start coming polls)
        result) }
    ensures counts { Counts
        (counted L.Link W.Sink link.old out.old (E.device end.old))
        (counted L.Link W.Sink link.new out.new (E.device end.new))
        (Some result) }
    ensures sound { E.sound end.new }
    ensures connected { HasConnected side address.now L.Link link.old link.new }
{
    match begin::<E, L, W>(alloc, end, notes, side, address, link, out) {
        None => {}
        Some(ending) => return ending,
    }
    poll_told::<E, L, N, W>(alloc, side, told, polls, end, link, out)
}

// Polls so many times, or until the run ends.
fn poll_told<E: LinkedEnd, L: Link, N: Teller<L, Command = E::Command>, W: Sink>(
    alloc: Global,
    side: Side,
    told: &mut N,
    polls: u64,
    end: &mut E,
    link: &mut L,
    out: &mut W,
) -> Ending
    requires sound { E.sound end.old }
    requires takes { (command : E.Command) → N.takes command → E.takes command }
    ensures runs { E.known end.old → ByWhatComes (N.to_come told.old) (λ coming. ComesOver E.known E.left end.new
        (scene L.Link W.Sink link.old out.old (E.means end.old) (E.room end.old) None)
        (scene L.Link W.Sink link.new out.new (E.means end.new) (E.room end.new))
        (λ answers. polled E.machine E.due as_it_comes side polls coming 0 answers (E.means end.old))
        result) }
    ensures counts { Counts
        (counted L.Link W.Sink link.old out.old (E.device end.old))
        (counted L.Link W.Sink link.new out.new (E.device end.new))
        (Some result) }
    ensures sound { E.sound end.new }
    ensures connected { L.connected link.new ≡ L.connected link.old }
{
    let mut moment = 0;
    let mut left = polls;
    'polls: while left > 0 {
        match turn_told::<E, L, N, W>(alloc, side, &mut moment, told, end, link, out) {
            None => {}
            Some(ending) => return ending,
        }
        left -= 1;
    }
    Ending::Turns
}

// One poll, with all that follows from its answer.
fn turn_told<E: LinkedEnd, L: Link, N: Teller<L, Command = E::Command>, W: Sink>(
    alloc: Global,
    side: Side,
    moment: &mut u64,
    told: &mut N,
    end: &mut E,
    link: &mut L,
    out: &mut W,
) -> Option<Ending>
    requires sound { E.sound end.old }
    requires takes { (command : E.Command) → N.takes command → E.takes command }
    ensures turned { E.known end.old → TurnedTold E.known E.left end.new E.machine E.due side
        (scene L.Link W.Sink link.old out.old (E.means end.old) (E.room end.old) None)
        (scene L.Link W.Sink link.new out.new (E.means end.new) (E.room end.new))
        (E.means end.old)
        (E.means end.new)
        moment.old
        moment.new
        (N.to_come told.old)
        (N.to_come told.new)
        result }
    ensures counts { Counts
        (counted L.Link W.Sink link.old out.old (E.device end.old))
        (counted L.Link W.Sink link.new out.new (E.device end.new))
        result }
    ensures sound { E.sound end.new }
    ensures connected { L.connected link.new ≡ L.connected link.old }
{
    let until = live_until(end.deadline());
    match told.wait(link, until) {
        LinkIn::Char(byte, now) => {
            *moment = now;
            answer_told::<E, L, N, W>(alloc, side, Some(byte), now, told, end, link, out)
        }
        LinkIn::Quiet(now) => {
            *moment = now;
            answer_told::<E, L, N, W>(alloc, side, None, now, told, end, link, out)
        }
        LinkIn::Closed => unreachable!(),
        LinkIn::Failed => Some(Ending::LinkFailed),
    }
}

// Up to when the next poll waits.
fn live_until(deadline: Option<u64>) -> u64
    ensures until { result ≡ wait_until deadline None }
    ensures range { result < 2 ^ 62 }
{
    match deadline {
        Some(moment) => moment.min(LAST_MOMENT),
        None => LAST_MOMENT,
    }
}

// What has come by an answer is told, and then its character, or time.
fn answer_told<E: LinkedEnd, L: Link, N: Teller<L, Command = E::Command>, W: Sink>(
    alloc: Global,
    side: Side,
    byte: Option<u8>,
    now: u64,
    told: &mut N,
    end: &mut E,
    link: &mut L,
    out: &mut W,
) -> Option<Ending>
    requires now { now < 2 ^ 62 }
    requires sound { E.sound end.old }
    requires takes { (command : E.Command) → N.takes command → E.takes command }
    ensures runs { E.known end.old → Comes E.known E.left end.new
        (scene L.Link W.Sink link.old out.old (E.means end.old) (E.room end.old) None)
        (scene L.Link W.Sink link.new out.new (E.means end.new) (E.room end.new))
        (answered E.machine side now (N.here told.old) (plain_input byte) (E.means end.old))
        result }
    ensures counts { Counts
        (counted L.Link W.Sink link.old out.old (E.device end.old))
        (counted L.Link W.Sink link.new out.new (E.device end.new))
        result }
    ensures sound { E.sound end.new }
    ensures coming { N.to_come told.new ≡ N.to_come told.old }
    ensures connected { L.connected link.new ≡ L.connected link.old }
{
    match tell_here::<E, L, N, W>(alloc, side, now, told, end, link, out) {
        Some(ending) => Some(ending),
        None => step_plain(alloc, side, now, byte, end, link, out),
    }
}

// Tells what has come, one after the other, as long as the run goes on.
fn tell_here<E: LinkedEnd, L: Link, N: Teller<L, Command = E::Command>, W: Sink>(
    alloc: Global,
    side: Side,
    now: u64,
    told: &mut N,
    end: &mut E,
    link: &mut L,
    out: &mut W,
) -> Option<Ending>
    requires now { now < 2 ^ 62 }
    requires sound { E.sound end.old }
    requires takes { (command : E.Command) → N.takes command → E.takes command }
    ensures runs { E.known end.old → Comes E.known E.left end.new
        (scene L.Link W.Sink link.old out.old (E.means end.old) (E.room end.old) None)
        (scene L.Link W.Sink link.new out.new (E.means end.new) (E.room end.new))
        (all_told E.machine side now (N.here told.old) (E.means end.old))
        result }
    ensures counts { Counts
        (counted L.Link W.Sink link.old out.old (E.device end.old))
        (counted L.Link W.Sink link.new out.new (E.device end.new))
        result }
    ensures sound { E.sound end.new }
    ensures coming { N.to_come told.new ≡ N.to_come told.old }
    ensures connected { L.connected link.new ≡ L.connected link.old }
{
    'tellings: loop {
        let Ok(more) = told.next(alloc) else {
            return Some(Ending::NoMemory);
        };
        if !more {
            return None;
        }
        match tell_one::<E, L, W>(alloc, side, now, told.told(), end, link, out) {
            None => {}
            Some(ending) => return Some(ending),
        }
    }
}

// Tells one of it.
fn tell_one<E: LinkedEnd, L: Link, W: Sink>(
    alloc: Global,
    side: Side,
    now: u64,
    told: Told<'_, E::Command>,
    end: &mut E,
    link: &mut L,
    out: &mut W,
) -> Option<Ending>
    requires now { now < 2 ^ 62 }
    requires sound { E.sound end.old }
    requires takes { IsTaken E.takes (telling_of told) }
    ensures runs { E.known end.old → Comes E.known E.left end.new
        (scene L.Link W.Sink link.old out.old (E.means end.old) (E.room end.old) None)
        (scene L.Link W.Sink link.new out.new (E.means end.new) (E.room end.new))
        (tells E.machine side now (telling_of told.entry) (E.means end.old))
        result }
    ensures counts { Counts
        (counted L.Link W.Sink link.old out.old (E.device end.old))
        (counted L.Link W.Sink link.new out.new (E.device end.new))
        result }
    ensures sound { E.sound end.new }
    ensures connected { L.connected link.new ≡ L.connected link.old }
{
    match told {
        Told::Command(command, reply) => {
            let input = NodeInput::Command(command);
            step_end(alloc, side, now, input, reply, end, link, out)
        }
        Told::Text(text) => match copy_out(out, text) {
            SinkAnswer::Done => None,
            SinkAnswer::Failed => Some(Ending::WriteFailed),
        },
        Told::Stop => Some(Ending::Stopped),
    }
}
