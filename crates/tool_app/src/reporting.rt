//! The line that tells how a run has ended.

ghost use Rattle.std.specs.Prelude.{◌≡◌, ◌++◌, codes, decimal};
ghost use Rattle.gl_base.specs.Sending.{Sends};
ghost use Rattle.gl_base.specs.Told.{sink_told};
ghost use Rattle.gemline_app.specs.Gemline.{WereSent};
ghost use Rattle.gemline_app.specs.Outcome.{status_of};
ghost use Rattle.tool_app.specs.Names.{named};
ghost use Rattle.tool_app.specs.Outcome.{detail_of, end_of, head_of, line_of, name_of, reason_text};

use arrayvec::ArrayVec;
use gemline_app::Outcome;
use gl_base::{Sink, SinkAnswer, copy_out};
use short_text::{put, put_number};

/// The names that a run was given by its words.
#[derive(Clone, Copy, Debug)]
pub struct Names<'a> {
    pub plan: &'a str,
    pub address: &'a str,
    pub spool: &'a str,
}

/// Tells on `err` how a run over these names has ended, and what the system has said of it, if anything, and answers
/// its status. Nothing is told where the status is 0.
pub fn report<E: Sink>(outcome: &Outcome, names: Names<'_>, reason: &[u8], err: &mut E) -> u8
    ensures status { result ≡ status_of outcome.now }
    ensures line { WereSent (line_of (named names.entry) outcome.now reason.now) (sink_told E.Sink err.old err.new) }
{
    send_line(outcome, names, reason, err);
    outcome.status()
}

// Sends all of it.
fn send_line<E: Sink>(outcome: &Outcome, names: Names<'_>, reason: &[u8], err: &mut E)
    ensures { WereSent (line_of (named names.entry) outcome.now reason.now) (sink_told E.Sink err.old err.new) }
{
    match copy_out(err, head_of(outcome)) {
        SinkAnswer::Done => send_name(outcome, names, reason, err),
        SinkAnswer::Failed => {}
    }
}

// From the name on.
fn send_name<E: Sink>(outcome: &Outcome, names: Names<'_>, reason: &[u8], err: &mut E)
    ensures { WereSent
        (name_of (named names.entry) outcome.now
        ++ (detail_of outcome.now ++ (reason_text reason.now ++ end_of outcome.now)))
        (sink_told E.Sink err.old err.new) }
{
    match copy_out(err, name_of(names, outcome)) {
        SinkAnswer::Done => send_detail(outcome, reason, err),
        SinkAnswer::Failed => {}
    }
}

// From what is wrong on.
fn send_detail<E: Sink>(outcome: &Outcome, reason: &[u8], err: &mut E)
    ensures { WereSent
        (detail_of outcome.now ++ (reason_text reason.now ++ end_of outcome.now))
        (sink_told E.Sink err.old err.new) }
{
    match copy_detail(outcome, err) {
        SinkAnswer::Done => send_reason(outcome, reason, err),
        SinkAnswer::Failed => {}
    }
}

// From what the system has said on.
fn send_reason<E: Sink>(outcome: &Outcome, reason: &[u8], err: &mut E)
    ensures { WereSent (reason_text reason.now ++ end_of outcome.now) (sink_told E.Sink err.old err.new) }
{
    match copy_reason(reason, err) {
        SinkAnswer::Done => send_end(outcome, err),
        SinkAnswer::Failed => {}
    }
}

fn send_end<E: Sink>(outcome: &Outcome, err: &mut E)
    ensures { WereSent (end_of outcome.now) (sink_told E.Sink err.old err.new) }
{
    let _ = copy_out(err, end_of(outcome));
}

// Sends what is wrong.
fn copy_detail<E: Sink>(outcome: &Outcome, err: &mut E) -> SinkAnswer
    ensures { Sends (sink_told E.Sink err.old err.new) (detail_of outcome.now) result }
{
    match outcome {
        Outcome::BadPlan { key, .. } => copy_both(b": ", key.as_slice(), err),
        Outcome::FileLonger(_) => copy_out(err, b": longer than 1 MiB"),
        Outcome::NumbersSpent => copy_out(err, b": no system bytes are left"),
        Outcome::NotSpool { at } => copy_out(err, place_text(*at).as_slice()),
        _ => copy_out(err, b""),
    }
}

// Sends what the system has said.
fn copy_reason<E: Sink>(reason: &[u8], err: &mut E) -> SinkAnswer
    ensures { Sends (sink_told E.Sink err.old err.new) (reason_text reason.now) result }
{
    if reason.is_empty() {
        copy_out(err, b"")
    } else {
        copy_both(b": ", reason, err)
    }
}

fn copy_both<E: Sink>(first: &[u8], second: &[u8], err: &mut E) -> SinkAnswer
    ensures { Sends (sink_told E.Sink err.old err.new) (first.now ++ second.now) result }
{
    match copy_out(err, first) {
        SinkAnswer::Done => copy_out(err, second),
        SinkAnswer::Failed => SinkAnswer::Failed,
    }
}

fn place_text(at: u64) -> ArrayVec<u8, 64>
    ensures { result.items ≡ codes ": not a spool at " ++ decimal at }
{
    let mut line = ArrayVec::new();
    put(&mut line, b": not a spool at ");
    put_number(&mut line, at);
    line
}

// What is said first.
fn head_of(outcome: &Outcome) -> &'static [u8]
    ensures { result.now ≡ head_of outcome.now }
{
    match outcome {
        Outcome::Done => b"",
        Outcome::Usage => {
            b"gemline_tool: 64 usage: gemline_tool PLAN ADDRESS SPOOL, or gemline_tool --help"
        }
        Outcome::BadPlan { .. } | Outcome::FileLonger(_) => b"gemline_tool: 65 plan ",
        Outcome::FileFailed(_) => b"gemline_tool: 66 plan ",
        Outcome::ReadFailed => b"gemline_tool: 68 input",
        Outcome::LinkFailed => b"gemline_tool: 69 address ",
        Outcome::NoMemory => b"gemline_tool: 71 memory",
        Outcome::WriteFailed => b"gemline_tool: 73 output",
        Outcome::DiskFailed => b"gemline_tool: 74 spool file ",
        Outcome::TurnsSpent => b"gemline_tool: 75 turns",
        Outcome::NumbersSpent => b"gemline_tool: 77 spool file ",
        Outcome::NotSpool { .. } => b"gemline_tool: 78 spool file ",
        _ => b"gemline_tool",
    }
}

// The file or the address that it is about.
fn name_of<'a>(names: Names<'a>, outcome: &Outcome) -> &'a [u8]
    ensures { result.now ≡ name_of (named names.entry) outcome.now }
{
    match outcome {
        Outcome::BadPlan { .. } | Outcome::FileLonger(_) | Outcome::FileFailed(_) => {
            names.plan.as_bytes()
        }
        Outcome::LinkFailed => names.address.as_bytes(),
        Outcome::DiskFailed | Outcome::NumbersSpent | Outcome::NotSpool { .. } => {
            names.spool.as_bytes()
        }
        _ => b"",
    }
}

// The line's end.
fn end_of(outcome: &Outcome) -> &'static [u8]
    ensures { result.now ≡ end_of outcome.now }
{
    match outcome {
        Outcome::Done => b"",
        Outcome::BadPlan { .. } => outcome.tail(),
        _ => b"\n",
    }
}
