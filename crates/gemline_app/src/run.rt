//! The top call: words become a command, this is carried out, and its outcome becomes a line and a status.

ghost use Rattle.std.specs.Prelude.{◌≡◌, ◌++◌, ◌≤◌, ℕ, List, None, Some, map, option_map, string_bytes};
ghost use Rattle.command_words.specs.Asked.{Equipment, Host, IsInRange, JournalHost, JournalReplay, Replay, asked_by};
ghost use Rattle.gemline_app.specs.Gemline.{ComesFrom, ComesOnInput, IsRun, WasPrinted, WasShown};
ghost use Rattle.gemline_app.specs.LinkTold.{link_told};
ghost use Rattle.gemline_app.specs.Gemline.{WasSpelled, WereSent};
ghost use Rattle.gemline_app.specs.Outcome.{line_of, name_of, outcome_of_show, refusal_of, status_of};
ghost use Rattle.gemline_app.specs.Spool.{EndedAs, outcome_of_spool};
ghost use Rattle.gemline_app.specs.Words.{capture_limit, item_limit, name_in};
ghost use Rattle.gl_base.specs.Told.{files_told, sink_told, source_told};
ghost use Rattle.spool_drop.specs.Dropping.{DropsMessages};
ghost use Rattle.spool_show.specs.Formatting.{FormatsSpool};
ghost use Rattle.spool_show.specs.Showing.{ShowsSpool};
ghost use Rattle.spool_show.specs.Told.{disk_told};

use crate::equipment::equipment;
use crate::host::host;
use crate::inputs::whole_input;
use crate::journal::journal_host;
use crate::make::make;
use crate::outcome::{FileRole, Outcome};
use crate::replay::replay;
use crate::spelling::{spell, spell_hex};
use command_words::{Command, WordsFault, command_of};
use disk_base::Disk;
use gl_base::{Files, Link, Sink, SinkAnswer, Source, copy_out};
use line_show::{Ending, Stop, show};
use spool_drop::drop_messages;
use spool_show::{SpoolEnd, format_spool, show_spool};
use std::alloc::Global;

/// How long a capture may be, in bytes.
const CAPTURE_LIMIT: usize = 16 * 1024 * 1024;

/// How long an item's text may be, or its bytes in hex.
const ITEM_LIMIT: usize = 1024 * 1024;

/// Runs the command of the words, without the program's name, and answers the status to end with.
///
/// The results go to `out`. From a capture on `input`, `show` makes a line for each frame and each character of the
/// handshake, and tells what each block brings: its message, or why there is none. From an item's text on `input`,
/// `spell` makes hex with as few length bytes as can be; `spell --hex` makes the text from hex on `input`. `replay`
/// finds a plan and a schedule in `files`, lets both ends of a line run by them and tells what they do, as a trace.
/// `equipment` and `host` run an end of a line by a plan in `files` and by the script on `input`, over `link`, and tell
/// what it does, each line before the characters of its step are sent; the equipment has its spool on `disk`, and so
/// has a host its journal, if it is to have one. `format` makes a spool file on `disk`, `spool` writes the list of one,
/// and `drop` drops its first messages. `make` lets both ends of a line run by so many made rounds, and tells how many
/// lines of their trace there are of each kind. `err` gets one line where the status isn't 0.
pub fn gemline<F: Files, R: Source, W: Sink, E: Sink, D: Disk, L: Link>(
    alloc: Global,
    words: &[String],
    files: &mut F,
    input: &mut R,
    out: &mut W,
    err: &mut E,
    disk: &mut D,
    link: &mut L,
) -> u8
    // the words, what input, files, disk, link, output and errors told, and the status
    ensures run { IsRun (map string_bytes words.now)
        (source_told R.Source input.old input.new)
        (files_told F.Files files.old files.new)
        (disk_told D.Disk disk.old disk.new)
        (link_told L.Link link.old link.new)
        (sink_told W.Sink out.old out.new)
        (sink_told E.Sink err.old err.new)
        result }
{
    match command_of(alloc, words) {
        Ok(command) => {
            let outcome = run(alloc, command, files, input, out, disk, link);
            report(&outcome, Some(command), err)
        }
        Err(fault) => refuse(fault, err),
    }
}

// Tells why words are no command.
fn refuse<E: Sink>(fault: WordsFault, err: &mut E) -> u8
    ensures status { result ≡ status_of (refusal_of fault) }
    ensures line { WereSent (line_of (name_of None (refusal_of fault)) (refusal_of fault))
        (sink_told E.Sink err.old err.new) }
{
    report(&refusal_of(fault), None, err)
}

// The outcome where words are no command.
fn refusal_of(fault: WordsFault) -> Outcome
    ensures { result ≡ refusal_of fault }
{
    match fault {
        WordsFault::Usage => Outcome::Usage,
        WordsFault::NoMemory => Outcome::NoMemory,
    }
}

/// Tells of an outcome on `err`, with the command that it is of, if words were one's, and answers its status.
pub fn report<E: Sink>(outcome: &Outcome, command: Option<Command<'_>>, err: &mut E) -> u8
    ensures status { result ≡ status_of outcome.now }
    ensures line { WereSent (line_of (name_of (option_map asked_by command.entry) outcome.now) outcome.now)
        (sink_told E.Sink err.old err.new) }
{
    send(
        &outcome.head(),
        name_of(command, outcome),
        outcome.tail(),
        err,
    );
    outcome.status()
}

// Sends three parts of a line, one after another.
fn send<E: Sink>(head: &[u8], name: &[u8], tail: &[u8], err: &mut E)
    ensures { WereSent (head.now ++ (name.now ++ tail.now))
        (sink_told E.Sink err.old err.new) }
{
    match copy_out(err, head) {
        SinkAnswer::Done => send_two(name, tail, err),
        SinkAnswer::Failed => {}
    }
}

fn send_two<E: Sink>(name: &[u8], tail: &[u8], err: &mut E)
    ensures { WereSent (name.now ++ tail.now)
        (sink_told E.Sink err.old err.new) }
{
    match copy_out(err, name) {
        SinkAnswer::Done => send_one(tail, err),
        SinkAnswer::Failed => {}
    }
}

fn send_one<E: Sink>(bytes: &[u8], err: &mut E)
    ensures { WereSent bytes.now
        (sink_told E.Sink err.old err.new) }
{
    let _ = copy_out(err, bytes);
}

// The name of the file or of the key that an outcome speaks of, if it speaks of one.
fn name_of<'a>(command: Option<Command<'a>>, outcome: &'a Outcome) -> &'a [u8]
    ensures { result.now ≡ name_of (option_map asked_by command.entry) outcome.now }
{
    match outcome {
        Outcome::BadPlan { key, .. } => key.as_slice(),
        Outcome::FileLonger(which) | Outcome::FileFailed(which) => name_in(command, *which),
        _ => b"",
    }
}

// The name of a file of `replay`, of `equipment` or of `host`.
fn name_in<'a>(command: Option<Command<'a>>, which: FileRole) -> &'a [u8]
    ensures { result.now ≡ name_in (option_map asked_by command.entry) which }
{
    match command {
        Some(command) => name_for(command, which),
        None => b"",
    }
}

fn name_for<'a>(command: Command<'a>, which: FileRole) -> &'a [u8]
    ensures { result.now ≡ name_in (Some (asked_by command.entry)) which }
{
    match command {
        Command::Replay { plan, schedule } => one_name(plan, schedule, which),
        Command::JournalReplay { plan, schedule, .. } => one_name(plan, schedule, which),
        Command::Equipment { plan, .. } => plan_name(plan, which),
        Command::Host { plan, .. } => plan_name(plan, which),
        Command::JournalHost { plan, .. } => plan_name(plan, which),
        _ => b"",
    }
}

fn one_name<'a>(plan: &'a str, schedule: &'a str, which: FileRole) -> &'a [u8]
    ensures plain { result.now ≡ name_in (Some (Replay plan.now schedule.now)) which }
    ensures journal { (slots : ℕ) → result.now ≡ name_in (Some (JournalReplay plan.now schedule.now slots)) which }
{
    match which {
        FileRole::Plan => plan.as_bytes(),
        FileRole::Schedule => schedule.as_bytes(),
    }
}

fn plan_name<'a>(plan: &'a str, which: FileRole) -> &'a [u8]
    ensures equipment { (address spool : List ℕ) (polls : ℕ)
        → result.now ≡ name_in (Some (Equipment plan.now address spool polls)) which }
    ensures host { (address : List ℕ) (polls : ℕ) → result.now ≡ name_in (Some (Host plan.now address polls)) which }
    ensures journal { (address journal : List ℕ) (polls : ℕ)
        → result.now ≡ name_in (Some (JournalHost plan.now address journal polls)) which }
{
    match which {
        FileRole::Plan => plan.as_bytes(),
        FileRole::Schedule => b"",
    }
}

// Does what a command asks for.
fn run<F: Files, R: Source, W: Sink, D: Disk, L: Link>(
    alloc: Global,
    command: Command<'_>,
    files: &mut F,
    input: &mut R,
    out: &mut W,
    disk: &mut D,
    link: &mut L,
) -> Outcome
    requires { IsInRange (asked_by command) }
    ensures { ComesFrom (Some (asked_by command.entry))
        (source_told R.Source input.old input.new)
        (files_told F.Files files.old files.new)
        (disk_told D.Disk disk.old disk.new)
        (link_told L.Link link.old link.new)
        (sink_told W.Sink out.old out.new)
        result }
{
    match command {
        Command::Show => show_input(alloc, input, out),
        Command::Spell => spell_input(alloc, input, out),
        Command::SpellHex => spell_hex_input(alloc, input, out),
        Command::Replay { plan, schedule } => replay(alloc, plan, schedule, None, files, out),
        Command::JournalReplay {
            plan,
            schedule,
            slots,
        } => replay(alloc, plan, schedule, Some(slots), files, out),
        Command::Equipment {
            plan,
            address,
            spool,
            polls,
        } => equipment(
            alloc, plan, address, spool, polls, files, input, disk, link, out,
        ),
        Command::Host {
            plan,
            address,
            polls,
        } => host(alloc, plan, address, polls, files, input, link, out),
        Command::JournalHost {
            plan,
            address,
            journal,
            polls,
        } => journal_host(
            alloc, plan, address, journal, polls, files, input, disk, link, out,
        ),
        Command::Format { spool, slots } => make_spool(spool, slots, out, disk),
        Command::Spool { spool } => list_spool(spool, out, disk),
        Command::Drop { spool, count } => drop_listed(spool, count, out, disk),
        Command::Make { rounds } => make(alloc, rounds, out),
    }
}

// Shows the capture that the input is.
fn show_input<R: Source, W: Sink>(alloc: Global, input: &mut R, out: &mut W) -> Outcome
    ensures { ComesOnInput capture_limit WasShown
        (source_told R.Source input.old input.new)
        (sink_told W.Sink out.old out.new)
        result }
{
    match whole_input(alloc, input, CAPTURE_LIMIT) {
        Ok(capture) => show_capture(alloc, capture.as_slice(), out),
        Err(refusal) => refusal,
    }
}

// Spells the item whose text the input is.
fn spell_input<R: Source, W: Sink>(alloc: Global, input: &mut R, out: &mut W) -> Outcome
    ensures { ComesOnInput item_limit WasSpelled
        (source_told R.Source input.old input.new)
        (sink_told W.Sink out.old out.new)
        result }
{
    match whole_input(alloc, input, ITEM_LIMIT) {
        Ok(text) => spell(alloc, text.as_slice(), out),
        Err(refusal) => refusal,
    }
}

// Writes the text of the item whose hex the input is.
fn spell_hex_input<R: Source, W: Sink>(alloc: Global, input: &mut R, out: &mut W) -> Outcome
    ensures { ComesOnInput item_limit WasPrinted
        (source_told R.Source input.old input.new)
        (sink_told W.Sink out.old out.new)
        result }
{
    match whole_input(alloc, input, ITEM_LIMIT) {
        Ok(digits) => spell_hex(alloc, digits.as_slice(), out),
        Err(refusal) => refusal,
    }
}

// Makes a spool file of this name.
fn make_spool<W: Sink, D: Disk>(name: &str, slots: u32, out: &mut W, disk: &mut D) -> Outcome
    requires some { 1 ≤ slots }
    requires most { slots ≤ 65535 }
    ensures { EndedAs
        (FormatsSpool name.now slots
        (disk_told D.Disk disk.old disk.new)
        (sink_told W.Sink out.old out.new))
        result }
{
    outcome_of_spool(format_spool(disk, name, slots, out))
}

// Writes the list of the spool file of this name.
fn list_spool<W: Sink, D: Disk>(name: &str, out: &mut W, disk: &mut D) -> Outcome
    ensures { EndedAs
        (ShowsSpool name.now
        (disk_told D.Disk disk.old disk.new)
        (sink_told W.Sink out.old out.new))
        result }
{
    outcome_of_spool(show_spool(disk, name, out))
}

// Drops the first messages of the spool file of this name.
fn drop_listed<W: Sink, D: Disk>(name: &str, count: u32, out: &mut W, disk: &mut D) -> Outcome
    ensures { EndedAs
        (DropsMessages name.now count
        (disk_told D.Disk disk.old disk.new)
        (sink_told W.Sink out.old out.new))
        result }
{
    outcome_of_spool(drop_messages(disk, name, count, out))
}

// What a word about a spool file came to.
fn outcome_of_spool(ended: SpoolEnd) -> Outcome
    ensures { result ≡ outcome_of_spool ended }
{
    match ended {
        SpoolEnd::Done => Outcome::Done,
        SpoolEnd::NotSpool(place) => Outcome::NotSpool { at: place.at },
        SpoolEnd::DiskFailed => Outcome::DiskFailed,
        SpoolEnd::WriteFailed => Outcome::WriteFailed,
    }
}

// Shows a capture.
fn show_capture<W: Sink>(alloc: Global, capture: &[u8], out: &mut W) -> Outcome
    ensures { WasShown capture.now
        (sink_told W.Sink out.old out.new)
        result }
{
    outcome_of_show(show(alloc, capture, out))
}

// What showing a capture came to.
fn outcome_of_show(shown: Result<Ending, Stop>) -> Outcome
    ensures { result ≡ outcome_of_show shown }
{
    match shown {
        Ok(Ending::Whole) => Outcome::Done,
        Ok(Ending::Broken(named)) => Outcome::BadFrame(named),
        Err(Stop::NoMemory) => Outcome::NoMemory,
        Err(Stop::WriteFailed) => Outcome::WriteFailed,
    }
}
