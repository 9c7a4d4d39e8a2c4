//! What a tool is told of what comes beside its link.

ghost use Rattle.std.specs.Prelude.{◌≡◌, false, true, IfOk};
ghost use Rattle.std.specs.Option.{option_map};
ghost use Rattle.trace_log.specs.Commands.{ToolCommandFits};
ghost use Rattle.end_run.specs.Commands.{IsTaken};
ghost use Rattle.end_run.specs.Told.{IfNext, IsNext};
ghost use Rattle.live_commands.specs.Coming.{asked_left, at_start, behind_left, closed, reads_on};
ghost use Rattle.live_commands.specs.Commands.{AsksFits};
ghost use Rattle.live_teller.specs.Callers.{IsShort, address_of};
ghost use Rattle.live_teller.specs.Stages.{behind_from, behind_of, ends_still, here_from, here_of, telling_at};
ghost use Rattle.live_teller.specs.Tellings.{bad_line, end_told, host_line, ok_line, stands_after, telling_of, tellings_of, told_by};

use crate::beside::{Beside, Caller};
use arrayvec::ArrayVec;
use end_run::{Teller, Told};
use gl_base::{Link, LinkIn, NoMemory};
use live_commands::{Asks, CommandReader};
use short_text::{put, put_number};
use std::alloc::Global;
use trace_log::ToolCommand;

/// A line that isn't of the trace.
type Line = ArrayVec<u8, 128>;

/// What is told next of what has come with an answer.
#[derive(Clone, Copy)]
enum Stage {
    /// Who is at the line, and then all else.
    Host,
    /// The lines that have ended, and then the end of the input, if that has come.
    Lines,
    /// The last line, behind which the input has ended, and then that the tool stops.
    Last,
    /// Lines alone, of which none is left when its input has ended or nothing has come yet.
    Over,
}

/// What is told now.
#[derive(Drop)]
enum Now {
    Command(ToolCommand),
    Text,
    Stop,
}

/// The same, with its reply or text.
#[derive(Drop)]
struct At {
    now: Now,
    reply: Line,
}

/// Tells a tool what comes beside its link: who is at the line, and each command as its line ends, with a reply. A line
/// that is no command is told as a text. At the end of the input the tool stops.
#[derive(Drop)]
pub struct LiveTeller<B> {
    beside: B,
    reader: CommandReader,
    stage: Stage,
    at: At,
}

impl<B> LiveTeller<B> {
    /// Nothing has come yet.
    pub fn new(alloc: Global, beside: B) -> Result<LiveTeller<B>, NoMemory>
    where
        B: Drop,
        ensures beside { IfOk result (λ teller. teller.beside ≡ beside) }
        ensures reader { IfOk result (λ teller. teller.reader ≡ reads_on at_start) }
        ensures stage { IfOk result (λ teller. teller.stage ≡ Stage.Over) }
    {
        Ok(LiveTeller {
            beside,
            reader: CommandReader::new(alloc)?,
            stage: Stage::Over,
            at: At {
                now: Now::Stop,
                reply: Line::new(),
            },
        })
    }

    /// What comes beside the link.
    pub fn beside(&self) -> &B
        ensures { result.now ≡ self.now.beside }
    {
        &self.beside
    }

    // Whether the input has ended, and that isn't told yet.
    fn ends_still<L: Link>(&self) -> bool
    where
        B: Beside<L>,
        ensures { result ≡ ends_still self.now.stage (B.ended self.now.beside) }
    {
        match self.stage {
            Stage::Host | Stage::Lines => self.beside.has_ended(),
            Stage::Last | Stage::Over => false,
        }
    }

    // Goes to who is at the line, if that is news, or to the next line.
    fn next_of_all<L: Link>(&mut self, alloc: Global) -> Result<bool, NoMemory>
    where
        B: Beside<L>,
        ensures next { IfOk result (IsNext
            (here_from B.Beside Stage.Host self.old)
            (telling_at self.new.at)
            (here_of B.Beside self.new)) }
        ensures takes { IfOk result (λ is. IfNext is (IsTaken ToolCommandFits (telling_at self.new.at))) }
        ensures stands { behind_of B.Beside self.new ≡ behind_from B.Beside Stage.Host self.old }
        ensures beside { self.new.beside ≡ self.old.beside }
    {
        match self.beside.caller() {
            Some(caller) => {
                let reply = host_line(caller);
                self.at = At {
                    now: Now::Text,
                    reply,
                };
                self.stage = Stage::Lines;
                Ok(true)
            }
            None => self.next_of_lines::<L>(alloc),
        }
    }

    // Goes to the next line, or where the input has ended to its last one, or to the stop behind that.
    fn next_of_lines<L: Link>(&mut self, alloc: Global) -> Result<bool, NoMemory>
    where
        B: Beside<L>,
        ensures next { IfOk result (IsNext
            (here_from B.Beside Stage.Lines self.old)
            (telling_at self.new.at)
            (here_of B.Beside self.new)) }
        ensures takes { IfOk result (λ is. IfNext is (IsTaken ToolCommandFits (telling_at self.new.at))) }
        ensures stands { behind_of B.Beside self.new ≡ behind_from B.Beside Stage.Lines self.old }
        ensures beside { self.new.beside ≡ self.old.beside }
    {
        self.stage = Stage::Lines;
        let found = next_line(alloc, &mut self.reader, self.beside.bytes(), &mut self.at)?;
        if found {
            return Ok(true);
        }
        let ended = self.beside.has_ended();
        if ended {
            return self.next_end::<L>(alloc);
        }
        Ok(false)
    }

    // The input has ended: goes to its last line, or to the stop behind it.
    fn next_end<L: Link>(&mut self, alloc: Global) -> Result<bool, NoMemory>
    where
        B: Beside<L>,
        requires { self.old.reader.found ≡ false }
        ensures next { IfOk result (IsNext
            (end_told true self.old.reader.here)
            (telling_at self.new.at)
            (here_of B.Beside self.new)) }
        ensures takes { IfOk result (λ is. IfNext is (IsTaken ToolCommandFits (telling_at self.new.at))) }
        ensures stands { behind_of B.Beside self.new ≡ closed self.old.reader.here }
        ensures beside { self.new.beside ≡ self.old.beside }
    {
        self.reader.end(self.beside.bytes());
        self.next_of_last::<L>(alloc)
    }

    // Goes to the last line, or to the stop behind it, with which nothing more is told.
    fn next_of_last<L: Link>(&mut self, alloc: Global) -> Result<bool, NoMemory>
    where
        B: Beside<L>,
        ensures next { IfOk result (IsNext
            (here_from B.Beside Stage.Last self.old)
            (telling_at self.new.at)
            (here_of B.Beside self.new)) }
        ensures takes { IfOk result (λ is. IfNext is (IsTaken ToolCommandFits (telling_at self.new.at))) }
        ensures stands { behind_of B.Beside self.new ≡ behind_from B.Beside Stage.Last self.old }
        ensures beside { self.new.beside ≡ self.old.beside }
    {
        self.stage = Stage::Last;
        let found = next_line(alloc, &mut self.reader, self.beside.bytes(), &mut self.at)?;
        if found {
            return Ok(true);
        }
        self.at.now = Now::Stop;
        self.stage = Stage::Over;
        Ok(true)
    }
}

// Passes over what has come and isn't told yet, the end of the input as well, if that is to be told still.
fn pass_over(reader: &mut CommandReader, bytes: &[u8], ends: bool)
    ensures found { reader.new.found ≡ false }
    ensures here { reader.new.here ≡ stands_after ends (behind_left reader.old bytes.now) }
{
    reader.skip(bytes);
    if !ends {
        return;
    }
    reader.end(bytes);
    reader.skip(bytes);
}

// Goes to the next line. Tells whether there is one.
fn next_line(
    alloc: Global,
    reader: &mut CommandReader,
    bytes: &[u8],
    at: &mut At,
) -> Result<bool, NoMemory>
    ensures next { IfOk result (IsNext
        (tellings_of (asked_left reader.old bytes.now))
        (telling_at at.new)
        (tellings_of (asked_left reader.new bytes.now))) }
    ensures takes { IfOk result (λ is. IfNext is (IsTaken ToolCommandFits (telling_at at.new))) }
    ensures stands { behind_left reader.new bytes.now ≡ behind_left reader.old bytes.now }
    ensures last { IfOk result (λ is. is ≡ false → reader.new ≡ reader.old) }
    ensures through { IfOk result (λ is. is ≡ false → reader.new.found ≡ false) }
{
    let next = reader.next(alloc, bytes)?;
    match next {
        Some((number, asks)) => {
            *at = told_of(number, asks);
            Ok(true)
        }
        None => Ok(false),
    }
}

// The line that tells who is at the line.
fn host_line(caller: Caller<'_>) -> Line
    requires { IsShort (address_of caller) }
    ensures { result.items ≡ host_line (address_of caller.entry) }
{
    let mut line = Line::new();
    match caller {
        Caller::Host(address) => {
            put(&mut line, b"# host ");
            put(&mut line, address);
            put(&mut line, b"\n");
        }
        Caller::Nobody => put(&mut line, b"# no host\n"),
    }
    line
}

// What a line of this number is told as.
fn told_of(number: u64, asks: Asks) -> At
    requires { AsksFits asks }
    ensures told { telling_at result ≡ telling_of (number, asks) }
    ensures takes { IsTaken ToolCommandFits (telling_at result) }
{
    match asks {
        Asks::Command(command) => At {
            now: Now::Command(command),
            reply: ok_line(number),
        },
        Asks::Nothing { at } => At {
            now: Now::Text,
            reply: bad_line(number, at as u64),
        },
        Asks::Stop => At {
            now: Now::Stop,
            reply: Line::new(),
        },
    }
}

fn ok_line(number: u64) -> Line
    ensures { result.items ≡ ok_line number }
{
    let mut line = Line::new();
    put(&mut line, b"ok ");
    put_number(&mut line, number);
    put(&mut line, b"\n");
    line
}

fn bad_line(number: u64, at: u64) -> Line
    ensures { result.items ≡ bad_line number at }
{
    let mut line = Line::new();
    put(&mut line, b"bad ");
    put_number(&mut line, number);
    put(&mut line, b" at ");
    put_number(&mut line, at);
    put(&mut line, b"\n");
    line
}

impl<L: Link, B: Beside<L>> Teller<L> for LiveTeller<B> {
    type Command = ToolCommand;

    ghost to_come = { λ t. option_map (told_by (behind_of B.Beside t)) (B.to_come t.beside) };

    ghost here = { λ t. here_of B.Beside t };

    ghost at = { λ t. telling_at t.at };

    ghost takes = { ToolCommandFits };

    fn wait(&mut self, link: &mut L, until: u64) -> LinkIn {
        let ends = self.ends_still::<L>();
        pass_over(&mut self.reader, self.beside.bytes(), ends);
        self.stage = Stage::Host;
        self.beside.wait(link, &mut self.reader, until)
    }

    fn next(&mut self, alloc: Global) -> Result<bool, NoMemory> {
        match self.stage {
            Stage::Host => self.next_of_all::<L>(alloc),
            Stage::Lines => self.next_of_lines::<L>(alloc),
            Stage::Last => self.next_of_last::<L>(alloc),
            Stage::Over => next_line(alloc, &mut self.reader, self.beside.bytes(), &mut self.at),
        }
    }

    fn told(&self) -> Told<'_, ToolCommand> {
        match &self.at.now {
            Now::Command(command) => Told::Command(command, self.at.reply.as_slice()),
            Now::Text => Told::Text(self.at.reply.as_slice()),
            Now::Stop => Told::Stop,
        }
    }
}
