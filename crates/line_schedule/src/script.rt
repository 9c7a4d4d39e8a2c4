//! Scripts and their text.

ghost use Rattle.std.specs.Prelude.{◌≡◌, ◌↔◌, ℕ, List, ◌≤◌, Err, IfOk, IsTrue, true};
ghost use Rattle.line_schedule.specs.declared.schedule.ScheduleFault.TheVariants as fault;
ghost use Rattle.line_schedule.specs.declared.script.ScriptStep.{ScriptStep};
ghost use Rattle.line_schedule.specs.Lines.{lines_of, ReadsOnly, RefusesOnly};
ghost use Rattle.line_schedule.specs.Reading.{Gives, command_in, read_lines, script_answer, script_line_in, script_reader, step_in};
ghost use Rattle.line_schedule.specs.Script.{IsScript, LineFits, OutsideScriptAt, ScriptFits, StepFits, are_in_order};

use crate::host_commands::host_command_in;
use crate::lines::{is_passed_over, split_line};
use crate::schedule::ScheduleFault;
use crate::tool_commands::tool_command_in;
use crate::words::{any_number_in, is_word, split_at};
use gl_base::{NoMemory, Row, Side};
use std::alloc::Global;
use trace_log::{HostCommand, ToolCommand};

/// How many lines a script may have.
const MOST_LINES: u32 = 65_536;

/// What is to happen at a moment.
#[derive(Debug, Drop)]
pub enum ScriptStep {
    /// The equipment is told something by its tool.
    Tool(ToolCommand),
    /// The host is told something by its user.
    Host(HostCommand),
    /// The end stops.
    Stop,
}

impl ScriptStep {
    fn fits(&self) -> bool
        ensures { IsTrue result ↔ StepFits self.now }
    {
        match self {
            ScriptStep::Tool(command) => command.fits(),
            ScriptStep::Host(command) => command.fits(),
            ScriptStep::Stop => true,
        }
    }
}

/// What one end is told, each with its moment in milliseconds, in order.
#[derive(Debug, Drop)]
pub struct Script {
    pub lines: Row<(u64, ScriptStep)>,
}

impl Script {
    /// Whether there are at most 65,536 lines, no moment is below the one before, each is of 32 bits, and each command
    /// fits.
    pub fn fits(&self) -> bool
        ensures { IsTrue result ↔ ScriptFits self.now }
    {
        let lines = self.lines.as_slice();
        lines.len() <= MOST_LINES as usize
            && are_in_order(lines)
            && lines.iter().all(|line| line_fits(line))
    }
}

fn line_fits(line: &(u64, ScriptStep)) -> bool
    ensures { IsTrue result ↔ LineFits line.now }
{
    line.0 <= 0xFFFF_FFFF && line.1.fits()
}

fn are_in_order(lines: &[(u64, ScriptStep)]) -> bool
    ensures { result ≡ are_in_order 0 lines.now }
{
    let mut least = 0;
    let mut rest = lines;
    'rows: while let Some((line, more)) = rest.split_first() {
        if line.0 < least {
            return false;
        }
        least = line.0;
        rest = more;
    }
    true
}

/// The script for this end that a text means, which fits. A line feed closes a line; at the end of the text it may be
/// missing. A line is a moment, a space, and a command of this end or `stop`, or it is empty or has a `#` in front and
/// is passed over. No moment is below the one before. Lines behind `stop` count like all others.
///
/// Otherwise `Line` names, counted from 1, the first line that is none of these, as the 65,537th is. It takes memory
/// for the lines, and for an item as long as it is read.
pub fn read_script(alloc: Global, text: &[u8], side: Side) -> Result<Script, ScheduleFault>
    // What is returned is what the text means.
    ensures found { IfOk result (λ script. IsScript side text.now script.lines) }
    ensures fits { IfOk result (λ script. ScriptFits script) }
    // What the text means is returned, unless memory runs out.
    ensures only { (lines : List (ℕ × ScriptStep)) → IsScript side text.now lines →
        ReadsOnly (λ s. s.lines) lines result }
    // A line that is named is the first that is outside the grammar.
    ensures line { (number : ℕ) → result ≡ Err (fault.Line number) → OutsideScriptAt side text.now number }
    // Such a line is named, unless memory runs out.
    ensures outside { (number : ℕ) → OutsideScriptAt side text.now number → RefusesOnly (fault.Line number) result }
{
    lines_of(alloc, text, side)
}

/// What all lines tell, up to the first that is outside the grammar.
fn lines_of(alloc: Global, text: &[u8], side: Side) -> Result<Script, ScheduleFault>
    ensures { Gives (λ s. s.lines) result (read_lines (script_reader side) 0 0 (lines_of text.now)) }
{
    let mut lines = Row::new(alloc);
    let mut rest = text;
    let mut number = 0;
    let mut least = 0;
    'rows: while !rest.is_empty() {
        let (line, after) = split_line(rest);
        number += 1;
        if let Some((moment, step)) = line_of(alloc, line, side, number, least)? {
            lines.push((moment, step))?;
            least = moment;
        }
        rest = after;
    }
    Ok(Script { lines })
}

/// What the line of this number tells, where its moment isn't below another, or nothing where it is passed over.
fn line_of(
    alloc: Global,
    line: &[u8],
    side: Side,
    number: u32,
    least: u64,
) -> Result<Option<(u64, ScriptStep)>, ScheduleFault>
    ensures answer { Gives (λ x. x) result (script_answer side number least line.now) }
    ensures within { IfOk result (λ told. number ≤ 65536) }
{
    if number > MOST_LINES {
        return Err(ScheduleFault::Line(number));
    }
    if is_passed_over(line) {
        return Ok(None);
    }
    let Some((moment, step)) = script_line_in(alloc, line, side)? else {
        return Err(ScheduleFault::Line(number));
    };
    if moment < least {
        return Err(ScheduleFault::Line(number));
    }
    Ok(Some((moment, step)))
}

fn script_line_in(
    alloc: Global,
    line: &[u8],
    side: Side,
) -> Result<Option<(u64, ScriptStep)>, NoMemory>
    ensures { IfOk result (λ told. told ≡ script_line_in side line.now) }
{
    let Some((moment, step)) = split_at(b' ', line) else {
        return Ok(None);
    };
    let Some(moment) = any_number_in(moment) else {
        return Ok(None);
    };
    match step_in(alloc, step, side)? {
        Some(step) => Ok(Some((u64::from(moment), step))),
        None => Ok(None),
    }
}

/// What a text of this end tells: a command of it, or that it stops.
pub fn step_in(alloc: Global, text: &[u8], side: Side) -> Result<Option<ScriptStep>, NoMemory>
    ensures { IfOk result (λ step. step ≡ step_in side text.now) }
{
    if let Some(step) = command_in(alloc, text, side)? {
        return Ok(Some(step));
    }
    if is_word(b"stop", text) {
        return Ok(Some(ScriptStep::Stop));
    }
    Ok(None)
}

fn command_in(alloc: Global, text: &[u8], side: Side) -> Result<Option<ScriptStep>, NoMemory>
    ensures { IfOk result (λ step. step ≡ command_in side text.now) }
{
    match side {
        Side::Equipment => match tool_command_in(alloc, text)? {
            Some(command) => Ok(Some(ScriptStep::Tool(command))),
            None => Ok(None),
        },
        Side::Host => match host_command_in(alloc, text)? {
            Some(command) => Ok(Some(ScriptStep::Host(command))),
            None => Ok(None),
        },
    }
}
