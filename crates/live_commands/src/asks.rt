//! What a line of a row of commands asks for.

ghost use Rattle.std.specs.Prelude.{◌≡◌, IfOk};
ghost use Rattle.live_commands.specs.Commands.{AsksFits, asked_by};

use crate::places::command_goes;
use gl_base::{NoMemory, Side};
use line_schedule::{ScriptStep, step_in};
use std::alloc::Global;
use trace_log::ToolCommand;

/// How long a line may be, in bytes, its LF not counted.
pub const LINE_LIMIT: usize = 1024 * 1024;

/// What a line asks for that isn't passed over.
#[derive(Debug, Drop)]
pub enum Asks {
    /// The tool does this.
    Command(ToolCommand),
    /// The tool stops.
    Stop,
    /// Nothing: it is no command. `at` is the place of the first byte with which none goes on, the line's length where
    /// it ends too soon, and the limit of a line that is longer.
    Nothing { at: usize },
}

/// What a line asks for; a command of it is within its ranges.
pub(crate) fn asked_by(alloc: Global, line: &[u8]) -> Result<Asks, NoMemory>
    ensures asked { IfOk result (λ asks. asks ≡ asked_by line.now) }
    ensures fits { IfOk result AsksFits }
{
    let asks = asks_of(alloc, line)?;
    Ok(asks)
}

fn asks_of(alloc: Global, line: &[u8]) -> Result<Asks, NoMemory>
    ensures { IfOk result (λ asks. asks ≡ asked_by line.now) }
{
    if line.len() > LINE_LIMIT {
        return Ok(Asks::Nothing { at: LINE_LIMIT });
    }
    match step_in(alloc, line, Side::Equipment)? {
        Some(ScriptStep::Tool(command)) => Ok(Asks::Command(command)),
        Some(ScriptStep::Stop) => Ok(Asks::Stop),
        Some(ScriptStep::Host(_)) | None => Ok(Asks::Nothing {
            at: command_goes(alloc, line)?,
        }),
    }
}
