//! What holds of each row of commands, and lines that can be followed by hand.

ghost use Rattle.live_commands.specs.Laws.{ComesByBytes, PartsAreCommands};
ghost use Rattle.live_commands.specs.Worked.{WorkedBreaks, WorkedLines, WorkedParts};

/// However a row of bytes is cut, the same commands come of it.
pub fn parts_are_commands()
    ensures { PartsAreCommands }
{}

/// And with each byte the same ones.
pub fn comes_by_bytes()
    ensures { ComesByBytes }
{}

/// Lines that ask for this, or break there, and a row in parts.
pub fn worked_lines()
    ensures lines { WorkedLines }
    ensures breaks { WorkedBreaks }
    ensures parts { WorkedParts }
{}
