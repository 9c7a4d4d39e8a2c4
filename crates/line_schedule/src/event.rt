//! The events of a schedule as values, and the ranges that they keep to.

ghost use Rattle.std.specs.Prelude.{◌≡◌, ◌↔◌, IsTrue};
ghost use Rattle.line_schedule.specs.Events.{ChoiceFits, EventFits, EventFitsIn, may_stand};

use disk_base::CutChoice;
use gl_base::Side;
use trace_log::{HostCommand, ToolCommand};

/// What a line of a schedule has happen. An end that is named is the one to which the characters are on their way.
#[derive(Debug, Drop)]
pub enum Event {
    /// This end takes the next characters on their way to it: so many of them, or all if they are not as many.
    To(Side, u32),
    /// So many of the next characters are lost, or all if they are not as many.
    Lose(Side, u32),
    /// The character at this place, counted from 0 for the next one, gets another byte. Nothing where there is none.
    Change(Side, u32, u8),
    /// Noise of this byte comes in front of all others.
    Add(Side, u8),
    /// Both ends take characters, one at a time and 65,536 at most, as long as any is on its way. The host has its
    /// turn only while none is on its way to the equipment.
    Settle,
    /// Moves the clock on by so many milliseconds.
    Wait(u32),
    /// The equipment is told something by its tool.
    Tool(ToolCommand),
    /// The host is told something by its user.
    Host(HostCommand),
    /// In the next event the equipment's disk call of this number, counted from 1, stops the disk, and the equipment
    /// loses its power; where fewer are made it loses it at the event's end. What was written and not settled is left
    /// as the choice says.
    Cut(u32, CutChoice),
    /// The same of the host and its disk, where it has one.
    HostCut(u32, CutChoice),
}

/// How far a line may move the clock on, in milliseconds.
pub(crate) const LONGEST_WAIT: u32 = 1_000_000;

impl Event {
    /// Whether the event is within its ranges: a wait is of at most 1,000,000 milliseconds, disk calls are counted
    /// from 1, a choice keeps at most 2^32 - 1 places, and a command fits.
    pub fn fits(&self) -> bool
        ensures { IsTrue result ↔ EventFits self.now }
    {
        match self {
            // Always so; what is read of a byte tells its range.
            Event::Change(_, _, byte) | Event::Add(_, byte) => *byte <= u8::MAX,
            Event::Wait(milliseconds) => *milliseconds <= LONGEST_WAIT,
            Event::Tool(command) => command.fits(),
            Event::Host(command) => command.fits(),
            Event::Cut(call, choice) | Event::HostCut(call, choice) => {
                1 <= *call && choice_fits(*choice)
            }
            _ => true,
        }
    }

    /// Whether it is within its ranges, and no loss of a host that doesn't lose its power.
    pub(crate) fn fits_in(&self, host_loses: bool) -> bool
        ensures { IsTrue result ↔ EventFitsIn host_loses self.now }
    {
        self.may_stand(host_loses) && self.fits()
    }

    /// Whether it is none of the host's losses, where that doesn't lose its power.
    pub(crate) fn may_stand(&self, host_loses: bool) -> bool
        ensures { result ≡ may_stand host_loses self.now }
    {
        match self {
            Event::HostCut(_, _) => host_loses,
            _ => true,
        }
    }
}

fn choice_fits(choice: CutChoice) -> bool
    ensures { IsTrue result ↔ ChoiceFits choice }
{
    match choice {
        CutChoice::First(places) => places <= 0xFFFF_FFFF,
        _ => true,
    }
}
