//! The events of made rounds, a round at a time.

ghost use Rattle.std.specs.Prelude.{◌≡◌, ◌++◌, ◌∷◌, [], true, IfOk, OnOk};
ghost use Rattle.line_schedule.specs.declared.event.Event.TheVariants as event;
ghost use Rattle.trace_log.specs.declared.commands.HostCommand.TheVariants as commands;
ghost use Rattle.line_world.specs.Make.{defines_its_report, finds_nobody, first_events, has_event, kind_of_round, loses_one, loses_power, next_number, round_of, sets_and_tells, unheard, unloads};

use disk_base::CutChoice;
use gl_base::{NoMemory, Row, Side};
use line_schedule::Event;
use secs_items::Item;
use std::alloc::Global;
use trace_log::{HostCommand, ToolCommand};

/// The number of the round behind the one with this number.
pub(crate) fn next_number(x: u32) -> u32
    ensures { result ≡ next_number x }
{
    ((1_103_515_245 * u64::from(x) + 12_345) % (1 << 31)) as u32
}

/// What is to happen before the first round.
pub(crate) fn first_events(alloc: Global) -> Result<Row<Event>, NoMemory>
    ensures { IfOk result (λ events. events ≡ first_events) }
{
    let mut events = Row::new(alloc);
    events.push(Event::Settle)?;
    define_report(alloc, &mut events)?;
    Ok(events)
}

/// What is to happen in the round with this number.
pub(crate) fn round_events(alloc: Global, x: u32) -> Result<Row<Event>, NoMemory>
    ensures { IfOk result (λ events. events ≡ round_of x) }
{
    let mut events = Row::new(alloc);
    match kind_of_round(x) {
        4 => lose_one(&mut events)?,
        5 => find_nobody(&mut events)?,
        6 => lose_power(alloc, &mut events)?,
        7 => unload(alloc, &mut events)?,
        _ => set_and_tell(alloc, x, &mut events)?,
    }
    Ok(events)
}

fn kind_of_round(x: u32) -> u32
    ensures { result ≡ kind_of_round x }
{
    (x / 65_536) % 8
}

// The variable gets this number, and the event happens.
fn set_and_tell(alloc: Global, x: u32, events: &mut Row<Event>) -> Result<(), NoMemory>
    ensures { OnOk result (events.new ≡ events.old ++ sets_and_tells x) }
{
    let value = Item::U4(Row::of(alloc, &[x])?);
    events.push(Event::Tool(ToolCommand::Set(1, value)))?;
    events.push(Event::Tool(ToolCommand::Event(1)))?;
    events.push(Event::Settle)
}

// The first character behind the event is lost.
fn lose_one(events: &mut Row<Event>) -> Result<(), NoMemory>
    ensures { OnOk result (events.new ≡ events.old ++ loses_one) }
{
    events.push(Event::Tool(ToolCommand::Event(1)))?;
    events.push(Event::Lose(Side::Host, 1))?;
    events.push(Event::Wait(10_000))?;
    events.push(Event::Settle)
}

// All that the equipment tries to say is lost, four times.
fn find_nobody(events: &mut Row<Event>) -> Result<(), NoMemory>
    ensures { OnOk result (events.new ≡ events.old ++ finds_nobody) }
{
    events.push(Event::Tool(ToolCommand::Event(1)))?;
    stay_unheard(events)?;
    stay_unheard(events)?;
    stay_unheard(events)?;
    stay_unheard(events)?;
    events.push(Event::Settle)
}

fn stay_unheard(events: &mut Row<Event>) -> Result<(), NoMemory>
    ensures { OnOk result (events.new ≡ events.old ++ unheard) }
{
    events.push(Event::Lose(Side::Host, 64))?;
    events.push(Event::Wait(10_000))
}

// Power is lost behind the event.
fn lose_power(alloc: Global, events: &mut Row<Event>) -> Result<(), NoMemory>
    ensures { OnOk result (events.new ≡ events.old ++ loses_power) }
{
    events.push(Event::Tool(ToolCommand::Event(1)))?;
    events.push(Event::Cut(1, CutChoice::Old))?;
    events.push(Event::Wait(0))?;
    events.push(Event::Settle)?;
    define_report(alloc, events)
}

// The host asks for what is spooled: S6F23 with <U1 0>.
fn unload(alloc: Global, events: &mut Row<Event>) -> Result<(), NoMemory>
    ensures { OnOk result (events.new ≡ events.old ++ unloads) }
{
    ask(alloc, 6, 23, b"\xA5\x01\x00", events)?;
    Ok(())
}

// The host asks for report 10 of variable 1 at event 1: S2F33 with <L <U4 1> <L <L <U4 10> <L <U4 1>>>>>, S2F35 with
// <L <U4 2> <L <L <U4 1> <L <U4 10>>>>>, and S2F37 with <L <BOOLEAN 01> <L>>.
fn define_report(alloc: Global, events: &mut Row<Event>) -> Result<(), NoMemory>
    ensures { OnOk result (events.new ≡ events.old ++ defines_its_report) }
{
    ask(
        alloc,
        2,
        33,
        b"\x01\x02\xB1\x04\x00\x00\x00\x01\x01\x01\x01\x02\xB1\x04\x00\x00\x00\x0A\x01\x01\xB1\x04\x00\x00\x00\x01",
        events,
    )?;
    ask(
        alloc,
        2,
        35,
        b"\x01\x02\xB1\x04\x00\x00\x00\x02\x01\x01\x01\x02\xB1\x04\x00\x00\x00\x01\x01\x01\xB1\x04\x00\x00\x00\x0A",
        events,
    )?;
    ask(alloc, 2, 37, b"\x01\x02\x25\x01\x01\x01\x00", events)?;
    Ok(())
}

// The host asks for a reply to this, and all settles.
fn ask(
    alloc: Global,
    stream: u8,
    function: u8,
    body: &[u8],
    events: &mut Row<Event>,
) -> Result<(), NoMemory>
    ensures { OnOk result (events.new
        ≡ events.old ++ event.Host (commands.Send stream function true body.now) ∷ event.Settle ∷ []) }
{
    let body = Row::of(alloc, body)?;
    let command = HostCommand::Send {
        stream,
        function,
        wait: true,
        body,
    };
    events.push(Event::Host(command))?;
    events.push(Event::Settle)
}
