//! Schedules and their text.

ghost use Rattle.std.specs.Prelude.{◌≡◌, ◌↔◌, ℕ, List, ◌≤◌, Err, IfOk, IsTrue};
ghost use Rattle.line_schedule.specs.declared.schedule.ScheduleFault.TheVariants as fault;
ghost use Rattle.line_schedule.specs.declared.event.Event.{Event};
ghost use Rattle.line_schedule.specs.Lines.{lines_of, ReadsOnly, RefusesOnly};
ghost use Rattle.line_schedule.specs.Reading.{Gives, read_lines, schedule_answer, schedule_reader};
ghost use Rattle.line_schedule.specs.Schedule.{FitIn, Fits, IsJournalSchedule, IsOutsideIn, IsSchedule, IsScheduleIn, JournalFits, OutsideAt, OutsideJournalAt};

use crate::event::Event;
use crate::events::event_in;
use crate::lines::{is_passed_over, split_line};
use gl_base::{NoMemory, Row};
use std::alloc::Global;

/// How many lines a schedule may have.
const MOST_LINES: u32 = 131_072;

/// What is to happen, in order.
#[derive(Debug, Drop)]
pub struct Schedule {
    pub events: Row<Event>,
}

impl Schedule {
    /// Whether there are at most 131,072 events, each within its ranges, and none of them a loss of the host's power.
    pub fn fits(&self) -> bool
        ensures { IsTrue result ↔ Fits self.now }
    {
        fit_in(self.events.as_slice(), false)
    }
}

/// What is to happen, in order, in the world of a host with a journal, which may lose its power too.
#[derive(Debug, Drop)]
pub struct JournalSchedule {
    pub events: Row<Event>,
}

impl JournalSchedule {
    /// Whether there are at most 131,072 events, each within its ranges.
    pub fn fits(&self) -> bool
        ensures { IsTrue result ↔ JournalFits self.now }
    {
        fit_in(self.events.as_slice(), true)
    }
}

fn fit_in(events: &[Event], host_loses: bool) -> bool
    ensures { IsTrue result ↔ FitIn host_loses events.now }
{
    events.len() <= MOST_LINES as usize && events.iter().all(|event| event.fits_in(host_loses))
}

/// Why a text gives no schedule or script: its first line that can't be taken, counted from 1.
#[derive(Clone, Copy, Debug, PartialEq, Eq)]
pub enum ScheduleFault {
    /// The line is outside the grammar, or past the last line that such a text may have.
    Line(u32),
    /// Memory ran out.
    NoMemory,
}

impl From<NoMemory> for ScheduleFault {
    ghost from_gives = { λ _ e. e ≡ fault.NoMemory };

    fn from(_error: NoMemory) -> ScheduleFault {
        ScheduleFault::NoMemory
    }
}

/// The schedule that a text means, which fits. A line feed closes a line; at the end of the text it may be missing. A
/// line tells an event where it is `to X n`, `lose X n`, `change X p b`, `add X b`, `settle`, `wait ms`, `tool C`,
/// `host C` or `cut k choice`, and nothing where it is empty or has a `#` in front.
///
/// Otherwise `Line` names the first line that does neither, counted from 1, or the 131,073rd, whichever comes first. It
/// takes memory for the events, and for an item as long as it is read.
pub fn read_schedule(alloc: Global, text: &[u8]) -> Result<Schedule, ScheduleFault>
    // What is returned is what the text means.
    ensures found { IfOk result (λ schedule. IsSchedule text.now schedule.events) }
    ensures fits { IfOk result (λ schedule. Fits schedule) }
    // What the text means is returned, unless memory runs out.
    ensures only { (events : List Event) → IsSchedule text.now events → ReadsOnly (λ s. s.events) events result }
    // A line that is named is the first that is outside the grammar.
    ensures line { (number : ℕ) → result ≡ Err (fault.Line number) → OutsideAt text.now number }
    // Such a line is named, unless memory runs out.
    ensures outside { (number : ℕ) → OutsideAt text.now number → RefusesOnly (fault.Line number) result }
{
    match events_of(alloc, text, false) {
        Ok(events) => Ok(Schedule { events }),
        Err(fault) => Err(fault),
    }
}

/// The schedule that a text means in the world of a host with a journal, which fits. A line tells an event as in
/// `read_schedule`, or `hcut k choice`, by which the host's power goes.
///
/// Otherwise `Line` names the first line as there, and it takes memory as there.
pub fn read_journal_schedule(alloc: Global, text: &[u8]) -> Result<JournalSchedule, ScheduleFault>
    ensures found { IfOk result (λ schedule. IsJournalSchedule text.now schedule.events) }
    ensures fits { IfOk result (λ schedule. JournalFits schedule) }
    ensures only { (events : List Event) → IsJournalSchedule text.now events →
        ReadsOnly (λ s. s.events) events result }
    ensures line { (number : ℕ) → result ≡ Err (fault.Line number) → OutsideJournalAt text.now number }
    ensures outside { (number : ℕ) → OutsideJournalAt text.now number → RefusesOnly (fault.Line number) result }
{
    match events_of(alloc, text, true) {
        Ok(events) => Ok(JournalSchedule { events }),
        Err(fault) => Err(fault),
    }
}

/// The events of all lines, which are all in the grammar.
fn events_of(alloc: Global, text: &[u8], host_loses: bool) -> Result<Row<Event>, ScheduleFault>
    ensures found { IfOk result (λ events. IsScheduleIn host_loses text.now events) }
    ensures fits { IfOk result (λ events. FitIn host_loses events) }
    ensures only { (events : List Event) → IsScheduleIn host_loses text.now events →
        ReadsOnly (λ read. read) events result }
    ensures line { (number : ℕ) → result ≡ Err (fault.Line number) → IsOutsideIn host_loses text.now number }
    ensures outside { (number : ℕ) → IsOutsideIn host_loses text.now number →
        RefusesOnly (fault.Line number) result }
{
    read_lines(alloc, text, host_loses)
}

/// The events of all lines up to the first that is outside the grammar.
fn read_lines(alloc: Global, text: &[u8], host_loses: bool) -> Result<Row<Event>, ScheduleFault>
    ensures { Gives (λ events. events) result (read_lines (schedule_reader host_loses) 0 0 (lines_of text.now)) }
{
    let mut events = Row::new(alloc);
    let mut rest = text;
    let mut number = 0;
    'lines: while !rest.is_empty() {
        let (line, after) = split_line(rest);
        number += 1;
        if let Some(event) = event_of(alloc, line, number, host_loses)? {
            events.push(event)?;
        }
        rest = after;
    }
    Ok(events)
}

/// The event that the line of this number tells, or nothing where it is passed over.
fn event_of(
    alloc: Global,
    line: &[u8],
    number: u32,
    host_loses: bool,
) -> Result<Option<Event>, ScheduleFault>
    ensures answer { Gives (λ x. x) result (schedule_answer host_loses number line.now) }
    ensures within { IfOk result (λ event. number ≤ 131072) }
{
    if number > MOST_LINES {
        return Err(ScheduleFault::Line(number));
    }
    if is_passed_over(line) {
        return Ok(None);
    }
    let Some(event) = event_in(alloc, line)? else {
        return Err(ScheduleFault::Line(number));
    };
    if !event.may_stand(host_loses) {
        return Err(ScheduleFault::Line(number));
    }
    Ok(Some(event))
}
