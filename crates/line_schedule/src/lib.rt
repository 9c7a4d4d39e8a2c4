//! Schedules of what befalls the line and its two ends, and scripts of what one end is told, read from text (this
//! profile).
#![tactic(auto)]

mod event;
mod events;
mod host_commands;
mod items;
mod laws;
mod lines;
mod schedule;
mod script;
mod tool_commands;
mod words;

pub use event::Event;
pub use laws::readers_find_the_meaning;
pub use lines::{is_passed_over, split_line};
pub use schedule::{
    JournalSchedule, Schedule, ScheduleFault, read_journal_schedule, read_schedule,
};
pub use script::{Script, ScriptStep, read_script, step_in};
pub use words::{is_word, number_in, place_of};
