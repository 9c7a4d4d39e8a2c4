//! What ends are told and what they note: the log of a run, its lines, and what is said of the messages in it.
#![tactic(auto)]

mod commands;
mod entries;
mod laws;
mod names;
mod notes;
mod putting;

pub use commands::{HostCommand, ToolCommand};
pub use entries::{put_end, put_note, put_slip};
pub use laws::notes_are_lines;
pub use names::{Cause, CommsName, ControlName, Name, Title};
pub use notes::{
    alarm_note, carried_note, closed_note, comms_note, control_note, crowded_note, denied_note,
    discarded_note, display_note, dropped_by_t4_note, dropped_note, duplicate_note,
    equipment_started_note, event_note, failed_note, foreign_note, full_note, gone_note,
    host_started_note, leaving_note, power_note, received_note, refused_note, sent_note, set_note,
    spool_note, stored_note, storing_note, stranger_note, timed_out_note, too_long_block_note,
    too_long_note, try_note, unexpected_note, wrote_note,
};
