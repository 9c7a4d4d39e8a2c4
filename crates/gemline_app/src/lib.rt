//! The program `gemline` over any input and output: its words, what they do, and with which status it ends.
#![tactic(auto)]

mod equipment;
mod hex_input;
mod host;
mod inputs;
mod journal;
mod laws;
mod make;
mod outcome;
mod replay;
mod run;
mod spelling;

pub use equipment::{LinkedEquipment, not_started};
pub use host::outcome_of_ending;
pub use inputs::plans_in;
pub use laws::{
    equipments_are_answered, faults_are_told, hex_means_one_item, hosts_are_answered,
    journal_hosts_are_answered, outcomes_are_due, shows_whole_captures, spelled_reads_back,
};
pub use outcome::{FileRole, Outcome};
pub use run::{gemline, report};
