//! The words after the program's name, as one command. The first is its name, and the rest goes to a simple command of
//! `clap` of that name.
#![tactic(auto)]

mod command;
mod forms;
mod laws;
mod names;
mod numbers;
mod parsing;

pub use command::{Command, WordsFault, command_of};
pub use laws::{
    hyphens_end_options, other_names_are_refused, plain_words_are_taken, words_are_as_worked,
};
