//! The host with its journal over a real line: as it is run over a link.
#![tactic(auto)]

mod linked;

pub use linked::LinkedJournal;
