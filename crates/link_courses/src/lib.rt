//! That a run over a link is a course of its end, so that what is proved of all courses holds of it: laws alone.
#![tactic(auto)]

mod laws;

pub use laws::{
    equipments_keep_their_laws, hosts_keep_their_laws, runs_are_courses, runs_note_courses,
    tools_keep_their_laws, worked_courses,
};
