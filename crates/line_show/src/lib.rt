//! Captures of a SECS-I line as lines of text: each frame, each character of the handshake, each message.
#![tactic(auto)]

mod bodies;
mod capture;
mod laws;
mod lines;
mod printer;
mod receivers;

pub use bodies::put_fault;
pub use capture::{Break, Ending};
pub use laws::{bodies_are_shown, captures_read, captures_read_in_one_way};
pub use lines::Line;
pub use printer::{Stop, show};
pub(crate) use receivers::Receivers;
