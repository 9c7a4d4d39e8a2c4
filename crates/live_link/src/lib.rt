//! A line over TCP to whoever calls, as a link, and one wait over it and over input that comes by the side. It listens
//! for good: hosts come and go, and what is sent while nobody is at the line is lost, as on a wire.
#![tactic(auto)]

mod called_link;
mod gathered;
mod line;
mod live_input;
mod watch;

pub use called_link::CalledLink;
pub use live_input::LiveInput;
