//! Messages of SECS-I (SEMI E4) as blocks: those that wait to go out, and those that come in block by block.
#![tactic(auto)]

mod assembly;
mod flow;
mod key;
mod laws;
mod message;
mod outgoing;
mod partial;
mod step;
mod waiting;

pub use assembly::Assembly;
pub use flow::Flow;
pub use laws::{
    blocks_are_numbered, blocks_carry_text, blocks_make_messages, kept_is_looked_back_for,
    left_out_is_missed, messages_come_whole, messages_go_in_blocks, standing_goes_on,
    whole_is_numbered, whole_messages_fit, worked_runs,
};
pub use message::Message;
pub use outgoing::{Outgoing, Pushing};
pub use step::{NodeInput, Note, StepOut};
